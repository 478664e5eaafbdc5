// Flags, and strings of bytes with the places where a chunk has them.
ghost use Rattle.values.specs.Values.{a_flag, a_place, bytes, flag};

use super::{Meant, Valued};

impl Meant for bool {
    ghost meant = { a_flag };
}

impl Valued for bool {
    ghost value = { flag };

    fn weigh(self) -> usize {
        0
    }
}

impl<'a> Valued for &'a [u8] {
    ghost value = { λ v. bytes v.now };

    fn weigh(self) -> usize {
        self.len()
    }
}

// Where the bytes of a row lie in the chunk, and how many there are.
#[derive(Clone, Copy, Debug, PartialEq)]
pub struct Place {
    pub at: usize,
    pub length: usize,
}

impl Meant for Place {
    ghost meant = { λ p. a_place p.at p.length };
}
