// What a column's rows hold, and the numbers of fixed width that a chunk can hold.
#![tactic(auto)]

ghost use Rattle.std.specs.Prelude.{◌≡◌, ℕ, List, ℤ, pos};
ghost use Rattle.values.specs.Values.{Seen, Value, a_number, number, weight};

pub mod integers;
pub mod kinds;

// What is read out of a chunk: a number, a flag, or the place of some bytes.
pub trait Meant {
    ghost meant: { Self → Seen };
}

// What is put into a chunk means a value.
pub trait Valued: Sized {
    ghost value: { Self → Value };

    // The bytes that it takes of a chunk's memory for bytes.
    fn weigh(self) -> usize
        ensures { result ≡ weight (value self) };
}

// A number of fixed width: how wide it is, and how it is read from bytes, the lowest first.
pub trait Element: Copy {
    ghost int: { Self → ℤ };

    ghost width: { ℕ };

    ghost reading: { List ℕ → ℤ };

    fn zero() -> Self
        ensures { int result ≡ pos 0 };

    fn wide() -> usize
        ensures { result ≡ width };

    // The number in the first bytes; 0 where there are too few.
    fn read(bytes: &[u8]) -> Self
        ensures { int result ≡ reading bytes.now };
}

impl<T: Element> Meant for T {
    ghost meant = { λ x. a_number (T.int x) };
}

impl<T: Element> Valued for T {
    ghost value = { λ x. number (T.int x) };

    fn weigh(self) -> usize {
        0
    }
}
