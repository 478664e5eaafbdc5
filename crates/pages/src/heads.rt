ghost use Rattle.std.specs.Prelude.{◌≡◌};
ghost use Rattle.pages.specs.Heads.{sorted};

use crate::fault::SourceFault;

// Where a page lies in a buffer, and what it is, as a file says it: sort 0 a dictionary, 1 a data page; its rows or entries;
// encoding and flag of a data page. Sort, encoding and flag are numbers here, since a file may have any.
#[derive(Clone, Copy)]
pub struct Head {
    pub sort: u8,
    pub encoding: u8,
    pub flag: u8,
    pub count: u32,
    pub place: u32,
    pub length: u32,
}

// The sorts of pages.
#[derive(Clone, Copy, Debug, PartialEq, Eq, Hash)]
pub enum Sort {
    Dictionary,
    Data,
}

impl TryFrom<u8> for Sort {
    type Error = SourceFault;

    ghost try_from_gives = { λ n r. r ≡ sorted n };

    fn try_from(n: u8) -> Result<Sort, SourceFault> {
        match n {
            0 => Ok(Sort::Dictionary),
            1 => Ok(Sort::Data),
            _ => Err(SourceFault::Sort),
        }
    }
}
