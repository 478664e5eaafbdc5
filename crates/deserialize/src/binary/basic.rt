ghost use Rattle.std.specs.Prelude.{◌≡◌, [], map, None};
ghost use Rattle.values.specs.Values.{bytes};
ghost use Rattle.holders.specs.Columns.{column_of};
ghost use Rattle.holders.specs.Convert.{byte_array_column};
ghost use Rattle.holders.specs.Cursors.{to_give};
ghost use Rattle.holders.specs.Holding.{held, unused_as};

use crate::primitive::decoder::PageDecoder;
use holders::cursor::{Cursor, OverPage};
use holders::forms::Arrays;
use holders::page_values::PageValues;

// The values of a page as the bytes that they are. Beside Converted, since a conversion is to numbers, and these take a chunk's memory.
#[derive(Drop)]
pub struct BinaryIter<'a> {
    values: PageValues<'a>,
}

impl<'a> BinaryIter<'a> {
    // Over no page.
    pub fn new() -> Self
        ensures { to_give result.values ≡ [] }
    {
        BinaryIter {
            values: PageValues::empty(),
        }
    }
}

impl<'a> Cursor for BinaryIter<'a> {
    type Item = &'a [u8];

    ghost left = { λ s. map bytes (to_give s.values) };

    fn next(&mut self) -> Option<&'a [u8]> {
        self.values.next()
    }
}

impl<'a> OverPage<'a> for BinaryIter<'a> {
    ghost value = { bytes };

    fn load(&mut self, values: PageValues<'a>) {
        self.values = values;
    }

    fn rest(&self) -> PageValues<'a> {
        self.values
    }

    // Every byte of a value takes a byte of the chunk's memory.
    fn light(&self) -> bool {
        false
    }
}

// BYTE_ARRAY. A function of its own, since it promises another column.
pub type ByteArray<'a> = PageDecoder<'a, Arrays, BinaryIter<'a>>;

pub fn byte_array<'a>(optional: bool) -> ByteArray<'a>
    ensures column { column_of result.holder.column.form bytes result.holder.column.optional ≡ byte_array_column optional }
    ensures unused { unused_as bytes result.holder ≡ [] }
    ensures held { held result.holder ≡ None }
{
    PageDecoder::new(optional, BinaryIter::new())
}
