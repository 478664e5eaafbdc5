ghost use Rattle.std.specs.Prelude.{◌≡◌, [], map, None, ◌==◌};
ghost use Rattle.values.specs.Little.{little};
ghost use Rattle.holders.specs.Columns.{column_of};
ghost use Rattle.holders.specs.Convert.{truth, boolean as boolean_column};
ghost use Rattle.holders.specs.Cursors.{to_give};
ghost use Rattle.holders.specs.Holding.{held, unused_as};

use crate::primitive::decoder::PageDecoder;
use holders::cursor::{Cursor, OverPage};
use holders::forms::Bits;
use holders::page_values::PageValues;

// Whether the bytes are all 0.
fn all_zero(bytes: &[u8]) -> bool
    ensures { result ≡ (little bytes.now == 0) }
{
    bytes.iter().all(|b| *b == 0)
}

// Whether the bytes are the number 1.
fn is_one(bytes: &[u8]) -> bool
    ensures { result ≡ (little bytes.now == 1) }
{
    match bytes {
        [1, rest @ ..] => all_zero(rest),
        _ => false,
    }
}

// The values of a page as flags. Beside Converted, since a conversion is to numbers.
#[derive(Drop)]
pub struct BooleanValues<'a> {
    values: PageValues<'a>,
}

impl<'a> BooleanValues<'a> {
    // Over no page.
    pub fn new() -> Self
        ensures { to_give result.values ≡ [] }
    {
        BooleanValues {
            values: PageValues::empty(),
        }
    }
}

impl<'a> Cursor for BooleanValues<'a> {
    type Item = bool;

    ghost left = { λ s. map truth (to_give s.values) };

    fn next(&mut self) -> Option<bool> {
        let bytes = self.values.next()?;
        Some(is_one(bytes))
    }
}

impl<'a> OverPage<'a> for BooleanValues<'a> {
    ghost value = { truth };

    fn load(&mut self, values: PageValues<'a>) {
        self.values = values;
    }

    fn rest(&self) -> PageValues<'a> {
        self.values
    }

    fn light(&self) -> bool {
        true
    }
}

// BOOLEAN. A function of its own, since it promises another column.
pub type Boolean<'a> = PageDecoder<'a, Bits, BooleanValues<'a>>;

pub fn boolean<'a>(optional: bool) -> Boolean<'a>
    ensures column { column_of result.holder.column.form truth result.holder.column.optional ≡ boolean_column optional }
    ensures unused { unused_as truth result.holder ≡ [] }
    ensures held { held result.holder ≡ None }
{
    PageDecoder::new(optional, BooleanValues::new())
}
