ghost use Rattle.std.specs.Prelude.{◌≡◌, false, cond, List, [], ◌++◌, length, None};
ghost use Rattle.values.specs.Little.{signed};
ghost use Rattle.holders.specs.Columns.{column_of};
ghost use Rattle.holders.specs.Convert.{keep_32, unsigned_32, keep_64, unsigned_64, int32_keep, int32_as_wide, int32_as_unsigned, int64_keep, float as float_column, double as double_column};
ghost use Rattle.holders.specs.Holding.{held, unused_as};

use crate::primitive::decoder::PageDecoder;
use crate::utils::Decoder;
use faults::types::Cause;
use holders::cursor::{Conversion, Converted, Cursor, OverPage};
use holders::forms::{Eight, Four, PageForm};
use holders::holder::Holder;
use pages::page::Delivery;
use sinks::pushable::{Full, Pushable, Sink, Validity};
use values::Element;

impl<'a, F: PageForm, C: OverPage<'a>> PageDecoder<'a, F, C> {
    // Neither page nor dictionary.
    pub fn new(optional: bool, cursor: C) -> Self
        ensures unused { unused_as C.OverPage.value result.holder ≡ [] }
        ensures held { held result.holder ≡ None }
        ensures form { result.holder.column.form ≡ F.PageForm.form }
        ensures optional { result.holder.column.optional ≡ optional }
    {
        PageDecoder {
            holder: Holder::empty(optional),
            cursor,
        }
    }
}

impl<'a, F: PageForm, C: OverPage<'a>, P: Pushable<C::Item>, V: Validity> Decoder<'a, P, V>
    for PageDecoder<'a, F, C> {
    ghost column = { λ d. column_of d.holder.column.form C.OverPage.value d.holder.column.optional };

    ghost unused = { λ d. unused_as C.OverPage.value d.holder };

    ghost held = { λ d. held d.holder };

    fn optional(&self) -> bool {
        self.holder.optional()
    }

    fn len(&self) -> usize {
        self.holder.unused() as usize
    }

    fn build_state(&mut self, d: Delivery<'a>) -> Result<(), Cause> {
        self.holder.hold(d)
    }

    fn extend_from_state(&mut self, k: usize, sink: &mut P, validity: &mut V) -> Result<(), Full> {
        self.holder
            .extend_from_state(&mut self.cursor, k, sink, validity)
    }
}

// A number as its element type reads it: signed or unsigned, in four or eight bytes, the lowest first. A FLOAT or a DOUBLE is
// kept as its bits, an unsigned number, so that every value is kept exactly.
#[derive(Clone, Copy)]
pub struct Keep;

impl<T: Element> Conversion<T> for Keep {
    ghost int = { T.Element.reading };

    fn convert(&self, bytes: &[u8]) -> T {
        T::read(bytes)
    }
}

// INT32's number, held in eight bytes.
#[derive(Clone, Copy)]
pub struct Widen;

impl Conversion<i64> for Widen {
    ghost int = { signed 4 };

    fn convert(&self, bytes: &[u8]) -> i64 {
        i64::from(i32::read(bytes))
    }
}

// INT32, kept.
pub type Int32<'a> = PageDecoder<'a, Four, Converted<'a, i32, Keep>>;

pub fn int32<'a>(optional: bool) -> Int32<'a>
    ensures column { column_of result.holder.column.form keep_32 result.holder.column.optional ≡ int32_keep optional }
    ensures unused { unused_as keep_32 result.holder ≡ [] }
    ensures held { held result.holder ≡ None }
{
    PageDecoder::new(optional, Converted::new(Keep))
}

// INT32, widened to eight bytes.
pub type Int32Widen<'a> = PageDecoder<'a, Four, Converted<'a, i64, Widen>>;

pub fn int32_widen<'a>(optional: bool) -> Int32Widen<'a>
    ensures column { column_of result.holder.column.form keep_32 result.holder.column.optional ≡ int32_as_wide optional }
    ensures unused { unused_as keep_32 result.holder ≡ [] }
    ensures held { held result.holder ≡ None }
{
    PageDecoder::new(optional, Converted::new(Widen))
}

// INT32, its bytes as an unsigned number.
pub type Int32Unsigned<'a> = PageDecoder<'a, Four, Converted<'a, u32, Keep>>;

pub fn int32_unsigned<'a>(optional: bool) -> Int32Unsigned<'a>
    ensures column { column_of result.holder.column.form unsigned_32 result.holder.column.optional ≡ int32_as_unsigned optional }
    ensures unused { unused_as unsigned_32 result.holder ≡ [] }
    ensures held { held result.holder ≡ None }
{
    PageDecoder::new(optional, Converted::new(Keep))
}

// INT64.
pub type Int64<'a> = PageDecoder<'a, Eight, Converted<'a, i64, Keep>>;

pub fn int64<'a>(optional: bool) -> Int64<'a>
    ensures column { column_of result.holder.column.form keep_64 result.holder.column.optional ≡ int64_keep optional }
    ensures unused { unused_as keep_64 result.holder ≡ [] }
    ensures held { held result.holder ≡ None }
{
    PageDecoder::new(optional, Converted::new(Keep))
}

// FLOAT, held as its bits.
pub type Float<'a> = PageDecoder<'a, Four, Converted<'a, u32, Keep>>;

pub fn float<'a>(optional: bool) -> Float<'a>
    ensures column { column_of result.holder.column.form unsigned_32 result.holder.column.optional ≡ float_column optional }
    ensures unused { unused_as unsigned_32 result.holder ≡ [] }
    ensures held { held result.holder ≡ None }
{
    PageDecoder::new(optional, Converted::new(Keep))
}

// DOUBLE, held as its bits.
pub type Double<'a> = PageDecoder<'a, Eight, Converted<'a, u64, Keep>>;

pub fn double<'a>(optional: bool) -> Double<'a>
    ensures column { column_of result.holder.column.form unsigned_64 result.holder.column.optional ≡ double_column optional }
    ensures unused { unused_as unsigned_64 result.holder ≡ [] }
    ensures held { held result.holder ≡ None }
{
    PageDecoder::new(optional, Converted::new(Keep))
}
