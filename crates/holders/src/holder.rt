ghost use Rattle.std.specs.Prelude.{◌≡◌, length};
ghost use Rattle.holders.specs.Judge.{needed};
ghost use Rattle.holders.specs.Left.{dict_form, present_left};

use crate::forms::{Arrays, Bits, Eight, Four, PageForm};
use crate::page_values::PageValues;
use crate::types::{Column, Dict};
use hybrid_rle::validity::OptionalPageValidity;
use std::marker::PhantomData;

mod extend;
mod hold;

// The page and the dictionary that a read keeps between its calls, of pages of the form F.
#[derive(Drop)]
pub struct Holder<'a, F: PageForm> {
    column: Column,
    dict: Option<Dict<'a>>,
    rows: u32,
    validity: OptionalPageValidity<'a>,
    values: PageValues<'a>,
    of: PhantomData<F>,
    ghost form: { column.form ≡ F.form },
    ghost dictionary: { dict_form column.form dict ≡ column.form },
    ghost page: { needed (present_left column.optional rows validity) ≡ values.n },
    ghost count: { length (present_left column.optional rows validity) ≡ rows },
}

// A name for each form, for signatures.
pub type Holder4<'a> = Holder<'a, Four>;

pub type Holder8<'a> = Holder<'a, Eight>;

pub type HolderBits<'a> = Holder<'a, Bits>;

pub type HolderBytes<'a> = Holder<'a, Arrays>;
