ghost use Rattle.std.specs.Prelude.{◌≡◌, true, is_some};
ghost use Rattle.holders.specs.Left.{values_left};

use crate::types::{Form, Values};

mod go;

// The n values of a page that are still to come.
#[derive(Clone, Copy)]
pub struct PageValues<'a> {
    pub(crate) form: Form,
    pub(crate) n: usize,
    pub(crate) values: Values<'a>,
    ghost there: { is_some (values_left form n values) ≡ true },
}
