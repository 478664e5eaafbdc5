ghost use Rattle.std.specs.Prelude.{◌≡◌, [], length, is_some};
ghost use Rattle.std.specs.Option.{option_map};
ghost use Rattle.pages.specs.Delivered.{first, others};
ghost use Rattle.holders.specs.Cursors.{to_give};

use super::PageValues;
use crate::types::{Form, Values};

impl<'a> PageValues<'a> {
    // No values.
    pub fn empty() -> Self
        ensures none { to_give result ≡ [] }
        ensures number { result.n ≡ 0 }
    {
        PageValues {
            form: Form::Four,
            n: 0,
            values: Values::Plain { bytes: &[], at: 0 },
        }
    }

    pub fn left(&self) -> usize
        ensures { result ≡ length (to_give self.now) }
    {
        self.n
    }

    // The bytes of the next value.
    pub fn next(&mut self) -> Option<&'a [u8]>
        ensures given { option_map (λ x. x.now) result ≡ first (to_give self.old) }
        ensures after { to_give self.new ≡ others (to_give self.old) }
    {
        if self.n == 0 {
            return None;
        }
        let (value, values) = self.front();
        // Written whole, so that its ghost field is shown once, of the new values.
        *self = PageValues {
            form: self.form,
            n: self.n - 1,
            values,
        };
        Some(value)
    }
}
