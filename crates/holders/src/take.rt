ghost use Rattle.std.specs.Prelude.{◌≡◌, ◌-◌, ◌<◌, true, is_some};
ghost use Rattle.holders.specs.Judge as judge;
ghost use Rattle.holders.specs.Entries.{raw_bit};
ghost use Rattle.holders.specs.Left.{plain_left, values_left};

use crate::arrays::counted;
use crate::page_values::PageValues;
use crate::types::{Form, Values};
use hybrid_rle::unpack::unpacked;

// The first of n plain values of whole bytes, and the bytes after it: the rule of each form in one match.
fn whole_front<'a>(form: Form, n: usize, bytes: &'a [u8]) -> (&'a [u8], &'a [u8])
    requires { (is_some (plain_left form n bytes.now 0) ≡ true) × ((0 < n) × (judge.coded form ≡ true)) }
    ensures { judge.put result.0.now (plain_left form (n - 1) result.1.now 0) ≡ plain_left form n bytes.now 0 }
{
    match form {
        Form::Four => bytes.split_at(4),
        Form::Eight => bytes.split_at(8),
        Form::Bits => unreachable(),
        Form::Arrays => match counted(bytes) {
            Some(p) => p,
            None => unreachable(),
        },
    }
}

// The raw value of a bit.
fn bit_bytes(bit: bool) -> &'static [u8]
    ensures { result.now ≡ raw_bit bit }
{
    if bit { &[1] } else { &[0] }
}

// The bytes of the first of n plain values, and the values after it.
fn plain_front<'a>(form: Form, n: usize, bytes: &'a [u8], at: usize) -> (&'a [u8], Values<'a>)
    requires { (is_some (plain_left form n bytes.now at) ≡ true) × (0 < n) }
    ensures { judge.put result.0.now (values_left form (n - 1) result.1) ≡ plain_left form n bytes.now at }
{
    if form == Form::Bits {
        let bit = unpacked(bytes, 1, at) == 1;
        return (bit_bytes(bit), Values::Plain { bytes, at: at + 1 });
    }
    let (value, rest) = whole_front(form, n, bytes);
    (value, Values::Plain { bytes: rest, at: 0 })
}

impl<'a> PageValues<'a> {
    // The bytes of the first value, in the data page or in the dictionary page, and the values after it.
    pub(crate) fn front(self) -> (&'a [u8], Values<'a>)
        requires { 0 < self.n }
        ensures { judge.put result.0.now (values_left self.entry.form (self.entry.n - 1) result.1) ≡ values_left self.entry.form self.entry.n self.entry.values }
    {
        match self.values {
            Values::Plain { bytes, at } => plain_front(self.form, self.n, bytes, at),
            Values::Coded { dict, indices } => {
                let mut after = indices;
                let i = after.next();
                let value = dict.get(i as usize);
                let rest = Values::Coded {
                    dict,
                    indices: after,
                };
                (value, rest)
            }
        }
    }
}
