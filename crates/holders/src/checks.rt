ghost use Rattle.std.specs.Prelude.{◌≡◌, ◌≤◌, true, is_some};
ghost use Rattle.holders.specs.Judge as judge;
ghost use Rattle.holders.specs.declared.types.Form.TheVariants.{Bits};
ghost use Rattle.holders.specs.Left.{held_entries};
ghost use Rattle.holders.specs.Shapes.{entried, encoding_of};

use crate::arrays::arrays_fit;
use crate::types::{Dict, Form};
use faults::types::Cause;

// Fault 4.
pub(crate) fn few(n: u32) -> Result<(), Cause>
    ensures { result ≡ judge.few n }
{
    if n > 1048576 {
        return Err(Cause::Rows);
    }
    Ok(())
}

// Fault 5.
pub(crate) fn flagged(optional: bool, flag: bool) -> Result<(), Cause>
    ensures { result ≡ judge.flagged optional flag }
{
    if optional != flag {
        return Err(Cause::Flag);
    }
    Ok(())
}

// How the values of a data page are encoded, by the number that the page has.
pub(crate) enum Encoding {
    Plain,
    Dictionary,
}

impl TryFrom<u8> for Encoding {
    type Error = Cause;

    ghost try_from_gives = { λ n r. r ≡ encoding_of n };

    fn try_from(number: u8) -> Result<Self, Cause> {
        match number {
            0 => Ok(Encoding::Plain),
            2 | 8 => Ok(Encoding::Dictionary),
            _ => Err(Cause::Encoding),
        }
    }
}

// Faults 6 and 7; then the dictionary to use, or none if the values are plain.
pub(crate) fn encoded<'a>(
    form: Form,
    dict: Option<Dict<'a>>,
    encoding: u8,
) -> Result<Option<Dict<'a>>, Cause>
    ensures { entried result ≡ judge.encoded form (held_entries dict.entry) encoding }
{
    match Encoding::try_from(encoding)? {
        Encoding::Plain => Ok(None),
        Encoding::Dictionary if form == Form::Bits => Err(Cause::Encoding),
        Encoding::Dictionary => Ok(Some(dict.ok_or(Cause::NoDictionary)?)),
    }
}

// The needed elements of one width.
fn fixed_fits(w: usize, optional: bool, n: usize, bytes: &[u8]) -> bool
    requires { (1 ≤ w) × ((w ≤ 8) × (n ≤ 1048576)) }
    ensures { result ≡ is_some (judge.fixed w optional n bytes.now) }
{
    if optional {
        bytes.len() % w == 0 && n * w <= bytes.len()
    } else {
        bytes.len() == n * w
    }
}

fn bits_fit(n: usize, bytes: &[u8]) -> bool
    requires { n ≤ 1048576 }
    ensures { result ≡ is_some (judge.plain Bits true n bytes.now) }
{
    (n + 7) / 8 <= bytes.len()
}

// Whether the rule for plain values holds: the rule of each form in one match. Here and in the tests below it the answer is a bool,
// since callers name different causes, and the bound 1048576 stands in each `requires`, since a type for such a number would be
// made and taken apart at each.
pub(crate) fn plain_fits(form: Form, optional: bool, n: usize, bytes: &[u8]) -> bool
    requires { n ≤ 1048576 }
    ensures { result ≡ is_some (judge.plain form optional n bytes.now) }
{
    match form {
        Form::Four => fixed_fits(4, optional, n, bytes),
        Form::Eight => fixed_fits(8, optional, n, bytes),
        Form::Bits => bits_fit(n, bytes),
        Form::Arrays => arrays_fit(n, bytes),
    }
}
