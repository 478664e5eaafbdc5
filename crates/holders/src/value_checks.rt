ghost use Rattle.std.specs.Prelude.{◌≡◌, ◌≤◌};
ghost use Rattle.holders.specs.Judge as judge;
ghost use Rattle.holders.specs.Left.{held_entries, dict_entries};
ghost use Rattle.holders.specs.Shapes.{given, number_in, if_ok, headed, width_in};
ghost use Rattle.faults.specs.declared.types.Cause.TheVariants.{Values as values_cause};

use crate::checks::plain_fits;
use crate::indices::indices_below;
use crate::page_values::PageValues;
use crate::types::{Column, Dict, Indices, Values};
use faults::types::Cause;
use hybrid_rle::runs::{Runs, check};

fn plain<'a>(column: Column, n: usize, bytes: &'a [u8]) -> Result<PageValues<'a>, Cause>
    requires { n ≤ 1048576 }
    ensures given { given result ≡ judge.or_else values_cause (judge.plain column.form column.optional n bytes.now) }
    ensures count { number_in result ≡ if_ok result n }
{
    if !plain_fits(column.form, column.optional, n, bytes) {
        return Err(Cause::Values);
    }
    Ok(PageValues {
        form: column.form,
        n,
        values: Values::Plain { bytes, at: 0 },
    })
}

// The width of indices and the bytes after it.
fn width<'a>(bytes: &'a [u8]) -> Result<(u8, &'a [u8]), Cause>
    ensures answer { headed result ≡ judge.width_of bytes.now }
    ensures small { width_in result ≤ 32 }
{
    match bytes {
        [w, rest @ ..] if *w <= 32 => Ok((*w, rest)),
        _ => Err(Cause::Values),
    }
}

fn coded<'a>(
    column: Column,
    dict: Dict<'a>,
    n: usize,
    bytes: &'a [u8],
) -> Result<PageValues<'a>, Cause>
    requires { n ≤ 1048576 }
    ensures given { given result ≡ judge.values column.form column.optional (dict_entries dict.entry) n bytes.now }
    ensures count { number_in result ≡ if_ok result n }
{
    let (w, rest) = width(bytes)?;
    check(rest, w, u32::MAX, n).map_err(|_| Cause::Values)?;
    if !indices_below(rest, w, n, dict.entries) {
        return Err(Cause::Index);
    }
    let indices = Indices {
        runs: Runs { w, rest, left: n },
        current: None,
    };
    Ok(PageValues {
        form: column.form,
        n,
        values: Values::Coded { dict, indices },
    })
}

// Faults 9 and 10.
pub(crate) fn checked<'a>(
    column: Column,
    dict: Option<Dict<'a>>,
    n: usize,
    bytes: &'a [u8],
) -> Result<PageValues<'a>, Cause>
    requires { n ≤ 1048576 }
    ensures given { given result ≡ judge.values column.form column.optional (held_entries dict.entry) n bytes.now }
    ensures count { number_in result ≡ if_ok result n }
{
    match dict {
        None => plain(column, n, bytes),
        Some(d) => coded(column, d, n, bytes),
    }
}
