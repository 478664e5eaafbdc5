ghost use Rattle.std.specs.Prelude.{◌≡◌, length};
ghost use Rattle.holders.specs.Judge as judge;
ghost use Rattle.holders.specs.Left.{present_left};
ghost use Rattle.holders.specs.Shapes.{seen, count_in, if_ok};

use crate::arrays::counted;
use crate::present::present_rows;
use faults::types::Cause;
use hybrid_rle::validity::OptionalPageValidity;

// Fault 8: the rows of the page, by presence, in `v`; how many are present; and the bytes of the values.
pub(crate) fn split<'a>(
    v: &mut OptionalPageValidity<'a>,
    optional: bool,
    rows: usize,
    body: &'a [u8],
) -> Result<(usize, &'a [u8]), Cause>
    ensures parts { seen (present_left optional rows v.new) result ≡ judge.split optional rows body.now }
    ensures count { count_in result ≡ if_ok result (judge.needed (present_left optional rows v.new)) }
    ensures rows { if_ok result (length (present_left optional rows v.new)) ≡ if_ok result rows }
{
    if !optional {
        return Ok((rows, body));
    }
    let (levels, values) = counted(body).ok_or(Cause::Validity)?;
    let n = present_rows(levels, rows).map_err(|_| Cause::Validity)?;
    v.hold(levels, rows).map_err(|_| Cause::Validity)?;
    Ok((n, values))
}
