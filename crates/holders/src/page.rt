ghost use Rattle.std.specs.Prelude.{◌≡◌, length};
ghost use Rattle.holders.specs.Judge as judge;
ghost use Rattle.holders.specs.Left.{present_left, held_entries};
ghost use Rattle.holders.specs.Shapes.{shown, if_ok, number_in};

use crate::checks::{encoded, few, flagged};
use crate::page_values::PageValues;
use crate::split::split;
use crate::types::{Column, Dict};
use crate::value_checks::checked;
use faults::types::Cause;
use hybrid_rle::validity::OptionalPageValidity;
use pages::page::DataPage;

// Faults 4 to 10, in order: the rows by presence in `v`, and their values. A function of its own when compiled, so that its walks have
// the registers.
#[inline(never)]
pub(crate) fn checked_page<'a>(
    column: Column,
    dict: Option<Dict<'a>>,
    v: &mut OptionalPageValidity<'a>,
    p: DataPage<'a>,
) -> Result<PageValues<'a>, Cause>
    ensures page { shown (present_left column.optional p.entry.rows v.new) result ≡ judge.page_rows column.form column.optional (held_entries dict.entry) p.entry.rows p.entry.encoding p.entry.optional p.entry.body.now }
    ensures count { number_in result ≡ if_ok result (judge.needed (present_left column.optional p.entry.rows v.new)) }
    ensures rows { if_ok result (length (present_left column.optional p.entry.rows v.new)) ≡ if_ok result p.entry.rows }
{
    few(p.rows)?;
    flagged(column.optional, p.optional)?;
    let used = encoded(column.form, dict, p.encoding)?;
    let (n, bytes) = split(v, column.optional, p.rows as usize, p.body)?;
    checked(column, used, n, bytes)
}
