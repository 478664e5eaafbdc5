ghost use Rattle.std.specs.Prelude.{◌≡◌, ℕ, ◌+◌, ◌*◌, ◌^◌, ◌<◌, ◌≤◌, true, length, take, Some, nat_le};
ghost use Rattle.hybrid_rle.specs.Held.{rows, Inside};
ghost use Rattle.hybrid_rle.specs.Cursor.{to_come};
ghost use Rattle.hybrid_rle.specs.Rows.{flat, bits};
ghost use Rattle.values.specs.Values.{weights};
ghost use Rattle.holders.specs.Judge.{needed};

use crate::cursor::Cursor;
use crate::present::present_in;
use hybrid_rle::validity::OptionalPageValidity;
use values::Valued;

// Whether the next n values take no more than `most` bytes. It stops at the first that does not fit, so that no sum can overflow.
pub(crate) fn weigh_within<C: Cursor>(values: &mut C, n: usize, most: usize) -> bool
    requires { n ≤ length (C.Cursor.left values.old) }
    ensures { result ≡ nat_le (weights (take n (C.Cursor.left values.old))) most }
{
    let mut spare = most;
    for _i in 0..n {
        let Some(v) = values.next() else {
            return unreachable();
        };
        let k = v.weigh();
        if k > spare {
            return false;
        }
        spare -= k;
    }
    true
}

// How many of the next `limit` rows are present. The loop is that of `extend_from_decoder` with another step: shared, its step would
// be a closure that has the loop's invariant for a contract, which is no plainer.
pub(crate) fn count_present<'p>(page: &mut OptionalPageValidity<'p>, limit: usize) -> usize
    requires { limit ≤ length (flat (to_come page.old)) }
    ensures { result ≡ needed (take limit (flat (to_come page.old))) }
{
    let mut done = 0;
    let mut count = 0;
    while done < limit {
        let Some(piece) = page.next_limited(limit - done) else {
            return unreachable();
        };
        done += piece.len();
        count += present_in(piece);
    }
    count
}
