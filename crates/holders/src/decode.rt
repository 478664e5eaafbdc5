ghost use Rattle.std.specs.Prelude.{◌≡◌, ℕ, ◌+◌, ◌*◌, ◌^◌, ◌<◌, ◌≤◌, Bool, true, cond, List, [], ◌∷◌, ◌++◌, length, take, drop, replicate, Some};
ghost use Rattle.holders.specs.Judge.{needed};
ghost use Rattle.hybrid_rle.specs.Held.{rows, Inside};
ghost use Rattle.hybrid_rle.specs.Cursor.{to_come};
ghost use Rattle.hybrid_rle.specs.Rows.{flat};
ghost use Rattle.values.specs.Values.{fits};
ghost use Rattle.sinks.specs.Memory.{SameMemory};
ghost use Rattle.holders.specs.Filled.{Able, Fills, filled};

use crate::cursor::Cursor;
use crate::fill::{push_bits, push_same};
use hybrid_rle::piece::Piece;
use hybrid_rle::validity::OptionalPageValidity;
use sinks::pushable::{Pushable, Sink, Validity};

// The rows of a piece into sink and validity.
pub(crate) fn push_piece<'p, C: Cursor, P: Pushable<C::Item>, V: Validity>(
    validity: &mut V,
    sink: &mut P,
    values: &mut C,
    piece: Piece<'p, bool>,
)
    requires inside { Inside (Some piece) }
    requires able { Able (P.Sink.room sink.old) (P.Sink.items sink.old) (rows piece) (C.Cursor.left values.old) }
    requires space { length (V.Validity.bits validity.old) + length (rows piece) ≤ V.Validity.room validity.old }
    ensures fills { Fills (rows piece.entry) (P.Sink.room sink.old) (P.Sink.home sink.old) (P.Sink.items sink.old) (C.Cursor.left values.old) (P.Sink.room sink.new) (P.Sink.home sink.new) (P.Sink.items sink.new) (C.Cursor.left values.new) }
    ensures bits { V.Validity.bits validity.new ≡ V.Validity.bits validity.old ++ rows piece.entry }
    ensures memory { SameMemory V.Validity.room V.Validity.home validity.old validity.new }
{
    match piece {
        Piece::Bitmap {
            bytes,
            offset,
            length,
        } => {
            push_bits(sink, values, bytes, offset, length);
            let _ = validity.extend_from_slice(bytes, offset, length);
        }
        Piece::Repeated { value, length } => {
            push_same(sink, values, value, length);
            let _ = validity.extend_constant(length, value);
        }
    }
}

// The next `limit` rows of the page into sink and validity, the present ones with the next values. A function of its own when compiled,
// so that its loop has the registers.
#[inline(never)]
pub(crate) fn extend_from_decoder<'p, C: Cursor, P: Pushable<C::Item>, V: Validity>(
    validity: &mut V,
    page: &mut OptionalPageValidity<'p>,
    limit: usize,
    sink: &mut P,
    values: &mut C,
)
    requires rows { limit ≤ length (flat (to_come page.old)) }
    requires able { Able (P.Sink.room sink.old) (P.Sink.items sink.old) (take limit (flat (to_come page.old))) (C.Cursor.left values.old) }
    requires space { length (V.Validity.bits validity.old) + limit ≤ V.Validity.room validity.old }
    ensures fills { Fills (take limit (flat (to_come page.old))) (P.Sink.room sink.old) (P.Sink.home sink.old) (P.Sink.items sink.old) (C.Cursor.left values.old) (P.Sink.room sink.new) (P.Sink.home sink.new) (P.Sink.items sink.new) (C.Cursor.left values.new) }
    ensures bits { V.Validity.bits validity.new ≡ V.Validity.bits validity.old ++ take limit (flat (to_come page.old)) }
    ensures memory { SameMemory V.Validity.room V.Validity.home validity.old validity.new }
    ensures page { flat (to_come page.new) ≡ drop limit (flat (to_come page.old)) }
{
    let mut done = 0;
    while done < limit {
        let Some(piece) = page.next_limited(limit - done) else {
            return unreachable();
        };
        done += piece.len();
        push_piece(validity, sink, values, piece);
    }
}
