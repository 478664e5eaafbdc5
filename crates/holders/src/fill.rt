ghost use Rattle.std.specs.Prelude.{◌≡◌, ℕ, ◌+◌, ◌*◌, ◌^◌, ◌<◌, ◌≤◌, Bool, true, cond, List, [], ◌∷◌, ◌++◌, length, take, drop, replicate};
ghost use Rattle.hybrid_rle.specs.Rows.{bits};
ghost use Rattle.values.specs.Values.{fits};
ghost use Rattle.holders.specs.Judge.{needed};
ghost use Rattle.sinks.specs.Memory.{SameMemory};
ghost use Rattle.holders.specs.Filled.{Able, Fills};

use crate::cursor::Cursor;
use bitmap::utils::get_bit;
use sinks::pushable::{Pushable, Sink};

// One row into the sink: the next value, or a stand-in. Here and below sink and cursor are two parameters, as sink and validity are: a
// struct of the two borrows would be lent anew at each call.
pub(crate) fn push_row<C: Cursor, P: Pushable<C::Item>>(sink: &mut P, values: &mut C, present: bool)
    requires { Able (P.Sink.room sink.old) (P.Sink.items sink.old) (present ∷ []) (C.Cursor.left values.old) }
    ensures { Fills (present ∷ []) (P.Sink.room sink.old) (P.Sink.home sink.old) (P.Sink.items sink.old) (C.Cursor.left values.old) (P.Sink.room sink.new) (P.Sink.home sink.new) (P.Sink.items sink.new) (C.Cursor.left values.new) }
{
    if present {
        match values.next() {
            Some(v) => {
                let _ = sink.push(v);
            }
            None => unreachable(),
        }
    } else {
        let _ = sink.push_null();
    }
}

// The next `limit` values into the sink, of a page without nulls.
pub(crate) fn extend_required<C: Cursor, P: Pushable<C::Item>>(
    limit: usize,
    sink: &mut P,
    values: &mut C,
)
    requires some { limit ≤ length (C.Cursor.left values.old) }
    requires fits { fits (P.Sink.room sink.old) (P.Sink.items sink.old ++ take limit (C.Cursor.left values.old)) ≡ true }
    ensures items { P.Sink.items sink.new ≡ P.Sink.items sink.old ++ take limit (C.Cursor.left values.old) }
    ensures left { C.Cursor.left values.new ≡ drop limit (C.Cursor.left values.old) }
    ensures memory { SameMemory P.Sink.room P.Sink.home sink.old sink.new }
{
    for _i in 0..limit {
        push_row(sink, values, true);
    }
}

// n rows, present where their bits are set.
pub(crate) fn push_bits<C: Cursor, P: Pushable<C::Item>>(
    sink: &mut P,
    values: &mut C,
    bytes: &[u8],
    offset: usize,
    n: usize,
)
    requires near { offset + n < 2 ^ 64 }
    requires able { Able (P.Sink.room sink.old) (P.Sink.items sink.old) (bits bytes.now offset n) (C.Cursor.left values.old) }
    ensures { Fills (bits bytes.now offset n) (P.Sink.room sink.old) (P.Sink.home sink.old) (P.Sink.items sink.old) (C.Cursor.left values.old) (P.Sink.room sink.new) (P.Sink.home sink.new) (P.Sink.items sink.new) (C.Cursor.left values.new) }
{
    // Bit by bit by number: the bits lie packed, and those past the end count as 0, where BitmapIter would refuse them.
    for i in 0..n {
        let present = get_bit(bytes, offset + i);
        push_row(sink, values, present);
    }
}

// n rows, all present or all null.
pub(crate) fn push_same<C: Cursor, P: Pushable<C::Item>>(
    sink: &mut P,
    values: &mut C,
    present: bool,
    n: usize,
)
    requires { Able (P.Sink.room sink.old) (P.Sink.items sink.old) (replicate n present) (C.Cursor.left values.old) }
    ensures { Fills (replicate n present) (P.Sink.room sink.old) (P.Sink.home sink.old) (P.Sink.items sink.old) (C.Cursor.left values.old) (P.Sink.room sink.new) (P.Sink.home sink.new) (P.Sink.items sink.new) (C.Cursor.left values.new) }
{
    if present {
        extend_required(n, sink, values);
    } else {
        let _ = sink.push_nulls(n);
    }
}
