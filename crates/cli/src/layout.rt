// A chunk as text: its rows between brackets.
ghost use Rattle.std.specs.Prelude.{◌≡◌, ◌<◌, true, ◌++◌, length, is_ok, IfOk, string_bytes};
ghost use Rattle.values.specs.Values.{rows_in};
ghost use Rattle.cli.specs.Layout.{gap, row_at_text, text_of_rows};

use crate::printed::Printed;
use sinks::pushable::{Sink, Validity};
use std::alloc::{AllocError, Global};

// Row i: null where its validity bit is 0, else its value.
fn row_text<P: Printed, V: Validity>(
    heap: Global,
    sink: &mut P,
    validity: &mut V,
    i: usize,
) -> Result<String, AllocError>
    requires { i < length (P.Sink.items sink.old) }
    ensures text { IfOk result (λ s. string_bytes s ≡ row_at_text (rows_in (P.Sink.items sink.old) (V.Validity.bits validity.old)) i) }
    ensures sink { sink.new ≡ sink.old }
    ensures validity { validity.new ≡ validity.old }
{
    if validity.get(i) {
        sink.value_text(heap, i)
    } else {
        String::from_str(heap, "null")
    }
}

// One row more, after a comma and a space unless it is the first.
fn put_row(text: &mut String, first: bool, row: &str) -> Result<(), AllocError>
    ensures { is_ok result ≡ true → string_bytes text.new ≡ string_bytes text.old ++ (gap first ++ row.now) }
{
    text.push_str(if first { "" } else { ", " })?;
    text.push_str(row)
}

// The rows of a chunk between brackets.
pub fn rows_text<P: Printed, V: Validity>(
    heap: Global,
    sink: &mut P,
    validity: &mut V,
) -> Result<String, AllocError>
    ensures text { IfOk result (λ s. string_bytes s ≡ text_of_rows (rows_in (P.Sink.items sink.old) (V.Validity.bits validity.old))) }
    ensures sink { sink.new ≡ sink.old }
    ensures validity { validity.new ≡ validity.old }
{
    let mut text = String::from_str(heap, "[")?;
    let rows = sink.len();
    // By number, since a sink gives its rows by number.
    for i in 0..rows {
        let row = row_text(heap, sink, validity, i)?;
        put_row(&mut text, i == 0, row.as_str())?;
    }
    text.push_str("]")?;
    Ok(text)
}
