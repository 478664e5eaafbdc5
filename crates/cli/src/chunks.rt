// A column read to its end, with a line for each answer.
ghost use Rattle.std.specs.Prelude.{◌≡◌};
ghost use Rattle.sinks.specs.Memory.{SameMemory};

use crate::layout::rows_text;
use crate::printed::Printed;
use crate::words::Wanted;
use deserialize::utils::Decoder;
use faults::types::Layer;
use pages::pages::Pages;
use read::next::next;
use read::open::open;
use read::states::{Filling, MaybeNext};
use read::take::take;
use sinks::pushable::{Sink, Validity};
use std::alloc::Global;

// Makes one call and prints its answer: the read to go on with, or none at the end or where the chunk itself was refused, since
// the same call would answer the same again.
fn step<'a, R: Print, P: Printed, V: Validity, H: Decoder<'a, P, V>, S: Pages<'a>>(
    rt: &R,
    heap: Global,
    read: Filling,
    column: &mut H,
    source: &mut S,
    sink: &mut P,
    validity: &mut V,
    chunk: &mut u64,
) -> anyhow::Result<Option<Filling>>
    ensures sink { SameMemory P.Sink.room P.Sink.home sink.old sink.new }
    ensures validity { SameMemory V.Validity.room V.Validity.home validity.old validity.new }
    ensures column { H.Decoder.column column.new ≡ H.Decoder.column column.old }
{
    match next(read, column, source, sink, validity) {
        MaybeNext::More(filling) => {
            println!(rt; "More")?;
            Ok(Some(filling))
        }
        MaybeNext::Chunk(ready) => {
            *chunk = chunk.saturating_add(1);
            let text = rows_text(heap, sink, validity)?;
            println!(rt; "Chunk {}: {text}", *chunk)?;
            Ok(Some(take(ready, sink, validity)))
        }
        MaybeNext::End(_) => {
            println!(rt; "End")?;
            Ok(None)
        }
        MaybeNext::Refused(filling, fault) => {
            println!(rt; "{fault}")?;
            Ok((Layer::from(fault.cause) != Layer::Chunk).then_some(filling))
        }
    }
}

// Reads a source to its end and prints each answer. What is lent stays in its place, whatever is read into it.
pub fn print_chunks<'a, R: Print, P: Printed, V: Validity, H: Decoder<'a, P, V>, S: Pages<'a>>(
    rt: &R,
    heap: Global,
    wanted: Wanted,
    column: &mut H,
    source: &mut S,
    sink: &mut P,
    validity: &mut V,
) -> anyhow::Result<()>
    ensures sink { SameMemory P.Sink.room P.Sink.home sink.old sink.new }
    ensures validity { SameMemory V.Validity.room V.Validity.home validity.old validity.new }
    ensures column { H.Decoder.column column.new ≡ H.Decoder.column column.old }
{
    let mut read = match open(wanted.chunk, wanted.limit) {
        Ok(read) => read,
        Err(fault) => return Ok(println!(rt; "{fault}")?),
    };
    let mut chunk = 0;
    // The read ends by its answers; the count is there because a loop must be known to end.
    for _ in 0..u64::MAX {
        match step(rt, heap, read, column, source, sink, validity, &mut chunk)? {
            Some(filling) => read = filling,
            None => break,
        }
    }
    Ok(())
}
