use bitmap::mutable::MutableBitmap;
use deserialize::primitive::basic::int32;
use pages::stream::Stream;
use read::next::next;
use read::open::open;
use read::states::{Filling, MaybeNext};
use read::take::take;
use sinks::fixed::Fixed;
use sinks::pushable::{Pushable, Sink, Validity};
use std::alloc::{AllocError, Global};
use std::test::Fail;

// 21 optional rows of INT32: validity in a bitmap run of 8 rows, an empty repeated run, a repeated run of 5 present rows, and a
// bitmap run of 8; 15 values, 1 to 15.
const OPTIONAL: &[u8; 83] =
    b"\x50\x15\0\0\0\0\x01\x48\0\0\0\x08\0\0\0\x03\xB5\0\x01\x0A\x01\x03\x6D\x01\0\0\0\x02\0\0\0\x03\0\0\0\x04\0\0\0\x05\0\0\0\x06\0\0\0\x07\0\0\0\x08\0\0\0\x09\0\0\0\x0A\0\0\0\x0B\0\0\0\x0C\0\0\0\x0D\0\0\0\x0E\0\0\0\x0F\0\0\0";

// The rows of that page.
const ROWS: [Option<i32>; 21] = [
    Some(1),
    None,
    Some(2),
    None,
    Some(3),
    Some(4),
    None,
    Some(5),
    Some(6),
    Some(7),
    Some(8),
    Some(9),
    Some(10),
    Some(11),
    None,
    Some(12),
    Some(13),
    None,
    Some(14),
    Some(15),
    None,
];

// Three required rows of INT32: 7, -1 and 2147483647.
const REQUIRED: &[u8; 23] =
    b"\x50\x03\0\0\0\0\0\x0C\0\0\0\x07\0\0\0\xFF\xFF\xFF\xFF\xFF\xFF\xFF\x7F";

// What was read: the rows, one after the other, the chunks, and the faults.
#[derive(Drop)]
struct Seen {
    rows: Vec<Option<i32>>,
    chunks: u64,
    faults: u64,
}

// Appends a chunk's rows to those seen.
fn look(
    sink: &mut Fixed<'_, i32>,
    validity: &mut MutableBitmap<'_>,
    seen: &mut Seen,
) -> Result<(), AllocError> {
    // By number, since a sink gives its rows by number.
    for i in 0..sink.len() {
        let valid = <MutableBitmap<'_> as Validity>::get(validity, i);
        seen.rows.push(if valid { sink.get(i) } else { None })?;
    }
    seen.chunks = seen.chunks.saturating_add(1);
    Ok(())
}

// Reads a page stream of INT32 to its end.
fn read_all(
    heap: Global,
    bytes: &[u8],
    optional: bool,
    chunk: u32,
    limit: u32,
) -> Result<Seen, AllocError> {
    let mut seen = Seen {
        rows: Vec::new(heap),
        chunks: 0,
        faults: 0,
    };
    let mut memory = vec![in heap; -1i32; chunk as usize]?;
    let mut flags = vec![in heap; 0xFFu8; chunk as usize / 8 + 1]?;
    let mut sink = Fixed::new(memory.as_mut_slice());
    let mut validity = MutableBitmap::new(flags.as_mut_slice());
    let mut source = Stream::new(bytes);
    let mut column = int32(optional);
    let Ok(mut read) = open(chunk, limit) else {
        return Ok(seen);
    };
    // The read ends by its answers; the count is there because a loop must be known to end.
    for _ in 0..1000 {
        match next(read, &mut column, &mut source, &mut sink, &mut validity) {
            MaybeNext::More(filling) => read = filling,
            MaybeNext::Chunk(ready) => {
                look(&mut sink, &mut validity, &mut seen)?;
                read = take(ready, &mut sink, &mut validity);
            }
            MaybeNext::End(_) => break,
            MaybeNext::Refused(filling, _) => {
                seen.faults = seen.faults.saturating_add(1);
                read = filling;
            }
        }
    }
    Ok(seen)
}

// Every chunk but the last is full, and the rows are those of the page.
#[test]
fn every_chunk_size(rt: HostRuntime) -> Result<(), Fail> {
    for chunk in 1..=22u32 {
        let seen = read_all(rt.alloc(), OPTIONAL, true, chunk, 1000)?;
        assert_eq!(rt; seen.faults, 0);
        assert_eq!(rt; seen.chunks, (21 + chunk as u64 - 1) / chunk as u64);
        assert_eq!(rt; seen.rows.as_slice(), ROWS.as_slice());
    }
    Ok(())
}

#[test]
fn every_limit(rt: HostRuntime) -> Result<(), Fail> {
    for limit in 0..=22u32 {
        let seen = read_all(rt.alloc(), OPTIONAL, true, 4, limit)?;
        let n = limit.min(21) as usize;
        assert_eq!(rt; seen.rows.as_slice(), &ROWS[0..n]);
    }
    Ok(())
}

#[test]
fn required_rows(rt: HostRuntime) -> Result<(), Fail> {
    for chunk in 1..=4u32 {
        let seen = read_all(rt.alloc(), REQUIRED, false, chunk, 1000)?;
        assert_eq!(rt;
            seen.rows.as_slice(),
            [Some(7), Some(-1), Some(2147483647)].as_slice()
        );
    }
    Ok(())
}

// A page of the other flag, and one that lacks a value, are faults that leave no row behind.
#[test]
fn faulty_pages(rt: HostRuntime) -> Result<(), Fail> {
    let seen = read_all(rt.alloc(), OPTIONAL, false, 4, 1000)?;
    assert_eq!(rt; seen.faults, 1);
    assert_eq!(rt; seen.rows.len(), 0);
    let whole: &[u8] = REQUIRED;
    let cut = read_all(rt.alloc(), &whole[0..22], false, 4, 1000)?;
    assert_eq!(rt; cut.faults, 1);
    assert_eq!(rt; cut.rows.len(), 0);
    Ok(())
}
