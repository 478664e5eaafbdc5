// The columns that can be read, each with its decoder and the memory of its chunk.
use bitmap::mutable::MutableBitmap;
use cli::chunks::print_chunks;
use cli::options::Column;
use cli::words::Wanted;
use deserialize::binary::basic::byte_array;
use deserialize::boolean::basic::boolean;
use deserialize::primitive::basic::{double, float, int32, int32_unsigned, int32_widen, int64};
use pages::pages::Pages;
use sinks::binary::Binary;
use sinks::fixed::Fixed;

// The bytes that the rows of a chunk may have together.
const BYTES: usize = 16777216;

// A column of numbers, whose chunk has one element for each row. A generic function in its place does not prove yet: the borrow
// checker's part is not made where the decoder's type has parameters and the source a lifetime.
macro_rules! print_numbers {
    ($rt:expr, $wanted:expr, $source:expr, $validity:expr, $zero:expr, $column:expr) => {{
        let mut memory = vec![in $rt.alloc(); $zero; $wanted.chunk as usize]?;
        let mut sink = Fixed::new(memory.as_mut_slice());
        let mut column = $column;
        print_chunks($rt, $rt.alloc(), $wanted, &mut column, $source, &mut sink, $validity)
    }};
}

// A column of flags, whose chunk has one bit for each row.
fn print_flags<'a, S: Pages<'a>>(
    rt: &HostRuntime,
    wanted: Wanted,
    source: &mut S,
    validity: &mut MutableBitmap<'_>,
) -> anyhow::Result<()> {
    let mut memory = vec![in rt.alloc(); 0u8; wanted.chunk as usize / 8 + 1]?;
    let mut sink = MutableBitmap::new(memory.as_mut_slice());
    let mut column = boolean(wanted.optional);
    print_chunks(
        rt,
        rt.alloc(),
        wanted,
        &mut column,
        source,
        &mut sink,
        validity,
    )
}

// A column of byte values, whose chunk has one offset more than rows, and memory for their bytes.
fn print_bytes<'a, S: Pages<'a>>(
    rt: &HostRuntime,
    wanted: Wanted,
    source: &mut S,
    validity: &mut MutableBitmap<'_>,
) -> anyhow::Result<()> {
    let mut offsets = vec![in rt.alloc(); 0i32; wanted.chunk as usize + 1]?;
    let mut memory = vec![in rt.alloc(); 0u8; BYTES]?;
    let mut sink = Binary::new(offsets.as_mut_slice(), memory.as_mut_slice());
    let mut column = byte_array(wanted.optional);
    print_chunks(
        rt,
        rt.alloc(),
        wanted,
        &mut column,
        source,
        &mut sink,
        validity,
    )
}

// Reads the column that is wanted to its end and prints each answer.
pub fn print_column<'a, S: Pages<'a>>(
    rt: &HostRuntime,
    wanted: Wanted,
    column: Column,
    source: &mut S,
) -> anyhow::Result<()> {
    let optional = wanted.optional;
    let mut flags = vec![in rt.alloc(); 0u8; wanted.chunk as usize / 8 + 1]?;
    let mut validity = MutableBitmap::new(flags.as_mut_slice());
    let valid = &mut validity;
    match column {
        Column::Int32 => print_numbers!(rt, wanted, source, valid, 0i32, int32(optional)),
        Column::Widened => print_numbers!(rt, wanted, source, valid, 0i64, int32_widen(optional)),
        Column::Unsigned => print_numbers!(
            rt,
            wanted,
            source,
            valid,
            0u32,
            int32_unsigned(optional)
        ),
        Column::Int64 => print_numbers!(rt, wanted, source, valid, 0i64, int64(optional)),
        Column::Float => print_numbers!(rt, wanted, source, valid, 0u32, float(optional)),
        Column::Double => print_numbers!(rt, wanted, source, valid, 0u64, double(optional)),
        Column::Boolean => print_flags(rt, wanted, source, valid),
        Column::ByteArray => print_bytes(rt, wanted, source, valid),
    }
}
