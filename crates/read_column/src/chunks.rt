use bitmap::mutable::MutableBitmap;
use cli::chunks::print_chunks;
use cli::words::Wanted;
use deserialize::primitive::basic::int32;
use pages::stream::Stream;
use sinks::fixed::Fixed;

// Reads the page stream to its end and prints each answer. One case of what read_columns does for each kind, whose macro cannot be
// shared with another program.
pub fn print_pages(rt: &HostRuntime, wanted: Wanted, bytes: &[u8]) -> anyhow::Result<()> {
    let rows = wanted.chunk as usize;
    let mut memory = vec![in rt.alloc(); 0i32; rows]?;
    let mut flags = vec![in rt.alloc(); 0u8; rows / 8 + 1]?;
    let mut sink = Fixed::new(memory.as_mut_slice());
    let mut validity = MutableBitmap::new(flags.as_mut_slice());
    let mut column = int32(wanted.optional);
    print_chunks(
        rt,
        rt.alloc(),
        wanted,
        &mut column,
        &mut Stream::new(bytes),
        &mut sink,
        &mut validity,
    )
}
