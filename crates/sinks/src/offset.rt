// Signed 32-bit offsets.
ghost use Rattle.std.specs.Prelude.{◌≡◌, pos};
ghost use Rattle.sinks.specs.Offsets.{byte_room};

// The largest offset.
const LARGEST: usize = i32::MAX as usize;

// How many of n bytes offsets can reach.
pub(crate) fn reached(n: usize) -> usize
    ensures { result ≡ byte_room n }
{
    n.min(LARGEST)
}

// A place in the bytes as an offset; one that no offset can say counts as the largest.
pub(crate) fn offset_of(at: usize) -> i32
    ensures { result ≡ pos (byte_room at) }
{
    reached(at) as i32
}
