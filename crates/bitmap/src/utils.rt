ghost use Rattle.std.specs.Prelude.{◌≡◌, ◌+◌, ◌-◌, ◌*◌, ◌/◌, ◌%◌, ◌^◌, ◌<◌, ◌≤◌, [], ◌∷◌, length, if◌then◌else◌, Some, None, bit_or, nat_le};
ghost use Rattle.std.specs.Option.{option_map};
ghost use Rattle.bitmap.specs.Bitmaps.{bits, bit_at, part, capacity};
ghost use Rattle.std.specs.Iterator.{YieldsFirst, item_count};
ghost use Rattle.bitmap.specs.Left.{left};

// Bit i of some bytes. Past the end there are no bits, and the answer is false.
pub fn get_bit(bytes: &[u8], i: usize) -> bool
    ensures { result ≡ bit_at bytes.now i }
{
    i / 8 < bytes.len() && bit_of(bytes, i)
}

// Bit i of some bytes that have it: no test, for loops whose bounds are known.
pub(crate) fn bit_of(bytes: &[u8], i: usize) -> bool
    requires { i < 8 * length bytes.now }
    ensures { result ≡ bit_at bytes.now i }
{
    (bytes[i / 8] >> (i % 8)) & 1 == 1
}

// The lowest j bits of a byte.
fn low_bits(byte: u8, j: usize) -> u8
    requires { j < 8 }
    ensures { result ≡ byte % 2 ^ j }
{
    byte & ((1u8 << j) - 1)
}

// The lowest j bits of a byte, and after them one more. What stood above is cut off, so that the unused bits of the last byte are 0 whatever the memory held before.
pub(crate) fn with_bit(byte: u8, j: usize, value: bool) -> u8
    requires { j < 8 }
    ensures { result ≡ byte % 2 ^ j + (if value then 2 ^ j else 0) }
{
    let low = low_bits(byte, j);
    if value { low | (1u8 << j) } else { low }
}

// The bits of `current` from bit s on, and above them the lowest s bits of `next`.
fn merge_reversed(current: u8, next: u8, s: usize) -> u8
    requires s_nonzero { 0 < s }
    requires s_bound { s < 8 }
    ensures { result ≡ bit_or (current / 2 ^ s) (next * 2 ^ (8 - s) % 256) }
{
    (current >> s) | (next << (8 - s))
}

// The eight bits from bit p on, as a byte: they lie in one byte or across two neighbours.
pub(crate) fn byte_at(bytes: &[u8], p: usize) -> u8
    requires { p + 8 ≤ 8 * length bytes.now }
    ensures { bits 8 (result ∷ []) ≡ part p 8 bytes.now }
{
    let k = p / 8;
    let s = p % 8;
    if s == 0 {
        return bytes[k];
    }
    merge_reversed(bytes[k], bytes[k + 1], s)
}

// Whether n more fit beside the `used` ones. The sum is not formed, since it may pass what a usize can hold.
pub fn has_room(used: usize, n: usize, room: usize) -> bool
    ensures { result ≡ nat_le (used + n) room }
{
    used <= room && n <= room - used
}

// How many bits some bytes have room for, as far as a usize can count them.
pub(crate) fn capacity_of(bytes: &[u8]) -> usize
    ensures { result ≡ capacity (length bytes.now) }
{
    bytes.len().saturating_mul(8)
}

// Some bits of borrowed bytes, one after another. Two numbers and no Range, which is not Copy.
#[derive(Clone, Copy)]
pub struct BitmapIter<'a> {
    bytes: &'a [u8],
    index: usize,
    end: usize,
}

impl<'a> BitmapIter<'a> {
    // n bits from bit `offset` on; None where they do not lie in the bytes.
    pub fn new(bytes: &'a [u8], offset: usize, n: usize) -> Option<BitmapIter<'a>>
        ensures { option_map left result ≡ (if nat_le (offset + n) (capacity (length bytes.now)) then Some (part offset n bytes.now) else None) }
    {
        if !has_room(offset, n, capacity_of(bytes)) {
            return None;
        }
        Some(BitmapIter {
            bytes,
            index: offset,
            end: offset + n,
        })
    }
}

impl<'a> Iterator for BitmapIter<'a> {
    type Item = bool;

    ghost next_gives = { YieldsFirst left };

    ghost remaining = { item_count left };

    fn next(&mut self) -> Option<bool> {
        if self.index >= self.end {
            return None;
        }
        let i = self.index;
        self.index = i + 1;
        Some(get_bit(self.bytes, i))
    }

    fn size_hint(&self) -> (usize, Option<usize>) {
        let n = self.len();
        (n, Some(n))
    }
}

impl<'a> ExactSizeIterator for BitmapIter<'a> {
    #[tactic(auto, using(crate::proofs::Laws::length_part))]
    fn len(&self) -> usize {
        self.end.saturating_sub(self.index)
    }
}
