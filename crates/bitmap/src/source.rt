// Where the bits come from that a bitmap appends.
ghost use Rattle.std.specs.Prelude.{◌≡◌, ℕ, ◌+◌, ◌<◌, ◌≤◌, Bool, [], ◌∷◌, length, is_some, IfSome, nat_le};
ghost use Rattle.bitmap.specs.Bitmaps.{bits, bit_at, bits_between, capacity};

use crate::utils::{bit_of, byte_at, capacity_of, has_room};

// Some bits: each of them, and eight at once.
pub(crate) trait Bits {
    ghost count: { Self → ℕ };

    ghost at: { Self → ℕ → Bool };

    fn len(&self) -> usize
        ensures { result ≡ count self.now };

    // Bit i.
    fn bit(&self, i: usize) -> bool
        requires { i < count self.now }
        ensures { result ≡ at self.now i };

    // The eight bits from bit i on.
    fn byte(&self, i: usize) -> u8
        requires { i + 8 ≤ count self.now }
        ensures { bits 8 (result ∷ []) ≡ bits_between (at self.now) i (i + 8) };
}

// n equal bits.
#[derive(Clone, Copy)]
pub(crate) struct Constant {
    pub(crate) n: usize,
    pub(crate) value: bool,
}

impl Bits for Constant {
    ghost count = { λ s. s.n };

    ghost at = { λ s _. s.value };

    fn len(&self) -> usize {
        self.n
    }

    fn bit(&self, _i: usize) -> bool {
        self.value
    }

    fn byte(&self, _i: usize) -> u8 {
        if self.value { u8::MAX } else { 0 }
    }
}

// n bits of some bytes, from bit `offset` on. BitmapIter has no such place to be asked for eight bits at once.
#[derive(Clone, Copy)]
pub(crate) struct Slice<'a> {
    bytes: &'a [u8],
    offset: usize,
    n: usize,
    ghost within: { offset + n ≤ capacity (length bytes.now) },
}

impl<'a> Slice<'a> {
    // None where the bits do not lie in the bytes.
    pub(crate) fn new(bytes: &'a [u8], offset: usize, n: usize) -> Option<Slice<'a>>
        ensures answer { is_some result ≡ nat_le (offset + n) (capacity (length bytes.now)) }
        ensures made { IfSome result (λ s. (s.bytes.now ≡ bytes.now) × (s.offset ≡ offset) × (s.n ≡ n)) }
    {
        if !has_room(offset, n, capacity_of(bytes)) {
            return None;
        }
        Some(Slice { bytes, offset, n })
    }
}

impl<'a> Bits for Slice<'a> {
    ghost count = { λ s. s.n };

    ghost at = { λ s i. bit_at s.bytes.now (s.offset + i) };

    fn len(&self) -> usize {
        self.n
    }

    fn bit(&self, i: usize) -> bool {
        bit_of(self.bytes, self.offset + i)
    }

    fn byte(&self, i: usize) -> u8 {
        byte_at(self.bytes, self.offset + i)
    }
}
