#![tactic(auto, using(bitmap::proofs::Laws::length_bits, crate::proofs::Flags::length_flags, crate::proofs::Flags::weights_flags))]

ghost use Rattle.std.specs.Prelude.{false, [], ◌∷◌, length, refl};
ghost use Rattle.bitmap.specs.Bitmaps.{bits, capacity};
ghost use Rattle.values.specs.Values.{flag};
ghost use Rattle.sinks.specs.Fixed.{of_rows, flags};
ghost use Rattle.sinks.specs.Fits.{flags_fit};

use crate::pushable::{Full, Pushable, Sink, Validity};
use bitmap::mutable::{MutableBitmap, Refusal};

impl<'a> Validity for MutableBitmap<'a> {
    ghost bits = { λ s. bits s.used s.buffer.now };

    ghost room = { λ s. capacity (length s.buffer.now) };

    ghost home = { λ s. s.buffer.ghost_name ∷ [] };

    fn len(&self) -> usize {
        MutableBitmap::len(self)
    }

    fn capacity(&self) -> usize {
        MutableBitmap::capacity(self)
    }

    fn clear(&mut self) {
        MutableBitmap::clear(self)
    }

    fn get(&mut self, i: usize) -> bool {
        MutableBitmap::get(self, i).unwrap_or(true)
    }

    fn extend_constant(&mut self, n: usize, value: bool) -> Result<(), Full> {
        MutableBitmap::extend_constant(self, n, value)
    }

    fn extend_from_slice(&mut self, bytes: &[u8], offset: usize, n: usize) -> Result<(), Refusal> {
        MutableBitmap::extend_from_slice(self, bytes, offset, n)
    }
}

// A column of flags is a bitmap too. The stand-in for a null is a bit 0. Both traits have a len, a capacity and a clear,
// so each impl passes them on.
impl<'a> Sink for MutableBitmap<'a> {
    type Item = bool;

    ghost items = { λ s. flags (bits s.used s.buffer.now) };

    ghost room = { λ s. of_rows (capacity (length s.buffer.now)) (flag false) };

    ghost home = { λ s. s.buffer.ghost_name ∷ [] };

    ghost light = { λ _. refl };

    ghost fit = { λ s. flags_fit (capacity (length s.buffer.now)) s.used s.buffer.now s.within };

    fn len(&self) -> usize {
        MutableBitmap::len(self)
    }

    fn capacity(&self) -> usize {
        MutableBitmap::capacity(self)
    }

    fn spare(&self) -> usize {
        0
    }

    fn clear(&mut self) {
        MutableBitmap::clear(self)
    }

    fn get(&mut self, i: usize) -> Option<bool> {
        MutableBitmap::get(self, i)
    }

    fn push_nulls(&mut self, n: usize) -> Result<(), Full> {
        MutableBitmap::extend_constant(self, n, false)
    }
}

impl<'a> Pushable<bool> for MutableBitmap<'a> {
    fn push(&mut self, v: bool) -> Result<(), Full> {
        MutableBitmap::push(self, v)
    }
}
