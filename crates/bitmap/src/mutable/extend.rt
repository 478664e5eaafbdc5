// Appending to a bitmap: a bit, or many bits of a source.
#![tactic(auto, using(crate::proofs::Appending::length_between, crate::proofs::Appending::appends_start))]

ghost use Rattle.std.specs.Prelude.{◌≡◌, ◌+◌, ◌-◌, ◌%◌, ◌<◌, ◌≤◌, [], ◌∷◌, length, replicate, is_ok, OnOk, OnErr, nat_le, nat_lt};
ghost use Rattle.bitmap.specs.Appends.{Appends};
ghost use Rattle.bitmap.specs.Bitmaps.{bits, bits_between, capacity, part};
ghost use Rattle.bitmap.specs.Refusals.{sliced};

use super::{Full, MutableBitmap, Refusal};
use crate::source::{Bits, Constant, Slice};
use crate::utils::{has_room, with_bit};

impl<'a> MutableBitmap<'a> {
    // Appends a bit, or refuses where there is no room for it.
    pub fn push(&mut self, value: bool) -> Result<(), Full>
        ensures answer { is_ok result ≡ nat_lt self.old.used (capacity (length self.old.buffer.now)) }
        ensures appended { OnOk result (Appends self.old self.new (value ∷ [])) }
        ensures kept { OnErr result (self.new ≡ self.old) }
    {
        if self.used >= self.capacity() {
            return Err(Full);
        }
        self.push_unchecked(value);
        Ok(())
    }

    // Appends n equal bits, all of them or none.
    pub fn extend_constant(&mut self, n: usize, value: bool) -> Result<(), Full>
        ensures answer { is_ok result ≡ nat_le (self.old.used + n) (capacity (length self.old.buffer.now)) }
        ensures appended { OnOk result (Appends self.old self.new (replicate n value)) }
        ensures kept { OnErr result (self.new ≡ self.old) }
    {
        self.extend(&Constant { n, value })
    }

    // Appends n bits of `bytes` from bit `offset` on, all of them or none: `Outside` where they do not lie in the bytes, `Full` where there is no room.
    pub fn extend_from_slice(
        &mut self,
        bytes: &[u8],
        offset: usize,
        n: usize,
    ) -> Result<(), Refusal>
        ensures answer { result ≡ sliced (capacity (length bytes.now)) (capacity (length self.old.buffer.now)) self.old.used offset n }
        ensures appended { OnOk result (Appends self.old self.new (part offset n bytes.now)) }
        ensures kept { OnErr result (self.new ≡ self.old) }
    {
        let source = Slice::new(bytes, offset, n).ok_or(Refusal::Outside)?;
        self.extend(&source)?;
        Ok(())
    }

    // Appends all bits of the source, or none: single bits up to the next whole byte, then bytes, then the bits that are left.
    fn extend<S: Bits>(&mut self, source: &S) -> Result<(), Full>
        ensures answer { is_ok result ≡ nat_le (self.old.used + S.count source.now) (capacity (length self.old.buffer.now)) }
        ensures appended { OnOk result (Appends self.old self.new (bits_between (S.at source.now) 0 (S.count source.now))) }
        ensures kept { OnErr result (self.new ≡ self.old) }
    {
        let n = source.len();
        if !has_room(self.used, n, self.capacity()) {
            return Err(Full);
        }
        let gap = (8 - self.used % 8) % 8;
        if n <= gap {
            self.extend_bits(source, 0, n);
            return Ok(());
        }
        let last = n - (n - gap) % 8;
        self.extend_bits(source, 0, gap);
        self.extend_bytes(source, gap, last);
        self.extend_bits(source, last, n);
        Ok(())
    }

    // The bits of the source from `start` up to `end`, one by one, where there is room for them.
    fn extend_bits<S: Bits>(&mut self, source: &S, start: usize, end: usize)
        requires order { start ≤ end }
        requires held { end ≤ S.count source.now }
        requires room { self.old.used + (end - start) ≤ capacity (length self.old.buffer.now) }
        ensures { Appends self.old self.new (bits_between (S.at source.now) start end) }
    {
        // By number, since a source's bits lie packed.
        for i in start..end {
            self.push_unchecked(source.bit(i));
        }
    }

    // The same byte by byte, where they are whole bytes and the bits so far fill whole bytes.
    fn extend_bytes<S: Bits>(&mut self, source: &S, start: usize, end: usize)
        requires order { start ≤ end }
        requires held { end ≤ S.count source.now }
        requires room { self.old.used + (end - start) ≤ capacity (length self.old.buffer.now) }
        requires whole { (end - start) % 8 ≡ 0 }
        requires aligned { start < end → self.old.used % 8 ≡ 0 }
        ensures { Appends self.old self.new (bits_between (S.at source.now) start end) }
    {
        // Tried, and half as fast: `(start..end).step_by(8)`.
        for i in 0..(end - start) / 8 {
            self.push_byte(source.byte(start + 8 * i));
        }
    }

    // One more bit, where there is room for it.
    fn push_unchecked(&mut self, value: bool)
        requires { self.old.used < capacity (length self.old.buffer.now) }
        ensures { Appends self.old self.new (value ∷ []) }
    {
        let at = self.used;
        let k = at / 8;
        self.buffer[k] = with_bit(self.buffer[k], at % 8, value);
        self.used = at + 1;
    }

    // A whole byte, where the bits so far fill whole bytes and there is room for it.
    fn push_byte(&mut self, byte: u8)
        requires aligned { self.old.used % 8 ≡ 0 }
        requires room { self.old.used + 8 ≤ capacity (length self.old.buffer.now) }
        ensures { Appends self.old self.new (bits 8 (byte ∷ [])) }
    {
        let at = self.used;
        self.buffer[at / 8] = byte;
        self.used = at + 8;
    }
}
