ghost use Rattle.std.specs.Prelude.{◌≡◌, ◌≤◌, length, if◌then◌else◌, Some, None, nat_lt};
ghost use Rattle.bitmap.specs.Bitmaps.{bit_at, Tidy, capacity};
ghost use Rattle.bitmap.specs.declared.mutable.Refusal.TheVariants.{Full as RefusedFull};

use super::utils::{bit_of, capacity_of};

mod extend;

// Bits appended to lent bytes. It always lies within them, and the bits of the last byte that are not used yet are 0. The count
// stands beside the bytes, and there is no Vec, since the caller lends the memory.
#[derive(Drop)]
pub struct MutableBitmap<'a> {
    buffer: &'a mut [u8],
    used: usize,
    ghost within: { used ≤ capacity (length buffer.now) },
    ghost tidy: { Tidy used buffer.now },
}

// There is no room for what was to be appended.
#[derive(Clone, Copy, Debug, PartialEq, Eq)]
pub struct Full;

// Why bits of a slice were not appended: they do not lie in it, or there is no room for them.
#[derive(Clone, Copy, Debug, PartialEq, Eq)]
pub enum Refusal {
    Outside,
    Full,
}

impl From<Full> for Refusal {
    ghost from_gives = { λ _ r. r ≡ RefusedFull };

    fn from(_full: Full) -> Refusal {
        Refusal::Full
    }
}

impl<'a> MutableBitmap<'a> {
    // No bits yet, over memory that may hold anything.
    pub fn new(buffer: &'a mut [u8]) -> Self
        ensures made { result.used ≡ 0 }
        ensures same { result.buffer ≡ buffer.entry }
    {
        MutableBitmap { buffer, used: 0 }
    }

    pub fn len(&self) -> usize
        ensures { result ≡ self.now.used }
    {
        self.used
    }

    // How many bits the memory has room for, as far as a usize can count them.
    pub fn capacity(&self) -> usize
        ensures { result ≡ capacity (length self.now.buffer.now) }
    {
        capacity_of(self.buffer)
    }

    // Bit i, or None where there are not that many.
    pub fn get(&self, i: usize) -> Option<bool>
        ensures { result ≡ (if nat_lt i self.now.used then Some (bit_at self.now.buffer.now i) else None) }
    {
        // `then` would need a contract on its closure.
        if i < self.used {
            Some(bit_of(self.buffer, i))
        } else {
            None
        }
    }

    // Forgets the bits. The memory is not written: later appends do not depend on what it holds.
    pub fn clear(&mut self)
        ensures count { self.new.used ≡ 0 }
        ensures memory { self.new.buffer ≡ self.old.buffer }
        ensures room { length self.new.buffer.now ≡ length self.old.buffer.now }
        ensures home { self.new.buffer.ghost_name ≡ self.old.buffer.ghost_name }
    {
        self.used = 0;
    }
}
