ghost use Rattle.std.specs.Prelude.{◌≡◌, ℕ, ◌+◌, Bool, true, false, List, [], ◌∷◌, ◌++◌, length, replicate, is_ok, if◌then◌else◌, nat_le};
ghost use Rattle.std.specs.Option.{option_map};
ghost use Rattle.bitmap.specs.Bitmaps.{part, capacity};
ghost use Rattle.bitmap.specs.Refusals.{sliced};
ghost use Rattle.sinks.specs.Memory.{SameMemory};
ghost use Rattle.sinks.specs.Pushes.{Pushes};
ghost use Rattle.values.specs.Values.{Value, Room, fits, joined, seen_at, bit_at, weight, weights};

pub use bitmap::mutable::Full;
use bitmap::mutable::Refusal;
use values::{Meant, Valued};

// A sink means a list of values, and has room for some rows and some bytes. It refuses exactly when its list would
// outgrow its room, and then nothing is changed, to the last byte of its memory.
pub trait Sink {
    type Item: Meant + Copy;

    ghost items: { Self → List Value };

    ghost room: { Self → Room };

    // the names of the lent memory, so that its owner knows it again
    ghost home: { Self → List ℕ };

    // a stand-in takes no bytes, and what a sink holds fits
    ghost light: { (s : Self) → weight (room s).blank ≡ 0 };

    ghost fit: { (s : Self) → fits (room s) (items s) ≡ true };

    // The rows that it holds.
    fn len(&self) -> usize
        ensures { result ≡ length (items self.now) };

    // The rows that it has room for.
    fn capacity(&self) -> usize
        ensures { result ≡ (room self.now).rows };

    // The bytes that there still is room for.
    fn spare(&self) -> usize
        ensures { weights (items self.now) + result ≡ (room self.now).bytes };

    // Empties it.
    fn clear(&mut self)
        ensures items { items self.new ≡ [] }
        ensures memory { SameMemory room home self.old self.new };

    // Row i, if there is one.
    fn get(&mut self, i: usize) -> Option<Self::Item>
        ensures answer { option_map Self.Item.Meant.meant result ≡ seen_at 0 (items self.old) i }
        ensures same { self.new ≡ self.old };

    // One stand-in for a null.
    fn push_null(&mut self) -> Result<(), Full>
        ensures { Pushes items room home self.old self.new ((room self.old).blank ∷ []) result }
    {
        self.push_nulls(1)
    }

    // n stand-ins, all or none.
    fn push_nulls(&mut self, n: usize) -> Result<(), Full>
        ensures { Pushes items room home self.old self.new (replicate n (room self.old).blank) result };
}

// A sink that a T can be pushed into.
pub trait Pushable<T: Valued>: Sink {
    fn push(&mut self, v: T) -> Result<(), Full>
        ensures { Pushes Self.Sink.items Self.Sink.room Self.Sink.home self.old self.new (T.Valued.value v ∷ []) result };
}

// A validity means a list of bits, 1 for a present row, and has room for some.
pub trait Validity {
    ghost bits: { Self → List Bool };

    ghost room: { Self → ℕ };

    ghost home: { Self → List ℕ };

    fn len(&self) -> usize
        ensures { result ≡ length (bits self.now) };

    fn capacity(&self) -> usize
        ensures { result ≡ room self.now };

    fn clear(&mut self)
        ensures bits { bits self.new ≡ [] }
        ensures memory { SameMemory room home self.old self.new };

    // Bit i; at or past the end it is 1.
    fn get(&mut self, i: usize) -> bool
        ensures answer { result ≡ bit_at (bits self.old) i }
        ensures same { self.new ≡ self.old };

    // n equal bits, all or none.
    fn extend_constant(&mut self, n: usize, value: bool) -> Result<(), Full>
        ensures answer { is_ok result ≡ nat_le (length (bits self.old) + n) (room self.old) }
        ensures bits { bits self.new ≡ (if is_ok result then bits self.old ++ replicate n value else bits self.old) }
        ensures memory { SameMemory room home self.old self.new }
        ensures kept { is_ok result ≡ false → self.new ≡ self.old };

    // n bits of some bytes from bit `offset` on, all or none.
    fn extend_from_slice(&mut self, bytes: &[u8], offset: usize, n: usize) -> Result<(), Refusal>
        ensures answer { result ≡ sliced (capacity (length bytes.now)) (room self.old) (length (bits self.old)) offset n }
        ensures bits { bits self.new ≡ (if is_ok result then bits self.old ++ part offset n bytes.now else bits self.old) }
        ensures memory { SameMemory room home self.old self.new }
        ensures kept { is_ok result ≡ false → self.new ≡ self.old };
}
