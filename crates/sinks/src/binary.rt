#![tactic(auto, using(crate::proofs::Marks::length_all, crate::proofs::Marks::weights_all))]

ghost use Rattle.std.specs.Prelude.{◌≡◌, ◌+◌, ◌<◌, ◌≤◌, ◌&&◌, [], ◌∷◌, ◌++◌, length, take, replicate, pos, MatchOption, IfSome, Some, None, if◌then◌else◌, nat_lt, nat_le, slice_index_or, slice_set, refl};
ghost use Rattle.sinks.specs.Offsets.{mark, row, string, strings, no_bytes, Signed, Rising, row_room, byte_room, of_offsets};
ghost use Rattle.sinks.specs.Fits.{strings_fit};

use crate::offset::{offset_of, reached};
use crate::pushable::{Full, Pushable, Sink};
use bitmap::utils::has_room;
use values::kinds::Place;

// Rows of bytes in lent memory: the first `used` bytes are those of the rows, one row after the other, and the first
// rows + 1 offsets say where each row begins and the last one ends. Without memory for offsets there are no rows.
// The caller lends both, so there is no Vec.
#[derive(Drop)]
pub struct Binary<'a> {
    offsets: &'a mut [i32],
    bytes: &'a mut [u8],
    rows: usize,
    used: usize,
    ghost fewer: { rows ≤ row_room (length offsets.now) },
    ghost within: { used ≤ byte_room (length bytes.now) },
    ghost first: { slice_index_or offsets.now 0 (pos 0) ≡ pos 0 },
    ghost last: { slice_index_or offsets.now rows (pos 0) ≡ pos used },
    ghost signed: { Signed rows offsets.now },
    ghost rising: { Rising rows offsets.now },
}

impl<'a> Binary<'a> {
    // An empty sink over lent memory. The first offset is written at once, since no push writes it.
    pub fn new(offsets: &'a mut [i32], bytes: &'a mut [u8]) -> Self
        ensures rows { result.rows ≡ 0 }
        ensures used { result.used ≡ 0 }
        ensures offsets { result.offsets.now ≡ slice_set offsets.old 0 (pos 0) }
        ensures bytes { result.bytes.now ≡ bytes.old }
        ensures same { (result.offsets.ghost_name ≡ offsets.entry.ghost_name) × (result.bytes.ghost_name ≡ bytes.entry.ghost_name) }
    {
        start(offsets);
        Binary {
            offsets,
            bytes,
            rows: 0,
            used: 0,
        }
    }

    // The bytes of row i, if there is one.
    pub fn get_bytes(&self, i: usize) -> Option<&[u8]>
        ensures { MatchOption result (self.now.rows ≤ i) (λ b. (i < self.now.rows) × (b.now ≡ row self.now.offsets.now self.now.bytes.now i)) }
    {
        let (at, end) = self.bounds(i)?;
        Some(&self.bytes[at..end])
    }

    // Where row i begins and where it ends, if there is one.
    fn bounds(&self, i: usize) -> Option<(usize, usize)>
        ensures row { result ≡ (if nat_lt i self.now.rows then Some (mark self.now.offsets.now i, mark self.now.offsets.now (i + 1)) else None) }
        ensures order { IfSome result (λ r. (r.0 ≤ r.1) × (r.1 ≤ self.now.used)) }
    {
        if i >= self.rows {
            return None;
        }
        Some((self.offsets[i] as usize, self.offsets[i + 1] as usize))
    }

    // Whether there is room for k more rows, of n bytes together.
    fn has_space(&self, k: usize, n: usize) -> bool
        ensures { result ≡ (nat_le (self.now.rows + k) (row_room (length self.now.offsets.now)) && nat_le (self.now.used + n) (byte_room (length self.now.bytes.now))) }
    {
        has_room(self.rows, k, self.capacity()) && has_room(self.used, n, reached(self.bytes.len()))
    }

    // Writes v after the bytes that are used. No row has these bytes yet, so the rows stay as they are.
    fn copy(&mut self, v: &[u8])
        requires { self.old.used + length v.now ≤ byte_room (length self.old.bytes.now) }
        ensures bytes { take (self.old.used + length v.now) self.new.bytes.now ≡ take self.old.used self.old.bytes.now ++ v.now }
        ensures count { (self.new.rows ≡ self.old.rows) × (self.new.used ≡ self.old.used) }
        ensures offsets { self.new.offsets ≡ self.old.offsets }
        ensures room { length self.new.bytes.now ≡ length self.old.bytes.now }
        ensures home { self.new.bytes.ghost_name ≡ self.old.bytes.ghost_name }
    {
        self.bytes[self.used..self.used + v.len()].copy_from_slice(v);
    }

    // Ends a row after n more bytes, which stand there already.
    fn end_row(&mut self, n: usize)
        requires rows { self.old.rows < row_room (length self.old.offsets.now) }
        requires bytes { self.old.used + n ≤ byte_room (length self.old.bytes.now) }
        ensures items { strings self.new.rows self.new.offsets.now self.new.bytes.now ≡ strings self.old.rows self.old.offsets.now self.old.bytes.now ++ (string self.old.bytes.now self.old.used n ∷ []) }
        ensures count { (self.new.rows ≡ self.old.rows + 1) × (self.new.used ≡ self.old.used + n) }
        ensures room { length self.new.offsets.now ≡ length self.old.offsets.now }
        ensures home { self.new.offsets.ghost_name ≡ self.old.offsets.ghost_name }
        ensures bytes { self.new.bytes ≡ self.old.bytes }
    {
        let rows = self.rows + 1;
        let used = self.used + n;
        self.offsets[rows] = offset_of(used);
        self.rows = rows;
        self.used = used;
    }

    // Ends n rows that have no bytes.
    fn end_rows(&mut self, n: usize)
        requires { self.old.rows + n ≤ row_room (length self.old.offsets.now) }
        ensures items { strings self.new.rows self.new.offsets.now self.new.bytes.now ≡ strings self.old.rows self.old.offsets.now self.old.bytes.now ++ replicate n no_bytes }
        ensures room { length self.new.offsets.now ≡ length self.old.offsets.now }
        ensures home { self.new.offsets.ghost_name ≡ self.old.offsets.ghost_name }
        ensures bytes { self.new.bytes ≡ self.old.bytes }
    {
        for _ in 0..n {
            self.end_row(0);
        }
    }
}

// The first offset is 0, where there is memory for one.
fn start(offsets: &mut [i32])
    ensures { offsets.new ≡ slice_set offsets.old 0 (pos 0) }
{
    if let Some(first) = offsets.first_mut() {
        *first = 0;
    }
}

impl<'a> Sink for Binary<'a> {
    type Item = Place;

    ghost items = { λ s. strings s.rows s.offsets.now s.bytes.now };

    ghost room = { λ s. of_offsets (length s.offsets.now) (length s.bytes.now) };

    ghost home = { λ s. s.offsets.ghost_name ∷ (s.bytes.ghost_name ∷ []) };

    ghost light = { λ _. refl };

    ghost fit = { λ s. strings_fit s.offsets.now s.bytes.now s.rows s.used s.fewer s.within s.first s.last s.rising };

    fn len(&self) -> usize {
        self.rows
    }

    fn capacity(&self) -> usize {
        self.offsets.len().saturating_sub(1)
    }

    fn spare(&self) -> usize {
        reached(self.bytes.len()) - self.used
    }

    // The first offset stays: it is 0 whatever the rows are.
    fn clear(&mut self) {
        self.rows = 0;
        self.used = 0;
    }

    fn get(&mut self, i: usize) -> Option<Place> {
        let (at, end) = self.bounds(i)?;
        Some(Place {
            at,
            length: end - at,
        })
    }

    fn push_nulls(&mut self, n: usize) -> Result<(), Full> {
        if !self.has_space(n, 0) {
            return Err(Full);
        }
        self.end_rows(n);
        Ok(())
    }
}

impl<'a, 'b> Pushable<&'b [u8]> for Binary<'a> {
    // The room is looked at before a byte is written, so that a refusal leaves the memory as it was.
    fn push(&mut self, v: &'b [u8]) -> Result<(), Full> {
        if !self.has_space(1, v.len()) {
            return Err(Full);
        }
        self.copy(v);
        self.end_row(v.len());
        Ok(())
    }
}
