#![tactic(auto, using(crate::proofs::Rows::weights_numbers))]

ghost use Rattle.std.specs.Prelude.{◌≡◌, ◌+◌, ◌≤◌, [], ◌∷◌, ◌++◌, length, take, replicate, pos, nat_le, refl};
ghost use Rattle.values.specs.Values.{number};
ghost use Rattle.sinks.specs.Fixed.{of_rows, numbers};
ghost use Rattle.sinks.specs.Fits.{numbers_fit};

use crate::pushable::{Full, Pushable, Sink};
use bitmap::utils::has_room;
use values::Element;

// Elements in lent memory, the first `used` of it: the caller lends the memory, so there is no Vec.
#[derive(Drop)]
pub struct Fixed<'a, T> {
    memory: &'a mut [T],
    used: usize,
    ghost within: { used ≤ length memory.now },
}

impl<'a, T: Element> Fixed<'a, T> {
    // An empty sink over lent memory.
    pub fn new(memory: &'a mut [T]) -> Self
        ensures made { result.used ≡ 0 }
        ensures memory { result.memory.now ≡ memory.old }
        ensures same { result.memory.ghost_name ≡ memory.entry.ghost_name }
    {
        Fixed { memory, used: 0 }
    }

    // The elements so far.
    fn elements(&self) -> &[T]
        ensures { result.now ≡ take self.now.used self.now.memory.now }
    {
        &self.memory[..self.used]
    }

    // Whether there is room for n more.
    fn has_space(&self, n: usize) -> bool
        ensures { result ≡ nat_le (self.now.used + n) (length self.now.memory.now) }
    {
        has_room(self.used, n, self.memory.len())
    }

    // Appends x n times, where there is room for that.
    fn fill(&mut self, n: usize, x: T)
        requires { self.old.used + n ≤ length self.old.memory.now }
        ensures items { take self.new.used self.new.memory.now ≡ take self.old.used self.old.memory.now ++ replicate n x }
        ensures room { length self.new.memory.now ≡ length self.old.memory.now }
        ensures home { self.new.memory.ghost_name ≡ self.old.memory.ghost_name }
    {
        let end = self.used + n;
        fill(&mut self.memory[self.used..end], x);
        self.used = end;
    }
}

// The slice's own `fill` clones, and an element is known to be copied only.
fn fill<T: Copy>(places: &mut [T], x: T)
    ensures { places.new ≡ replicate (length places.old) x }
{
    for place in places {
        *place = x;
    }
}

impl<'a, T: Element> Sink for Fixed<'a, T> {
    type Item = T;

    ghost items = { λ s. numbers T.Element.int (take s.used s.memory.now) };

    ghost room = { λ s. of_rows (length s.memory.now) (number (pos 0)) };

    ghost home = { λ s. s.memory.ghost_name ∷ [] };

    ghost light = { λ _. refl };

    ghost fit = { λ s. numbers_fit T.Element.int s.memory.now s.used s.within };

    fn len(&self) -> usize {
        self.used
    }

    fn capacity(&self) -> usize {
        self.memory.len()
    }

    fn spare(&self) -> usize {
        0
    }

    fn clear(&mut self) {
        self.used = 0;
    }

    fn get(&mut self, i: usize) -> Option<T> {
        self.elements().get(i).copied()
    }

    // A null has its place too, and 0 stands there.
    fn push_nulls(&mut self, n: usize) -> Result<(), Full> {
        let zero = T::zero();
        if !self.has_space(n) {
            return Err(Full);
        }
        self.fill(n, zero);
        Ok(())
    }
}

impl<'a, T: Element> Pushable<T> for Fixed<'a, T> {
    fn push(&mut self, v: T) -> Result<(), Full> {
        if !self.has_space(1) {
            return Err(Full);
        }
        self.memory[self.used] = v;
        self.used += 1;
        Ok(())
    }
}
