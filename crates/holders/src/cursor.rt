ghost use Rattle.std.specs.Prelude.{◌≡◌, ℕ, true, List, [], map, ℤ};
ghost use Rattle.std.specs.Option.{option_map};
ghost use Rattle.pages.specs.Delivered.{first, others};
ghost use Rattle.values.specs.Values.{Value, number, weight};
ghost use Rattle.holders.specs.Cursors.{to_give};

use crate::page_values::PageValues;
use std::marker::PhantomData;
use values::{Element, Valued};

// Values that come one after the other. A trait of its own, no Iterator: what it has left is a list of values, which code over any
// cursor takes from and drops from.
pub trait Cursor {
    type Item: Valued;

    ghost left: { Self → List Value };

    fn next(&mut self) -> Option<Self::Item>
        ensures given { option_map Self.Item.Valued.value result ≡ first (left self.old) }
        ensures after { left self.new ≡ others (left self.old) };
}

// A cursor that can be put over the values of a page, each of them converted.
pub trait OverPage<'a>: Cursor {
    ghost value: { List ℕ → Value };

    fn load(&mut self, values: PageValues<'a>)
        ensures { Self.Cursor.left self.new ≡ map value (to_give values.entry) };

    fn rest(&self) -> PageValues<'a>
        ensures { map value (to_give result) ≡ Self.Cursor.left self.now };

    // Whether no value takes any of a chunk's memory for bytes.
    fn light(&self) -> bool
        ensures { result ≡ true → (bs : List ℕ) → weight (value bs) ≡ 0 };
}

// What becomes of a number's bytes: an interface of one function.
pub trait Conversion<T: Element> {
    ghost int: { List ℕ → ℤ };

    fn convert(&self, bytes: &[u8]) -> T
        ensures { T.Element.int result ≡ int bytes.now };
}

// The values of a page, converted to numbers. Flags and byte values have cursors of their own: a flag is no number, and byte values
// borrow and take a chunk's memory for bytes, which a conversion of one function could not say.
#[derive(Drop)]
pub struct Converted<'a, T, K> {
    values: PageValues<'a>,
    op: K,
    item: PhantomData<T>,
}

impl<'a, T: Element, K: Conversion<T>> Converted<'a, T, K> {
    // Over no page.
    pub fn new(op: K) -> Self
        ensures { to_give result.values ≡ [] }
    {
        Converted {
            values: PageValues::empty(),
            op,
            item: PhantomData,
        }
    }
}

impl<'a, T: Element, K: Conversion<T>> Cursor for Converted<'a, T, K> {
    type Item = T;

    ghost left = { λ s. map (λ bs. number (K.Conversion.int bs)) (to_give s.values) };

    fn next(&mut self) -> Option<T> {
        let bytes = self.values.next()?;
        Some(self.op.convert(bytes))
    }
}

impl<'a, T: Element, K: Conversion<T>> OverPage<'a> for Converted<'a, T, K> {
    ghost value = { λ bs. number (K.Conversion.int bs) };

    fn load(&mut self, values: PageValues<'a>) {
        self.values = values;
    }

    fn rest(&self) -> PageValues<'a> {
        self.values
    }

    fn light(&self) -> bool {
        true
    }
}
