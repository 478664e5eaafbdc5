// What stands in a sink, as text.
ghost use Rattle.std.specs.Prelude.{◌≡◌, IfOk, Some, string_bytes};
ghost use Rattle.std.specs.Fmt.{signed_decimal};
ghost use Rattle.cli.specs.Layout.{text_at};

use sinks::pushable::Sink;
use std::alloc::{AllocError, Global};
use std::fmt::Display;
use values::Element;

// A sink whose values can be written as text.
pub trait Printed: Sink {
    // Value i, or nothing past the end.
    fn value_text(&mut self, heap: Global, i: usize) -> Result<String, AllocError>
        ensures text { IfOk result (λ s. string_bytes s ≡ text_at (Self.Sink.items self.old) i) }
        ensures same { self.new ≡ self.old };
}

// A number of fixed width that prints in decimal.
pub trait Decimal: Element + Display {
    ghost decimal: { (x : Self) → Self.Display.output x ≡ Some (signed_decimal (Self.Element.int x)) };
}
