// Numbers, flags and bytes of a chunk, as text.
ghost use Rattle.std.specs.Prelude.{◌≡◌, ◌<◌, true, ◌++◌, is_ok, IfOk, string_bytes, refl};
ghost use Rattle.cli.specs.Layout.{byte_text, hex, hex_text, quoted_text};

use crate::printed::{Decimal, Printed};
use bitmap::mutable::MutableBitmap;
use sinks::binary::Binary;
use sinks::fixed::Fixed;
use sinks::pushable::Sink;
use std::alloc::{AllocError, Global};

// One impl for each type, since what a type prints is known of that type alone.
impl Decimal for i32 {
    ghost decimal = { λ _. refl };
}

impl Decimal for i64 {
    ghost decimal = { λ _. refl };
}

impl Decimal for u32 {
    ghost decimal = { λ _. refl };
}

impl Decimal for u64 {
    ghost decimal = { λ _. refl };
}

impl<'a, T: Decimal> Printed for Fixed<'a, T> {
    fn value_text(&mut self, heap: Global, i: usize) -> Result<String, AllocError> {
        match self.get(i) {
            None => Ok(String::new(heap)),
            Some(x) => x.to_string(heap),
        }
    }
}

impl<'a> Printed for MutableBitmap<'a> {
    fn value_text(&mut self, heap: Global, i: usize) -> Result<String, AllocError> {
        match <MutableBitmap<'_> as Sink>::get(self, i) {
            None => Ok(String::new(heap)),
            // By its name: the library's printing, a formatter for each flag, took up to a quarter longer.
            Some(true) => String::from_str(heap, "true"),
            Some(false) => String::from_str(heap, "false"),
        }
    }
}

// A hexadecimal digit.
fn hex_digit(n: u8) -> char
    requires { n < 16 }
    ensures digit { result ≡ hex n }
    ensures ascii { result < 128 }
{
    match char::from_digit(u32::from(n), 16) {
        Some(digit) => digit,
        None => unreachable(),
    }
}

// A byte by its two hexadecimal digits, which are pushed one by one: a formatter for each byte takes three times as long.
#[tactic(auto, using(std::proofs::lemmas::List::append_assoc))]
fn put_hex(text: &mut String, b: u8) -> Result<(), AllocError>
    ensures { is_ok result ≡ true → string_bytes text.new ≡ string_bytes text.old ++ hex_text b }
{
    text.push_str("\\x")?;
    text.push(hex_digit(b / 16))?;
    text.push(hex_digit(b % 16))
}

// One byte more: itself where it is printable, else its two hexadecimal digits.
fn put_byte(text: &mut String, b: u8) -> Result<(), AllocError>
    ensures { is_ok result ≡ true → string_bytes text.new ≡ string_bytes text.old ++ byte_text b }
{
    if b < 32 || b > 126 || b == b'"' || b == b'\\' {
        put_hex(text, b)
    } else {
        text.push(b as char)
    }
}

// Bytes between quotes.
fn quoted(heap: Global, bytes: &[u8]) -> Result<String, AllocError>
    ensures { IfOk result (λ s. string_bytes s ≡ quoted_text bytes.now) }
{
    let mut text = String::from_str(heap, "\"")?;
    for b in bytes {
        put_byte(&mut text, *b)?;
    }
    text.push_str("\"")?;
    Ok(text)
}

impl<'a> Printed for Binary<'a> {
    fn value_text(&mut self, heap: Global, i: usize) -> Result<String, AllocError> {
        match self.get_bytes(i) {
            None => Ok(String::new(heap)),
            Some(bytes) => quoted(heap, bytes),
        }
    }
}
