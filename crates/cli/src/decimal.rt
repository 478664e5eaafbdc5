ghost use Rattle.std.specs.Prelude.{◌≡◌};
ghost use Rattle.cli.specs.Words.{decimal, figure};

// The next number, where c is a digit and the number stays below 2^32.
fn with_digit(n: u32, c: u8) -> Option<u32>
    ensures { result ≡ figure n c }
{
    if !c.is_ascii_digit() {
        return None;
    }
    n.checked_mul(10)?.checked_add(u32::from(c - b'0'))
}

// The number that a text of decimal digits writes, if it is below 2^32. The library's parse takes a plus sign too.
pub fn decimal_of(text: &str) -> Option<u32>
    ensures { result ≡ decimal text.now }
{
    if text.is_empty() {
        return None;
    }
    let mut n = 0;
    for c in text.as_bytes() {
        n = with_digit(n, *c)?;
    }
    Some(n)
}
