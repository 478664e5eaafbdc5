ghost use Rattle.std.specs.Prelude.{◌≡◌, ◌<◌, min, length, take};
ghost use Rattle.hybrid_rle.specs.Runs.{field};
ghost use Rattle.values.specs.Little.{little};

// The number that fewer than five bytes hold, the lowest first.
fn short_number(bytes: &[u8]) -> u64
    requires { length bytes.now < 5 }
    ensures { result ≡ little bytes.now }
{
    let mut value = 0;
    for (at, b) in bytes.iter().enumerate() {
        value += (*b as u64) << (8 * at);
    }
    value
}

// The number in the first five bytes, the lowest first; bytes that are missing count as 0. Five are read at once where they
// are there, since each number of a run is read by this.
fn window(bytes: &[u8]) -> u64
    ensures { result ≡ little (take 5 bytes.now) }
{
    match bytes {
        [a, b, c, d, e, ..] => u64::from_le_bytes([*a, *b, *c, *d, *e, 0, 0, 0]),
        _ => short_number(bytes),
    }
}

// The number in the `w` bits from bit `at` on, as one window of five bytes holds them. Bits past the end count as 0,
// and a width above 32 as 32.
pub fn unpacked(bytes: &[u8], w: u8, at: usize) -> u32
    ensures { result ≡ field (min w 32) bytes.now at }
{
    let w = w.min(32);
    let first = (at / 8).min(bytes.len());
    let value = window(&bytes[first..]);
    ((value >> (at % 8)) & ((1 << w) - 1)) as u32
}
