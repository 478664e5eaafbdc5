ghost use Rattle.std.specs.Prelude.{◌≡◌, min, Ok};
ghost use Rattle.hybrid_rle.specs.Header.{within_limit, header, number};

use std::error::Error;
use std::fmt;

// Why there is no number or no run: the bytes end inside the number, it goes on after its last byte allowed, it is above
// its limit, the bytes end inside the run, a repeated number is too large, or the width is above 32 bits.
#[derive(Clone, Copy, Debug, PartialEq, Eq)]
pub enum Broken {
    Ended,
    Long,
    Large,
    Short,
    Above,
    Wide,
}

impl fmt::Display for Broken {
    ghost use Rattle.std.specs.Prelude.{Some};
    ghost use Rattle.hybrid_rle.specs.Messages.{message};

    ghost output = { λ e. Some (message e) };

    fn fmt<W: fmt::Write>(&self, f: &mut fmt::Formatter<W>) -> fmt::Result {
        f.write_str(match self {
            Broken::Ended => "the bytes end inside a number",
            Broken::Long => "a number has too many bytes",
            Broken::Large => "a number is above its limit",
            Broken::Short => "the bytes end inside a run",
            Broken::Above => "a repeated number is too large",
            Broken::Wide => "a width is above 32 bits",
        })
    }
}

impl Error for Broken {}

// A number and the bytes it took, if it is at most the limit.
fn limited(value: u128, taken: usize, limit: u64) -> Result<(u64, usize), Broken>
    ensures { result ≡ within_limit limit (Ok (value, taken)) }
{
    if value > limit as u128 {
        return Err(Broken::Large);
    }
    Ok((value as u64, taken))
}

// The base-128 number at the front of the bytes, and how many bytes it takes: at most `most` bytes, and never more than the ten
// that 64 bits can need, and a number of at most `limit`.
pub fn read_number(bytes: &[u8], most: usize, limit: u64) -> Result<(u64, usize), Broken>
    ensures { result ≡ within_limit limit (number (min most 10) bytes.now) }
{
    let most = most.min(10);
    let mut value: u128 = 0;
    let front = &bytes[..most.min(bytes.len())];
    for (at, b) in front.iter().enumerate() {
        value += ((*b & 127) as u128) << (7 * at);
        if *b < 128 {
            return limited(value, at + 1, limit);
        }
    }
    Err(if bytes.len() < most {
        Broken::Ended
    } else {
        Broken::Long
    })
}

// The header of a run at the front of the bytes, and how many bytes it takes.
pub fn read_header(bytes: &[u8]) -> Result<(u32, usize), Broken>
    ensures { result ≡ header bytes.now }
{
    let (value, taken) = read_number(bytes, 5, 4294967295)?;
    Ok((value as u32, taken))
}
