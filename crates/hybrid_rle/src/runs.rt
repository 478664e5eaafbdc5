ghost use Rattle.std.specs.Prelude.{◌≡◌, ◌^◌, ◌<◌, ◌≤◌, false, take, Some};
ghost use Rattle.hybrid_rle.specs.Runs.{allowed, count, packed_in, repeated_in, run, run_at, runs, sound_at, step, upto};
ghost use Rattle.hybrid_rle.specs.Borrowed.{as_rows, stretch, meant, stepped, is_step};
ghost use Rattle.hybrid_rle.specs.Held.{run_end};
ghost use Rattle.values.specs.Little.{little};

use crate::header::{Broken, read_header};
use crate::piece::Piece;
use crate::unpack::unpacked;

// A run of numbers, over the bytes that it was read from: packed ones begin at the first bit, where a Piece may begin at any.
// As one type, each run would have to promise its place besides.
#[derive(Clone, Copy)]
pub enum Run<'a> {
    Bitmap { bytes: &'a [u8], length: usize },
    Repeated { value: u32, length: usize },
}

impl<'a> Run<'a> {
    // How many numbers a run has.
    pub fn len(&self) -> usize
        ensures { result ≡ count (stretch self.now) }
    {
        match self {
            Run::Bitmap { length, .. } => *length,
            Run::Repeated { length, .. } => *length,
        }
    }

    // Whether no repeated number is above `top`.
    pub fn is_allowed(&self, top: u32) -> bool
        ensures { result ≡ allowed top (stretch self.now) }
    {
        match self {
            Run::Bitmap { .. } => true,
            Run::Repeated { value, .. } => *value <= top,
        }
    }

    // The rows of a run of one-bit numbers: number 1 is a present row. Beside the conversion to numbers below, since one map over the
    // value would need a contract on its closure.
    pub fn rows(self) -> Piece<'a, bool>
        ensures piece { result ≡ as_rows self.entry }
        ensures near { run_end (Some result) < 2 ^ 64 }
    {
        let length = self.len();
        match self {
            Run::Bitmap { bytes, .. } => Piece::Bitmap {
                bytes,
                offset: 0,
                length,
            },
            Run::Repeated { value, .. } => Piece::Repeated {
                value: value == 1,
                length,
            },
        }
    }

    // The numbers of a run up to the `n`th.
    fn up_to(self, n: usize) -> Self
        ensures { stretch result ≡ upto n (stretch self.entry) }
    {
        let length = self.len().min(n);
        match self {
            Run::Bitmap { bytes, .. } => Run::Bitmap { bytes, length },
            Run::Repeated { value, .. } => Run::Repeated { value, length },
        }
    }
}

impl<'a> From<Run<'a>> for Piece<'a, u32> {
    ghost use Rattle.std.specs.Prelude.{◌≡◌};
    ghost use Rattle.hybrid_rle.specs.Borrowed.{as_numbers};

    ghost from_gives = { λ run piece. piece ≡ as_numbers run };

    fn from(run: Run<'a>) -> Self {
        match run {
            Run::Bitmap { bytes, length } => Piece::Bitmap {
                bytes,
                offset: 0,
                length,
            },
            Run::Repeated { value, length } => Piece::Repeated { value, length },
        }
    }
}

// The number in the first four bytes, the lowest first; bytes that are missing count as 0.
pub fn first_number(bytes: &[u8]) -> u32
    ensures { result ≡ little (take 4 bytes.now) }
{
    unpacked(bytes, 32, 0)
}

// A run of groups of 8 packed numbers of `w` bits, and the bytes after it.
fn packed_run<'a>(groups: usize, w: u8, body: &'a [u8]) -> Result<(Run<'a>, &'a [u8]), Broken>
    requires { groups < 2 ^ 31 }
    ensures { meant result ≡ packed_in groups w body.now }
{
    let (bytes, rest) = body
        .split_at_checked(groups * w as usize)
        .ok_or(Broken::Short)?;
    let length = groups * 8;
    Ok((Run::Bitmap { bytes, length }, rest))
}

// One number of `w` bits in whole bytes, repeated, and the bytes after it.
fn repeated_run<'a>(length: usize, w: u8, body: &'a [u8]) -> Result<(Run<'a>, &'a [u8]), Broken>
    requires { w ≤ 32 }
    ensures { meant result ≡ repeated_in length w body.now }
{
    let (number, rest) = body
        .split_at_checked((w as usize + 7) / 8)
        .ok_or(Broken::Short)?;
    let value = first_number(number);
    Ok((Run::Repeated { value, length }, rest))
}

// The run of numbers of `w` bits at the front of the bytes, and the bytes after it.
fn read_run<'a>(bytes: &'a [u8], w: u8) -> Result<(Run<'a>, &'a [u8]), Broken>
    requires { w ≤ 32 }
    ensures { meant result ≡ run w bytes.now }
{
    let (h, taken) = read_header(bytes)?;
    let body = &bytes[taken..];
    let half = (h / 2) as usize;
    if h % 2 == 1 {
        packed_run(half, w, body)
    } else {
        repeated_run(half, w, body)
    }
}

// The same for every width: one above 32 is refused.
pub fn next_run<'a>(bytes: &'a [u8], w: u8) -> Result<(Run<'a>, &'a [u8]), Broken>
    ensures { meant result ≡ run_at w bytes.now }
{
    if w > 32 {
        return Err(Broken::Wide);
    }
    read_run(bytes, w)
}

// The next `left` numbers of `w` bits of a stream of runs, run by run. No Iterator: its items would be
// Results, and it would have to say what comes after an error, which no walk asks for.
#[derive(Clone, Copy)]
pub struct Runs<'a> {
    pub w: u8,
    pub rest: &'a [u8],
    pub left: usize,
}

impl<'a> Runs<'a> {
    // The next run, up to the last of the numbers; none where no number is left. It is compiled into each walk: a call for each run
    // would cost as much as the run.
    #[inline(always)]
    pub fn next(&mut self) -> Result<Option<Run<'a>>, Broken>
        ensures given { stepped result self.new ≡ step self.old.w self.old.left self.old.rest.now }
        ensures width { self.new.w ≡ self.old.w }
        ensures kept { is_step result ≡ false → self.new ≡ self.old }
    {
        if self.left == 0 {
            return Ok(None);
        }
        let (run, rest) = next_run(self.rest, self.w)?;
        let run = run.up_to(self.left);
        self.left -= run.len();
        self.rest = rest;
        Ok(Some(run))
    }
}

// Whether whole runs give `n` numbers or more, none of the repeated ones above `top`.
pub fn check(bytes: &[u8], w: u8, top: u32, n: usize) -> Result<(), Broken>
    ensures { result ≡ sound_at w (runs w top n bytes.now) }
{
    if w > 32 {
        return Err(Broken::Wide);
    }
    let mut runs = Runs {
        w,
        rest: bytes,
        left: n,
    };
    while let Some(run) = runs.next()? {
        if !run.is_allowed(top) {
            return Err(Broken::Above);
        }
    }
    Ok(())
}
