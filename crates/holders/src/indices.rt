ghost use Rattle.std.specs.Prelude.{◌≡◌, ◌-◌, ◌*◌, ◌^◌, ◌<◌, ◌≤◌, true};
ghost use Rattle.hybrid_rle.specs.Runs.{fields, runs, numbers, count, all_below, allowed};
ghost use Rattle.hybrid_rle.specs.Borrowed.{stretch};
ghost use Rattle.holders.specs.Counts.{below};

use hybrid_rle::runs::{Run, Runs};
use hybrid_rle::unpack::unpacked;

// Whether the first `n` numbers of `w` bits are all below `entries`.
fn packed_below(bytes: &[u8], w: u8, n: usize, entries: u32) -> bool
    requires { (w ≤ 32) × (n * w < 2 ^ 63) }
    ensures { result ≡ all_below entries (fields w n bytes.now 0) }
{
    // By number: the numbers lie packed, and there is no slice of them to go over.
    for i in 0..n {
        if unpacked(bytes, w, i * w as usize) >= entries {
            return false;
        }
    }
    true
}

// Whether the numbers of a run are below the entries.
fn run_below(run: Run<'_>, w: u8, entries: u32) -> bool
    requires { (w ≤ 32) × (count (stretch run) ≤ 1048576) }
    ensures below { result ≡ all_below entries (numbers w (stretch run.entry)) }
    ensures small { allowed (2 ^ 32 - 1) (stretch run.entry) ≡ true }
{
    match run {
        Run::Bitmap { bytes, length } => packed_below(bytes, w, length, entries),
        Run::Repeated { value, length } => length == 0 || value < entries,
    }
}

// Whether the first n numbers of a sound stream are below the entries.
pub(crate) fn indices_below(bytes: &[u8], w: u8, n: usize, entries: u32) -> bool
    requires { (w ≤ 32) × (n ≤ 1048576) }
    ensures { result ≡ below entries (runs w (2 ^ 32 - 1) n bytes.now) }
{
    let mut runs = Runs {
        w,
        rest: bytes,
        left: n,
    };
    loop {
        match runs.next() {
            Ok(Some(run)) => {
                if !run_below(run, w, entries) {
                    return false;
                }
            }
            Ok(None) => return true,
            Err(_) => return false,
        }
    }
}
