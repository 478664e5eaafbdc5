ghost use Rattle.std.specs.Prelude.{◌≡◌, ◌+◌, ◌^◌, ◌<◌, Some};
ghost use Rattle.hybrid_rle.specs.Runs.{runs};
ghost use Rattle.hybrid_rle.specs.Rows.{bits};
ghost use Rattle.hybrid_rle.specs.Held.{rows as rows_of, run_end};
ghost use Rattle.holders.specs.Judge.{needed};
ghost use Rattle.holders.specs.Counts.{tallied};

use bitmap::utils::get_bit;
use hybrid_rle::header::Broken;
use hybrid_rle::piece::Piece;
use hybrid_rle::runs::Runs;

// How many of n bits from bit `offset` on are set.
fn ones(bytes: &[u8], offset: usize, n: usize) -> usize
    requires { offset + n < 2 ^ 64 }
    ensures { result ≡ needed (bits bytes.now offset n) }
{
    // Bit by bit by number: the bits lie packed, and those past the end count as 0, where BitmapIter would refuse them.
    let mut count = 0;
    for i in 0..n {
        count += get_bit(bytes, offset + i) as usize;
    }
    count
}

// How many rows of a piece are present.
pub(crate) fn present_in(piece: Piece<'_, bool>) -> usize
    requires { run_end (Some piece) < 2 ^ 64 }
    ensures { result ≡ needed (rows_of piece.entry) }
{
    match piece {
        Piece::Bitmap {
            bytes,
            offset,
            length,
        } => ones(bytes, offset, length),
        Piece::Repeated { value, length } => { if value { length } else { 0 } }
    }
}

// How many of a page's rows are present.
pub(crate) fn present_rows(bytes: &[u8], rows: usize) -> Result<usize, Broken>
    ensures { result ≡ tallied (runs 1 1 rows bytes.now) }
{
    let mut runs = Runs {
        w: 1,
        rest: bytes,
        left: rows,
    };
    let mut n = 0;
    while let Some(run) = runs.next()? {
        if !run.is_allowed(1) {
            return Err(Broken::Above);
        }
        n += present_in(run.rows());
    }
    Ok(n)
}
