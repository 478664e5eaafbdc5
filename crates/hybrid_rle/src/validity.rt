ghost use Rattle.std.specs.Prelude.{◌≡◌, true};
ghost use Rattle.hybrid_rle.specs.Rows.{gives_rows};
ghost use Rattle.hybrid_rle.specs.Held.{Inside};

mod step;

pub use crate::piece::Piece;
use crate::runs::Runs;

// The rows of a page that are still to come: those of the run that rows are taken from, and those of the runs after it.
#[derive(Clone, Copy)]
pub struct OptionalPageValidity<'a> {
    runs: Runs<'a>,
    current: Option<Piece<'a, bool>>,
    ghost one_bit: { runs.w ≡ 1 },
    ghost gives: { gives_rows runs.left runs.rest.now ≡ true },
    ghost inside: { Inside current },
}
