ghost use Rattle.std.specs.Prelude.{◌≡◌, ◌≤◌, true, [], ◌++◌, length, is_ok, IfSome};
ghost use Rattle.hybrid_rle.specs.Cursor.{to_come};
ghost use Rattle.hybrid_rle.specs.Rows.{piece, beyond, in_place, later, taken, flat};
ghost use Rattle.hybrid_rle.specs.Runs.{runs, sound};
ghost use Rattle.hybrid_rle.specs.Held.{asked, held, piece_count, Inside};

use super::OptionalPageValidity;
use crate::header::Broken;
use crate::piece::Piece;
use crate::runs::{Runs, check};

impl<'a> OptionalPageValidity<'a> {
    // The rows of the next run of the stream, up to the last row.
    fn next_run(&mut self) -> Option<Piece<'a, bool>>
        ensures given { held result ++ later self.new.runs.left self.new.runs.rest.now ≡ later self.old.runs.left self.old.runs.rest.now }
        ensures inside { Inside result }
        ensures ended { result ≡ None → self.new.runs.left ≡ 0 }
        ensures current { self.new.current ≡ self.old.current }
    {
        // The width is written out, so that each step is compiled for one bit.
        let mut runs = Runs { w: 1, ..self.runs };
        let found = runs.next();
        self.runs = runs;
        match found {
            Ok(run) => Some(run?.rows()),
            Err(_) => unreachable(),
        }
    }

    // Where no run is current, the next run of the stream: it is the answer where the limit takes it whole, since it need not be kept
    // then, and else it becomes the current run.
    fn load(&mut self, limit: usize) -> Option<Piece<'a, bool>>
        ensures same { held result ++ to_come self.new ≡ to_come self.old }
        ensures whole { IfSome result (λ run. piece_count run ≤ limit) }
        ensures inside { Inside result }
        ensures ended { result ≡ None → self.new.current ≡ None → to_come self.new ≡ [] }
    {
        if self.current.is_some() {
            return None;
        }
        match self.next_run() {
            Some(run) if run.len() <= limit => Some(run),
            run => {
                self.current = run;
                None
            }
        }
    }

    // The next rows: those of the current run, at most `limit`.
    pub fn next_limited(&mut self, limit: usize) -> Option<Piece<'a, bool>>
        ensures given { asked result ≡ piece limit (to_come self.old) }
        ensures after { to_come self.new ≡ beyond limit (to_come self.old) }
        ensures onward { taken (asked result) ++ flat (to_come self.new) ≡ flat (to_come self.old) }
        ensures inside { Inside result }
    {
        if let Some(run) = self.load(limit) {
            return Some(run);
        }
        match (&mut self.current, limit) {
            (Some(run), limit) if limit < run.len() => Some(run.take_front(limit)),
            (Some(run), _) => {
                let last = *run;
                self.current = None;
                Some(last)
            }
            (None, _) => None,
        }
    }

    // No rows.
    pub fn empty() -> Self
        ensures { to_come result ≡ [] }
    {
        OptionalPageValidity {
            runs: Runs {
                w: 1,
                rest: &[],
                left: 0,
            },
            current: None,
        }
    }

    // Holds the rows of a page in the place of those held, if its stream gives them.
    pub fn hold(&mut self, bytes: &'a [u8], rows: usize) -> Result<(), Broken>
        ensures answer { result ≡ sound (runs 1 1 rows bytes.now) }
        ensures kept { to_come self.new ≡ in_place (runs 1 1 rows bytes.now) (to_come self.old) }
        ensures count { is_ok result ≡ true → length (flat (to_come self.new)) ≡ rows }
    {
        check(bytes, 1, 1, rows)?;
        *self = OptionalPageValidity {
            runs: Runs {
                w: 1,
                rest: bytes,
                left: rows,
            },
            current: None,
        };
        Ok(())
    }
}
