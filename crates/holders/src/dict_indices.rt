ghost use Rattle.std.specs.Prelude.{◌≡◌, ◌<◌, true, length, is_some};
ghost use Rattle.holders.specs.Judge as judge;
ghost use Rattle.holders.specs.Left.{indices_left, or_none};
ghost use Rattle.holders.specs.Entries.{current_count};

use crate::types::Indices;
use hybrid_rle::piece::Piece;
use hybrid_rle::unpack::unpacked;

impl Indices<'_> {
    // How many indices of the current run are left.
    fn current_len(&self) -> usize
        ensures { result ≡ current_count self.now.current }
    {
        self.current.map_or(0, |run| run.len())
    }

    // The next index of the current run.
    fn pop(&mut self) -> u32
        requires { (is_some (indices_left self.old) ≡ true) × (0 < current_count self.old.current) }
        ensures { judge.put result (indices_left self.new) ≡ indices_left self.old }
    {
        let w = self.runs.w;
        let Some(run) = &mut self.current else {
            return unreachable();
        };
        match run {
            Piece::Bitmap {
                bytes,
                offset,
                length,
            } => {
                let v = unpacked(*bytes, w, *offset);
                *offset += w as usize;
                *length -= 1;
                v
            }
            Piece::Repeated { value, length } => {
                *length -= 1;
                *value
            }
        }
    }

    // The next run becomes the current one. Apart from `next`, which every index goes through.
    #[inline(never)]
    fn load(&mut self)
        requires { (is_some (indices_left self.old) ≡ true) × ((current_count self.old.current ≡ 0) × (0 < self.old.runs.left)) }
        ensures same { indices_left self.new ≡ indices_left self.old }
        ensures shorter { length self.new.runs.rest.now < length self.old.runs.rest.now }
    {
        match self.runs.next() {
            Ok(Some(run)) => self.current = Some(Piece::from(run)),
            Ok(None) => unreachable(),
            Err(_) => unreachable(),
        }
    }

    // The next index.
    pub(crate) fn next(&mut self) -> u32
        requires { 0 < length (or_none (indices_left self.old)) }
        ensures { judge.put result (indices_left self.new) ≡ indices_left self.old }
    {
        while self.current_len() == 0 {
            self.load();
        }
        self.pop()
    }
}
