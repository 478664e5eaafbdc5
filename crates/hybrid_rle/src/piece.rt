ghost use Rattle.std.specs.Prelude.{◌≡◌, ◌+◌, ◌^◌, ◌<◌, [], ◌∷◌, take, Some};
ghost use Rattle.hybrid_rle.specs.Rows.{beyond};
ghost use Rattle.hybrid_rle.specs.Held.{held, piece_count, rows, Inside};

// Items that come next: those packed in the bytes from bit `offset` on, or one item repeated. Plain data: that a bitmap lies in its
// bytes is asked where rows are taken, since numbers past the end count as 0.
#[derive(Clone, Copy)]
pub enum Piece<'a, T> {
    Bitmap {
        bytes: &'a [u8],
        offset: usize,
        length: usize,
    },
    Repeated {
        value: T,
        length: usize,
    },
}

impl<T> Piece<'_, T> {
    // How many items a piece has.
    pub fn len(&self) -> usize
        ensures { result ≡ piece_count self.now }
    {
        match self {
            Piece::Bitmap { length, .. } => *length,
            Piece::Repeated { length, .. } => *length,
        }
    }
}

impl Piece<'_, bool> {
    // Takes the first `limit` rows off a run that has more: they are the answer, and the run goes on after them.
    pub(crate) fn take_front(&mut self, limit: usize) -> Self
        requires inside { Inside (Some self.old) }
        requires more { limit < piece_count self.old }
        ensures first { rows result ≡ take limit (rows self.old) }
        ensures rest { held (Some self.new) ≡ beyond limit (rows self.old ∷ []) }
        ensures first_inside { Inside (Some result) }
        ensures rest_inside { Inside (Some self.new) }
    {
        match self {
            Piece::Bitmap {
                bytes,
                offset,
                length,
            } => {
                let first = Piece::Bitmap {
                    bytes: *bytes,
                    offset: *offset,
                    length: limit,
                };
                *offset = row_after(*offset, limit);
                *length -= limit;
                first
            }
            Piece::Repeated { value, length } => {
                *length -= limit;
                Piece::Repeated {
                    value: *value,
                    length: limit,
                }
            }
        }
    }
}

// Where a bitmap goes on that was cut after `rows` rows.
fn row_after(offset: usize, rows: usize) -> usize
    requires { offset + rows < 2 ^ 64 }
    ensures { result ≡ offset + rows }
{
    rows + offset
}
