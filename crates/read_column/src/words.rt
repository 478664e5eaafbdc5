ghost use Rattle.std.specs.Prelude.{◌≡◌, IfOk};
ghost use Rattle.std.specs.Str.Parse.{ParsesUnsigned};
ghost use Rattle.read_column.specs.Wants.{Means};

use cli::words::{Mistake, Wanted, flag_word, named_kind};
use faults::types::Kind;

// The number that decimal digits write, if it is below 2^32. A plus sign may stand before them.
fn number(text: &str, mistake: Mistake) -> Result<u32, Mistake>
    ensures { ParsesUnsigned 32 10 text.now result }
{
    text.parse::<u32>().map_err(|_| mistake)
}

// What the words ask for, or the first that is wrong. Beside cli's, which reads every kind and takes no plus sign.
pub fn understand(name: &str, flag: &str, chunk: &str, limit: &str) -> Result<Wanted, Mistake>
    ensures { IfOk result (λ w. Means name.now flag.now chunk.now limit.now w) }
{
    let kind = named_kind(name)?;
    if kind != Kind::Int32 {
        return Err(Mistake::NotYet);
    }
    let optional = flag_word(flag).ok_or(Mistake::Flag)?;
    let chunk = number(chunk, Mistake::Chunk)?;
    if chunk == 0 || chunk > 65536 {
        return Err(Mistake::Chunk);
    }
    let limit = number(limit, Mistake::Limit)?;
    Ok(Wanted {
        kind,
        optional,
        chunk,
        limit,
    })
}
