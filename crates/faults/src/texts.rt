// What a fault says to a reader.
ghost use Rattle.std.specs.Prelude.{Some};
ghost use Rattle.faults.specs.Texts.{cause_text, fault_text, layer_name};

use crate::types::{Cause, Fault, Layer};
use std::error::Error;
use std::fmt;

impl fmt::Display for Layer {
    ghost output = { λ layer. Some (layer_name layer) };

    fn fmt<W: fmt::Write>(&self, f: &mut fmt::Formatter<W>) -> fmt::Result {
        f.write_str(match self {
            Layer::Name => "name",
            Layer::Open => "open",
            Layer::Source => "source",
            Layer::Page => "page",
            Layer::Validity => "validity",
            Layer::Values => "values",
            Layer::Dictionary => "dictionary",
            Layer::Chunk => "chunk",
        })
    }
}

impl fmt::Display for Cause {
    ghost output = { λ cause. Some (cause_text cause) };

    fn fmt<W: fmt::Write>(&self, f: &mut fmt::Formatter<W>) -> fmt::Result {
        f.write_str(match self {
            Cause::Name => "no such type name",
            Cause::Open => "a chunk size of 0 or above 65536",
            // By number, since a cause has the number alone. Faults 4 and 5 of a directory have no words of their own.
            Cause::Source(1) => "the stream has an unknown command (source fault 1)",
            Cause::Source(2) => "the stream is cut short (source fault 2)",
            Cause::Source(3) => "the stream has a flag that is neither 0 nor 1 (source fault 3)",
            Cause::Source(_) => "the source is at fault",
            Cause::Rows => "more than 1048576 rows or entries",
            Cause::Flag => "the page's optional flag is not the column's",
            Cause::Encoding => "an encoding that is not read for this kind",
            Cause::NoDictionary => "a dictionary encoding, and no dictionary is held",
            Cause::Validity => "the validity runs are broken or too few",
            Cause::Values => "the values are broken or too few",
            Cause::Index => "an index at or above the dictionary's entries",
            Cause::Dictionary => "the dictionary's body is broken",
            Cause::ChunkRows => "the chunk does not have the rows pending",
            Cause::ChunkMemory => "the chunk's memory is too small",
            Cause::ChunkBytes => "the rows' bytes do not fit into the chunk",
        })
    }
}

impl Error for Cause {}

impl fmt::Display for Fault {
    ghost output = { λ fault. Some (fault_text fault) };

    fn fmt<W: fmt::Write>(&self, f: &mut fmt::Formatter<W>) -> fmt::Result {
        let number = u8::from(self.cause);
        let layer = Layer::from(self.cause);
        let count = self.count;
        let cause = self.cause;
        write!(f, "Fault {number} ({layer}) at delivery {count}: {cause}")
    }
}

impl Error for Fault {}
