ghost use Rattle.std.specs.Prelude.{◌≡◌};
ghost use Rattle.faults.specs.Names.{kind_of};

use crate::types::{Cause, Fault, Kind};
use std::str::FromStr;

// The kind of a column, by Parquet's name of its physical type.
pub fn kind(name: &str) -> Result<Kind, Fault>
    ensures { result ≡ kind_of name.now }
{
    Kind::from_str(name)
}

impl FromStr for Kind {
    type Err = Fault;

    ghost from_str_gives = { λ name r. r ≡ kind_of name };

    fn from_str(name: &str) -> Result<Kind, Fault> {
        match name {
            "BOOLEAN" => Ok(Kind::Boolean),
            "INT32" => Ok(Kind::Int32),
            "INT64" => Ok(Kind::Int64),
            "FLOAT" => Ok(Kind::Float),
            "DOUBLE" => Ok(Kind::Double),
            "BYTE_ARRAY" => Ok(Kind::ByteArray),
            _ => Err(Fault {
                cause: Cause::Name,
                count: 0,
            }),
        }
    }
}
