ghost use Rattle.std.specs.Prelude.{◌≡◌, Some};
ghost use Rattle.cli.specs.Words.{flag_word, mistake_text, named, chunk_size, understood};

use crate::decimal::decimal_of;
use faults::types::Kind;
use std::error::Error;
use std::fmt;
use std::str::FromStr;

// What is wrong with the words of the command line.
#[derive(Clone, Copy, Debug, PartialEq, Eq, Hash)]
pub enum Mistake {
    Kind,
    Flag,
    Chunk,
    Limit,
    Option,
    Conversion,
    Missing,
    NotConverted,
    NotYet,
}

impl fmt::Display for Mistake {
    ghost output = { λ mistake. Some (mistake_text mistake) };

    fn fmt<W: fmt::Write>(&self, f: &mut fmt::Formatter<W>) -> fmt::Result {
        f.write_str(match self {
            Mistake::Kind => "KIND is none of BOOLEAN, INT32, INT64, FLOAT, DOUBLE, BYTE_ARRAY",
            Mistake::Flag => "the third word is neither optional nor required",
            Mistake::Chunk => "CHUNK is no number from 1 to 65536",
            Mistake::Limit => "LIMIT is no number from 0 to 4294967295",
            Mistake::Option => "an option is none of --conversion, --directory, --json",
            Mistake::Conversion => "a conversion is none of keep, widen, unsigned",
            Mistake::Missing => "an option lacks its word",
            Mistake::NotConverted => "only INT32 is converted by widen or unsigned",
            Mistake::NotYet => "columns of this KIND are not read yet: INT32 is",
        })
    }
}

impl Error for Mistake {}

// What the first words ask for.
#[derive(Clone, Copy, Debug, PartialEq, Eq, Hash)]
pub struct Wanted {
    pub kind: Kind,
    pub optional: bool,
    pub chunk: u32,
    pub limit: u32,
}

// Whether a row may be null. It is no FromStr, since bool has one of the library's.
pub fn flag_word(text: &str) -> Option<bool>
    ensures { result ≡ flag_word text.now }
{
    match text {
        "optional" => Some(true),
        "required" => Some(false),
        _ => None,
    }
}

// The kind by its name.
pub fn named_kind(name: &str) -> Result<Kind, Mistake>
    ensures { result ≡ named name.now }
{
    Kind::from_str(name).map_err(|_| Mistake::Kind)
}

// A number from 1 to 65536.
fn chunk_word(text: &str) -> Option<u32>
    ensures { result ≡ chunk_size text.now }
{
    decimal_of(text).filter(|n| 0 < *n && *n <= 65536)
}

// What the words ask for, or the first that is wrong.
pub fn understand(name: &str, flag: &str, chunk: &str, limit: &str) -> Result<Wanted, Mistake>
    ensures { result ≡ understood name.now flag.now chunk.now limit.now }
{
    Ok(Wanted {
        kind: named_kind(name)?,
        optional: flag_word(flag).ok_or(Mistake::Flag)?,
        chunk: chunk_word(chunk).ok_or(Mistake::Chunk)?,
        limit: decimal_of(limit).ok_or(Mistake::Limit)?,
    })
}
