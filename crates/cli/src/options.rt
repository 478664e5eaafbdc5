ghost use Rattle.std.specs.Prelude.{◌≡◌, map, string_bytes};
ghost use Rattle.cli.specs.Options.{conversion_word, after_option, after_word, options_in, ended, column_of};

use crate::words::Mistake;
use faults::types::Kind;
use std::str::FromStr;

// What becomes of INT32's values.
#[derive(Clone, Copy, Debug, PartialEq, Eq, Hash)]
pub enum Converts {
    Keep,
    Widen,
    Unsigned,
}

impl FromStr for Converts {
    type Err = Mistake;

    ghost from_str_gives = { λ text r. r ≡ conversion_word text };

    fn from_str(text: &str) -> Result<Converts, Mistake> {
        match text {
            "keep" => Ok(Converts::Keep),
            "widen" => Ok(Converts::Widen),
            "unsigned" => Ok(Converts::Unsigned),
            _ => Err(Mistake::Conversion),
        }
    }
}

// The option whose word is to come.
#[derive(Clone, Copy, Debug, PartialEq, Eq, Hash)]
pub enum Awaited {
    Conversion,
    Heads,
}

// What the options say: the conversion, which of the option words names the file of heads, and whether to print JSON. The word is
// named by its place: a borrowed text would tie the options to the words and their definition to a borrow. `awaits` matters while the
// words are read; it is empty at the end.
#[derive(Clone, Copy, Debug, PartialEq, Eq, Hash)]
pub struct Options {
    pub awaits: Option<Awaited>,
    pub converts: Converts,
    pub heads: Option<usize>,
    pub json: bool,
}

// A column that can be read.
#[derive(Clone, Copy, Debug, PartialEq, Eq, Hash)]
pub enum Column {
    Int32,
    Widened,
    Unsigned,
    Int64,
    Float,
    Double,
    Boolean,
    ByteArray,
}

// A word where an option may stand.
fn option_word(known: Options, word: &str) -> Result<Options, Mistake>
    ensures { result ≡ after_option known word.now }
{
    match word {
        "--conversion" => Ok(Options {
            awaits: Some(Awaited::Conversion),
            ..known
        }),
        "--directory" => Ok(Options {
            awaits: Some(Awaited::Heads),
            ..known
        }),
        "--json" => Ok(Options {
            json: true,
            ..known
        }),
        _ => Err(Mistake::Option),
    }
}

// Word number `at` of the options, after those before it.
fn next_word(known: Options, at: usize, word: &str) -> Result<Options, Mistake>
    ensures { result ≡ after_word known at word.now }
{
    match known.awaits {
        None => option_word(known, word),
        Some(Awaited::Conversion) => Ok(Options {
            awaits: None,
            converts: Converts::from_str(word)?,
            ..known
        }),
        Some(Awaited::Heads) => Ok(Options {
            awaits: None,
            heads: Some(at),
            ..known
        }),
    }
}

// The options, if none still awaits its word.
fn completed(chosen: Options) -> Result<Options, Mistake>
    ensures { result ≡ ended chosen }
{
    if chosen.awaits.is_some() {
        return Err(Mistake::Missing);
    }
    Ok(chosen)
}

// What option words say, or the first mistake in them.
pub fn read_options(words: &[String]) -> Result<Options, Mistake>
    ensures { result ≡ options_in (map string_bytes words.now) }
{
    let mut chosen = Options {
        awaits: None,
        converts: Converts::Keep,
        heads: None,
        json: false,
    };
    for (at, word) in words.iter().enumerate() {
        chosen = next_word(chosen, at, word.as_str())?;
    }
    completed(chosen)
}

// The column of a kind and a conversion. A TryFrom of the pair would say no more.
pub fn choose_column(kind: Kind, converts: Converts) -> Result<Column, Mistake>
    ensures { result ≡ column_of kind converts }
{
    match (kind, converts) {
        (Kind::Int32, Converts::Keep) => Ok(Column::Int32),
        (Kind::Int32, Converts::Widen) => Ok(Column::Widened),
        (Kind::Int32, Converts::Unsigned) => Ok(Column::Unsigned),
        (Kind::Int64, Converts::Keep) => Ok(Column::Int64),
        (Kind::Float, Converts::Keep) => Ok(Column::Float),
        (Kind::Double, Converts::Keep) => Ok(Column::Double),
        (Kind::Boolean, Converts::Keep) => Ok(Column::Boolean),
        (Kind::ByteArray, Converts::Keep) => Ok(Column::ByteArray),
        _ => Err(Mistake::NotConverted),
    }
}
