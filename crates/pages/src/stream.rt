ghost use Rattle.std.specs.Prelude.{◌≡◌, ◌<◌, length};
ghost use Rattle.pages.specs.Commands.{dictionary_page_of, data_page_of, command, streamed};
ghost use Rattle.pages.specs.Cases.{CasesHold};
ghost use Rattle.pages.specs.Written.{DeliversWhatWasWritten, CutShortIs2};
ghost use Rattle.pages.specs.Whole.{WholeThenOneFault};
ghost use Rattle.pages.specs.Held.{in_stream};
ghost use Rattle.pages.specs.Meaning.{taken};

use crate::fault::SourceFault;
use crate::flags::flag_of;
use crate::page::{DataPage, Delivery, DictPage, Page};
use crate::pages::Pages;

// A dictionary page whose body is the first n bytes, and the bytes after it.
fn dict_body<'a>(entries: u32, n: u32, bytes: &'a [u8]) -> Result<(Page<'a>, &'a [u8]), SourceFault>
    ensures { taken result ≡ dictionary_page_of entries n bytes.now }
{
    let (body, after) = bytes
        .split_at_checked(n as usize)
        .ok_or(SourceFault::Short)?;
    Ok((Page::Dict(DictPage { entries, body }), after))
}

// A data page whose body is the first n bytes, and the bytes after it. That the body is there is looked at before the flag.
fn data_body<'a>(
    rows: u32,
    encoding: u8,
    flag: u8,
    n: u32,
    bytes: &'a [u8],
) -> Result<(Page<'a>, &'a [u8]), SourceFault>
    ensures { taken result ≡ data_page_of rows encoding flag n bytes.now }
{
    let (body, rest) = bytes
        .split_at_checked(n as usize)
        .ok_or(SourceFault::Short)?;
    let optional = flag_of(flag).ok_or(SourceFault::Flag)?;
    let page = DataPage {
        rows,
        encoding,
        optional,
        body,
    };
    Ok((Page::Data(page), rest))
}

// The page of the first command, and the bytes after it.
fn first_command<'a>(bytes: &'a [u8]) -> Result<(Page<'a>, &'a [u8]), SourceFault>
    requires { 0 < length bytes.now }
    ensures { taken result ≡ command bytes.now }
{
    match bytes {
        [0x44, e0, e1, e2, e3, l0, l1, l2, l3, rest @ ..] => {
            let entries = u32::from_le_bytes([*e0, *e1, *e2, *e3]);
            let n = u32::from_le_bytes([*l0, *l1, *l2, *l3]);
            dict_body(entries, n, rest)
        }
        [
            0x50,
            r0,
            r1,
            r2,
            r3,
            encoding,
            flag,
            l0,
            l1,
            l2,
            l3,
            rest @ ..,
        ] => {
            let rows = u32::from_le_bytes([*r0, *r1, *r2, *r3]);
            let n = u32::from_le_bytes([*l0, *l1, *l2, *l3]);
            data_body(rows, *encoding, *flag, n, rest)
        }
        [0x44 | 0x50, ..] => Err(SourceFault::Short),
        _ => Err(SourceFault::Command),
    }
}

// A source that reads commands from a slice.
#[derive(Drop)]
pub struct Stream<'a> {
    rest: &'a [u8],
}

impl<'a> Stream<'a> {
    pub fn new(bytes: &'a [u8]) -> Stream<'a>
        ensures means { in_stream result ≡ streamed bytes.now }
        ensures law { DeliversWhatWasWritten }
        ensures cut { CutShortIs2 }
        ensures whole { WholeThenOneFault }
        ensures table { CasesHold }
    {
        Stream { rest: bytes }
    }
}

impl<'a> Pages<'a> for Stream<'a> {
    ghost deliveries = { in_stream };

    // After a fault nothing is left.
    fn next(&mut self) -> Option<Delivery<'a>> {
        if self.rest.is_empty() {
            return None;
        }
        match first_command(self.rest) {
            Ok((page, rest)) => {
                self.rest = rest;
                Some(Ok(page))
            }
            Err(fault) => {
                self.rest = &[];
                Some(Err(fault))
            }
        }
    }
}
