ghost use Rattle.std.specs.Prelude.{◌≡◌};
ghost use Rattle.std.specs.Option.{option_map};
ghost use Rattle.pages.specs.Heads.{part_of, headed, listed};
ghost use Rattle.pages.specs.Held.{in_directory};
ghost use Rattle.pages.specs.Laid.{DeliversWhatWasLaid, HeadCasesHold};
ghost use Rattle.pages.specs.Meaning.{meaning};

use crate::fault::SourceFault;
use crate::flags::flag_of;
use crate::heads::{Head, Sort};
use crate::page::{DataPage, Delivery, DictPage, Page};
use crate::pages::Pages;

// The n bytes of a buffer from a place on, if it has them all.
fn part(buffer: &[u8], place: u32, n: u32) -> Option<&[u8]>
    ensures { option_map (λ x. x.now) result ≡ part_of buffer.now place n }
{
    let from = place as usize;
    buffer.get(from..from + n as usize)
}

// What a head delivers from a buffer: its sort is looked at first, then its part, then the flag of a data page.
fn delivery<'a>(buffer: &'a [u8], head: Head) -> Delivery<'a>
    ensures { meaning result ≡ headed buffer.now head }
{
    let sort = Sort::try_from(head.sort)?;
    let body = part(buffer, head.place, head.length).ok_or(SourceFault::Outside)?;
    match sort {
        Sort::Dictionary => Ok(Page::Dict(DictPage {
            entries: head.count,
            body,
        })),
        Sort::Data => Ok(Page::Data(DataPage {
            rows: head.count,
            encoding: head.encoding,
            optional: flag_of(head.flag).ok_or(SourceFault::Flag)?,
            body,
        })),
    }
}

// A source that takes pages from a buffer by a list of heads.
#[derive(Drop)]
pub struct Directory<'a> {
    buffer: &'a [u8],
    heads: &'a [Head],
}

impl<'a> Directory<'a> {
    // All the heads, from the first on. Apart from `new`, so that what it gives is proved without the laws.
    fn over(buffer: &'a [u8], heads: &'a [Head]) -> Directory<'a>
        ensures { in_directory result ≡ listed buffer.now heads.now }
    {
        Directory { buffer, heads }
    }

    pub fn new(buffer: &'a [u8], heads: &'a [Head]) -> Directory<'a>
        ensures means { in_directory result ≡ listed buffer.now heads.now }
        ensures law { DeliversWhatWasLaid }
        ensures table { HeadCasesHold }
    {
        Directory::over(buffer, heads)
    }
}

impl<'a> Pages<'a> for Directory<'a> {
    ghost deliveries = { in_directory };

    fn next(&mut self) -> Option<Delivery<'a>> {
        let (head, rest) = self.heads.split_first()?;
        self.heads = rest;
        Some(delivery(self.buffer, *head))
    }
}
