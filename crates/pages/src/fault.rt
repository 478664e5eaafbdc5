// What a source finds wrong by itself.
ghost use Rattle.std.specs.Prelude.{◌≡◌, Some};
ghost use Rattle.pages.specs.Flaws.{number_of, flaw_text};
ghost use Rattle.faults.specs.declared.types.Cause.TheVariants.{Source};

use faults::types::Cause;
use std::error::Error;
use std::fmt;

// An unknown command, a command or body cut short, a flag that is neither 0 nor 1, a head of an unknown sort, a part
// outside the buffer, or what a source of another crate finds, by a number of its own.
#[derive(Clone, Copy, Debug, PartialEq, Eq, Hash)]
pub enum SourceFault {
    Command,
    Short,
    Flag,
    Sort,
    Outside,
    Other(u8),
}

impl From<SourceFault> for u8 {
    ghost from_gives = { λ fault n. n ≡ number_of fault };

    fn from(fault: SourceFault) -> u8 {
        match fault {
            SourceFault::Command => 1,
            SourceFault::Short => 2,
            SourceFault::Flag => 3,
            SourceFault::Sort => 4,
            SourceFault::Outside => 5,
            SourceFault::Other(n) => n,
        }
    }
}

// A read passes it on by its number.
impl From<SourceFault> for Cause {
    ghost from_gives = { λ fault cause. cause ≡ Source (number_of fault) };

    fn from(fault: SourceFault) -> Cause {
        Cause::Source(u8::from(fault))
    }
}

impl fmt::Display for SourceFault {
    ghost output = { λ fault. Some (flaw_text fault) };

    fn fmt<W: fmt::Write>(&self, f: &mut fmt::Formatter<W>) -> fmt::Result {
        match self {
            SourceFault::Command => f.write_str("an unknown command"),
            SourceFault::Short => f.write_str("a command or a body cut short"),
            SourceFault::Flag => f.write_str("a flag that is neither 0 nor 1"),
            SourceFault::Sort => f.write_str("a head of an unknown sort"),
            SourceFault::Outside => f.write_str("a part outside the buffer"),
            SourceFault::Other(n) => write!(f, "source fault {n}"),
        }
    }
}

impl Error for SourceFault {}
