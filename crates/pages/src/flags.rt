ghost use Rattle.std.specs.Prelude.{◌≡◌};
ghost use Rattle.pages.specs.Commands.{flagged};

// A flag's meaning, if it has one. It is no TryFrom, since both types are the library's.
pub fn flag_of(b: u8) -> Option<bool>
    ensures { result ≡ flagged b }
{
    match b {
        0 => Some(false),
        1 => Some(true),
        _ => None,
    }
}
