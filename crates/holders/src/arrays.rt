ghost use Rattle.std.specs.Prelude.{◌≡◌, ◌≤◌, true, is_some};
ghost use Rattle.holders.specs.Judge as judge;
ghost use Rattle.holders.specs.Shapes.{halves};

// A 4-byte length and that many bytes: they, and the bytes after them.
pub(crate) fn counted<'a>(bytes: &'a [u8]) -> Option<(&'a [u8], &'a [u8])>
    ensures { halves result ≡ judge.counted bytes.now }
{
    let (length, rest) = bytes.split_first_chunk()?;
    rest.split_at_checked(u32::from_le_bytes(*length) as usize)
}

// Whether the bytes begin with n such values.
pub(crate) fn arrays_fit(n: usize, bytes: &[u8]) -> bool
    ensures { result ≡ is_some (judge.arrays_in n bytes.now) }
{
    let mut rest = bytes;
    for _i in 0..n {
        let Some((_value, after)) = counted(rest) else {
            return false;
        };
        rest = after;
    }
    true
}
