ghost use Rattle.std.specs.Prelude.{pos};
ghost use Rattle.values.specs.Little.{signed, unsigned};

use super::Element;

// One impl for each type: the library's integers have no trait in common that reads bytes with a promise, and an impl may not be
// written by a macro here.
impl Element for i32 {
    ghost int = { λ n. n };

    ghost width = { 4 };

    ghost reading = { signed 4 };

    fn zero() -> i32 {
        0
    }

    fn wide() -> usize {
        4
    }

    fn read(bytes: &[u8]) -> i32 {
        bytes.first_chunk().map_or(0, |b| i32::from_le_bytes(*b))
    }
}

impl Element for i64 {
    ghost int = { λ n. n };

    ghost width = { 8 };

    ghost reading = { signed 8 };

    fn zero() -> i64 {
        0
    }

    fn wide() -> usize {
        8
    }

    fn read(bytes: &[u8]) -> i64 {
        bytes.first_chunk().map_or(0, |b| i64::from_le_bytes(*b))
    }
}

impl Element for u32 {
    ghost int = { pos };

    ghost width = { 4 };

    ghost reading = { unsigned 4 };

    fn zero() -> u32 {
        0
    }

    fn wide() -> usize {
        4
    }

    fn read(bytes: &[u8]) -> u32 {
        bytes.first_chunk().map_or(0, |b| u32::from_le_bytes(*b))
    }
}

impl Element for u64 {
    ghost int = { pos };

    ghost width = { 8 };

    ghost reading = { unsigned 8 };

    fn zero() -> u64 {
        0
    }

    fn wide() -> usize {
        8
    }

    fn read(bytes: &[u8]) -> u64 {
        bytes.first_chunk().map_or(0, |b| u64::from_le_bytes(*b))
    }
}
