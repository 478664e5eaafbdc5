ghost use Rattle.std.specs.Prelude.{◌≡◌, IfOk, vec_items};
ghost use Rattle.std.specs.Option.{option_map};
ghost use Rattle.cli.specs.HeadFile.{front_head, head_and_rest, heads_file};

use pages::heads::Head;
use std::alloc::{AllocError, Global};

// The head in the first 15 bytes, and the bytes after it, if there are so many.
fn first_head<'a>(bytes: &'a [u8]) -> Option<(Head, &'a [u8])>
    ensures { option_map head_and_rest result ≡ front_head bytes.now }
{
    let [
        sort,
        encoding,
        flag,
        c0,
        c1,
        c2,
        c3,
        p0,
        p1,
        p2,
        p3,
        l0,
        l1,
        l2,
        l3,
        rest @ ..,
    ] = bytes
    else {
        return None;
    };
    let head = Head {
        sort: *sort,
        encoding: *encoding,
        flag: *flag,
        count: u32::from_le_bytes([*c0, *c1, *c2, *c3]),
        place: u32::from_le_bytes([*p0, *p1, *p2, *p3]),
        length: u32::from_le_bytes([*l0, *l1, *l2, *l3]),
    };
    Some((head, rest))
}

// The heads of a file of heads, 15 bytes each; none where a part of one is left over.
pub fn heads_of(heap: Global, bytes: &[u8]) -> Result<Option<Vec<Head>>, AllocError>
    ensures { IfOk result (λ o. option_map vec_items o ≡ heads_file bytes.now) }
{
    let mut heads = Vec::new(heap);
    let mut rest = bytes;
    while let Some((head, after)) = first_head(rest) {
        heads.push(head)?;
        rest = after;
    }
    Ok(rest.is_empty().then_some(heads))
}
