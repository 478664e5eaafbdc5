use bitmap::mutable::{Full, MutableBitmap, Refusal};
use bitmap::utils::{BitmapIter, get_bit};
use std::process::Abort;
use std::test::Fail;

// Some bytes with no pattern that a shift keeps.
const SOURCE: [u8; 12] = [
    0xB5, 0x6D, 0x01, 0xFE, 0x80, 0x7F, 0x33, 0xCC, 0x0F, 0xF0, 0x5A, 0xA5,
];

// After `start` bits 1, n bits of the source from `offset` on: each bit is in its place, and the unused bits of the last byte are 0.
fn appended(rt: &impl Abort, start: usize, offset: usize, n: usize) {
    let mut memory = [0xFFu8; 12];
    let mut map = MutableBitmap::new(&mut memory);
    assert!(rt; map.extend_constant(start, true).is_ok());
    assert!(rt; map.extend_from_slice(&SOURCE, offset, n).is_ok());
    assert_eq!(rt; map.len(), start + n);
    // By number: the index is what is tested.
    for i in 0..start {
        assert_eq!(rt; map.get(i), Some(true));
    }
    for i in 0..n {
        assert_eq!(rt; map.get(start + i), Some(get_bit(&SOURCE, offset + i)));
    }
    assert_eq!(rt; map.get(start + n), None);
    for i in start + n..96 {
        let last = (start + n + 7) / 8;
        assert_eq!(rt; get_bit(&memory, i), i / 8 >= last);
    }
}

#[test]
fn lengths_at_every_offset(rt: HostRuntime) {
    for start in 0..=9 {
        for offset in 0..=16 {
            for n in 0..=40 {
                appended(&rt, start, offset, n);
            }
        }
    }
}

#[test]
fn equal_bits(rt: HostRuntime) {
    for start in 0..=9 {
        for n in 0..=40 {
            let mut memory = [0xFFu8; 8];
            let mut map = MutableBitmap::new(&mut memory);
            assert!(rt; map.extend_constant(start, true).is_ok());
            assert!(rt; map.extend_constant(n, false).is_ok());
            for i in 0..start + n {
                assert_eq!(rt; map.get(i), Some(i < start));
            }
        }
    }
}

// At the edge: the last bit goes in, one more is refused, and the memory is as it was.
#[test]
fn refusals_at_the_edge(rt: HostRuntime) {
    let mut memory = [0xFFu8; 2];
    let mut map = MutableBitmap::new(&mut memory);
    assert!(rt; map.extend_constant(15, true).is_ok());
    assert_eq!(rt; map.extend_constant(2, false), Err(Full));
    assert_eq!(rt; map.extend_from_slice(&SOURCE, 0, 2), Err(Refusal::Full));
    assert_eq!(rt; map.len(), 15);
    assert!(rt; map.push(false).is_ok());
    assert_eq!(rt; map.push(true), Err(Full));
    assert_eq!(rt;
        map.extend_from_slice(&SOURCE, 96, 1),
        Err(Refusal::Outside)
    );
    assert_eq!(rt;
        map.extend_from_slice(&SOURCE, 97, 0),
        Err(Refusal::Outside)
    );
    assert!(rt; map.extend_from_slice(&SOURCE, 96, 0).is_ok());
    assert_eq!(rt; map.len(), 16);
    assert_eq!(rt; memory[0], 0xFF);
    assert_eq!(rt; memory[1], 0x7F);
}

#[test]
fn iterator(rt: HostRuntime) -> Result<(), Fail> {
    for offset in 0..=20 {
        for n in 0..=40 {
            let Some(bits) = BitmapIter::new(&SOURCE, offset, n) else {
                return Err(Fail::new("the range lies in the bytes"));
            };
            assert_eq!(rt; bits.len(), n);
            let single = (offset..offset + n).map(|i| get_bit(&SOURCE, i));
            assert!(rt; bits.eq(single));
        }
    }
    assert!(rt; BitmapIter::new(&SOURCE, 90, 7).is_none());
    Ok(())
}
