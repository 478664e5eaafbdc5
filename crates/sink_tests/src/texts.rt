use sinks::binary::Binary;
use sinks::pushable::{Pushable, Sink};

#[test]
fn offsets(rt: HostRuntime) {
    let mut marks = [-1i32; 5];
    let mut memory = [0xFFu8; 8];
    let mut sink = Binary::new(&mut marks, &mut memory);
    assert!(rt; sink.push(b"joe").is_ok());
    assert!(rt; sink.push_nulls(2).is_ok());
    assert!(rt; sink.push(b"mark").is_ok());
    assert_eq!(rt; sink.len(), 4);
    assert!(rt; sink.push(b"").is_err());
    assert!(rt; sink.push_null().is_err());
    assert_eq!(rt; marks, [0, 3, 3, 3, 7]);
    assert_eq!(rt; &memory, b"joemark\xFF");
}

// The byte capacity: what just fits goes in, one byte more is refused with nothing changed.
#[test]
fn bytes_at_the_edge(rt: HostRuntime) {
    let mut marks = [-1i32; 4];
    let mut memory = [0xFFu8; 4];
    let mut sink = Binary::new(&mut marks, &mut memory);
    assert!(rt; sink.push(b"abc").is_ok());
    assert_eq!(rt; sink.spare(), 1);
    assert!(rt; sink.push(b"de").is_err());
    assert!(rt; sink.push(b"d").is_ok());
    assert!(rt; sink.push(b"").is_ok());
    assert!(rt; sink.push_nulls(1).is_err());
    assert_eq!(rt; sink.len(), 3);
    sink.clear();
    assert_eq!(rt; sink.len(), 0);
    assert_eq!(rt; marks, [0, 3, 4, 4]);
    assert_eq!(rt; &memory, b"abcd");
}

#[test]
fn no_offsets(rt: HostRuntime) {
    let mut marks = [0i32; 0];
    let mut memory = [0u8; 4];
    let mut sink = Binary::new(&mut marks, &mut memory);
    assert_eq!(rt; sink.capacity(), 0);
    assert!(rt; sink.push(b"").is_err());
    assert!(rt; sink.push_nulls(0).is_ok());
    assert!(rt; sink.push_nulls(1).is_err());
    assert_eq!(rt; sink.len(), 0);
}
