//! Which bytes are a key, and the order of keys.
use crate::samples::key_of;
use gz_core::keys::{is_key, is_key_byte};
use std::alloc::Global;

const LONGEST: [u8; 255] = [b'x'; 255];

const TOO_LONG: [u8; 256] = [b'x'; 256];

/// Bytes, and whether they are a key.
const KEYS: &[(&[u8], bool)] = &[
    (b"a", true),
    (b"!~", true),
    (&LONGEST, true),
    (b"", false),
    (b"a b", false),
    (b"a\x7f", false),
    (b"\x80", false),
    (&TOO_LONG, false),
];

/// Whether these bytes make a key that has them.
fn makes_key(alloc: Global, bytes: &[u8]) -> bool {
    match key_of(alloc, bytes) {
        None => false,
        Some(key) => key.as_bytes() == bytes,
    }
}

#[test]
fn bytes_of_keys(rt: HostRuntime) {
    for (bytes, wanted) in KEYS {
        assert!(rt; [is_key(bytes), makes_key(rt.alloc(), bytes)] == [*wanted, *wanted]);
    }
}

/// Of the bytes at the bounds which may stand in a key.
fn bytes_in_keys() -> [bool; 4] {
    [
        is_key_byte(0x20),
        is_key_byte(0x21),
        is_key_byte(0x7e),
        is_key_byte(0x7f),
    ]
}

/// The bytes of two keys, and whether the first stands below the second.
const ORDERS: &[(&[u8], &[u8], bool)] = &[
    (b"a", b"a", false),
    (b"a", b"aa", true),
    (b"aa", b"b", true),
    (b"b", b"a", false),
];

fn is_below(alloc: Global, a: &[u8], b: &[u8]) -> Option<bool> {
    let a = key_of(alloc, a)?;
    let b = key_of(alloc, b)?;
    Some(a < b)
}

#[test]
fn bytes_and_keys_in_their_order(rt: HostRuntime) {
    assert!(rt; bytes_in_keys() == [false, true, true, false]);
    for (a, b, below) in ORDERS {
        assert!(rt; is_below(rt.alloc(), a, b) == Some(*below));
    }
}
