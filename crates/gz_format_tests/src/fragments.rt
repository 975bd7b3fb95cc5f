//! Fragment records: worked ones, and the first fault of bytes that are none.
use gz_core::{Items, Key, PutName, Session};
use gz_fragfmt::{
    FragError, Fragment, Shape, decode_fragment, digest, encode_fragment, encode_parts,
    read_fragment,
};
use std::alloc::Global;

/// The three fragments of the bytes 01 02 that the first put of session 1 stored under the key `a`, with one parity piece:
/// the index, the byte of the piece, and the record.
pub(crate) const RECORDS: &[(u8, u8, &[u8])] = &[
    (
        0,
        1,
        b"GZF1\x01a\x00\x00\x00\x01\x00\x00\x00\x01\x00\x02\x01\x00\x00\x00\x02\x01",
    ),
    (
        1,
        2,
        b"GZF1\x01a\x00\x00\x00\x01\x00\x00\x00\x01\x01\x02\x01\x00\x00\x00\x02\x02",
    ),
    (
        2,
        7,
        b"GZF1\x01a\x00\x00\x00\x01\x00\x00\x00\x01\x02\x02\x01\x00\x00\x00\x02\x07",
    ),
];

/// One of these fragments.
fn fragment(alloc: Global, index: u8, piece: u8) -> Option<Fragment> {
    if index > 2 {
        return None;
    }
    let key = Key::new(Vec::from_slice(alloc, b"a").ok()?)?;
    let piece = Items::from_slice(alloc, &[piece]).ok()?;
    let name = PutName {
        session: Session(1),
        seq: 1,
    };
    Some(Fragment {
        key,
        name,
        index,
        k: 2,
        m: 1,
        length: 2,
        piece,
    })
}

/// Whether the parts of a fragment have this record.
fn has_record(alloc: Global, fragment: &Fragment, record: &[u8]) -> bool {
    let shape = Shape {
        index: fragment.index,
        k: fragment.k,
        m: fragment.m,
        length: fragment.length,
    };
    let piece = fragment.piece.as_slice();
    match encode_parts(alloc, &fragment.key, fragment.name, shape, piece) {
        Err(_) => false,
        Ok(written) => written.as_slice() == record,
    }
}

/// Whether two fragments have the same parts.
fn are_same(one: &Fragment, other: &Fragment) -> bool {
    one.key == other.key
        && one.name == other.name
        && one.index == other.index
        && one.k == other.k
        && one.m == other.m
        && one.length == other.length
        && one.piece == other.piece
}

/// Whether the record of a fragment is these bytes, and is read as the fragment.
fn is_spelled(alloc: Global, index: u8, piece: u8, record: &[u8]) -> Option<bool> {
    let made = fragment(alloc, index, piece)?;
    let read = decode_fragment(alloc, record).ok()?;
    let written = encode_fragment(alloc, &made).ok()?;
    Some(are_same(&made, &read) && written.as_slice() == record && has_record(alloc, &read, record))
}

#[test]
fn worked_records(rt: HostRuntime) {
    for (index, piece, record) in RECORDS {
        assert!(rt; is_spelled(rt.alloc(), *index, *piece, record) == Some(true));
    }
}

/// Bytes that are no record, and their first fault.
const FAULTS: &[(&[u8], FragError)] = &[
    (b"GZ", FragError::Short { at: 0 }),
    (b"", FragError::Short { at: 0 }),
    (b"GZF2", FragError::Magic { at: 0 }),
    (b"GZF1", FragError::Short { at: 4 }),
    (b"GZF1\x00", FragError::Field { at: 4 }),
    (b"GZF1\x01 ", FragError::Field { at: 5 }),
    (b"GZF1\x03a\x7f!", FragError::Field { at: 6 }),
    (b"GZF1\x03a ", FragError::Short { at: 5 }),
    (
        b"GZF1\x01a\x00\x00\x00\x01\x00\x00\x00",
        FragError::Short { at: 6 },
    ),
    (
        b"GZF1\x01a\x00\x00\x00\x00\x00\x00\x00\x01\x02\x02\x01\x00\x00\x00\x02\x07",
        FragError::Field { at: 6 },
    ),
    (
        b"GZF1\x01a\x00\x00\x00\x01\x00\x00\x00\x00\x02\x02\x01\x00\x00\x00\x02\x07",
        FragError::Field { at: 6 },
    ),
    (
        b"GZF1\x01a\x00\x00\x00\x01\x00\x00\x00\x01",
        FragError::Short { at: 14 },
    ),
    (
        b"GZF1\x01a\x00\x00\x00\x01\x00\x00\x00\x01\x02",
        FragError::Short { at: 15 },
    ),
    (
        b"GZF1\x01a\x00\x00\x00\x01\x00\x00\x00\x01\x02\x00\x01\x00\x00\x00\x02\x07",
        FragError::Field { at: 15 },
    ),
    (
        b"GZF1\x01a\x00\x00\x00\x01\x00\x00\x00\x01\x02\x02",
        FragError::Short { at: 16 },
    ),
    (
        b"GZF1\x01a\x00\x00\x00\x01\x00\x00\x00\x01\x02\x02\x0f\x00\x00\x00\x02\x07",
        FragError::Field { at: 16 },
    ),
    (
        b"GZF1\x01a\x00\x00\x00\x01\x00\x00\x00\x01\x03\x02\x01\x00\x00\x00\x02\x07",
        FragError::Field { at: 16 },
    ),
    (
        b"GZF1\x01a\x00\x00\x00\x01\x00\x00\x00\x01\x02\x02\x01\x00\x00\x00",
        FragError::Short { at: 17 },
    ),
    (
        b"GZF1\x01a\x00\x00\x00\x01\x00\x00\x00\x01\x02\x02\x01\x00\x10\x00\x01\x07",
        FragError::Field { at: 17 },
    ),
    (
        b"GZF1\x01a\x00\x00\x00\x01\x00\x00\x00\x01\x02\x02\x01\x00\x00\x00\x02",
        FragError::Short { at: 21 },
    ),
    (
        b"GZF1\x01a\x00\x00\x00\x01\x00\x00\x00\x01\x02\x02\x01\x00\x00\x00\x02\x07\x00",
        FragError::Trailing { at: 22 },
    ),
    (
        b"GZF1\x01a\x00\x00\x00\x01\x00\x00\x00\x01\x02\x02\x01\x00\x00\x00\x00\x07",
        FragError::Trailing { at: 21 },
    ),
];

/// Whether bytes are refused for this fault.
fn is_refused(alloc: Global, bytes: &[u8], fault: FragError) -> bool {
    read_fragment(bytes).err() == Some(fault) && decode_fragment(alloc, bytes).err() == Some(fault)
}

#[test]
fn first_faults(rt: HostRuntime) {
    for (bytes, fault) in FAULTS {
        assert!(rt; is_refused(rt.alloc(), bytes, *fault));
    }
}

/// Bytes, and their SHA-256.
const DIGESTS: &[(&[u8], [u8; 32])] = &[
    (
        b"abc",
        [
            0xba, 0x78, 0x16, 0xbf, 0x8f, 0x01, 0xcf, 0xea, 0x41, 0x41, 0x40, 0xde, 0x5d, 0xae,
            0x22, 0x23, 0xb0, 0x03, 0x61, 0xa3, 0x96, 0x17, 0x7a, 0x9c, 0xb4, 0x10, 0xff, 0x61,
            0xf2, 0x00, 0x15, 0xad,
        ],
    ),
    (
        b"GZF1\x01a\x00\x00\x00\x01\x00\x00\x00\x01\x00\x02\x01\x00\x00\x00\x02\x01",
        [
            0x89, 0xfa, 0x64, 0xd4, 0x83, 0xcd, 0x86, 0x5b, 0xb2, 0x44, 0x1b, 0xe1, 0x18, 0x3b,
            0xb4, 0xde, 0x84, 0xde, 0x9d, 0xd3, 0x6f, 0xb4, 0x07, 0x36, 0xb6, 0xfc, 0x26, 0xb7,
            0x92, 0xd6, 0x76, 0xd1,
        ],
    ),
];

#[test]
fn digests_of_records(rt: HostRuntime) {
    for (bytes, wanted) in DIGESTS {
        assert!(rt; digest(bytes) == *wanted);
    }
}
