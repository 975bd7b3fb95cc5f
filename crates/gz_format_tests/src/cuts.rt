//! Objects that are cut into records, and the pieces of records that came.
use crate::fragments::RECORDS;
use gz_core::{Config, Key, PutName, Session};
use gz_data::{Made, make, piece_of};
use gz_fragfmt::digest;
use std::alloc::Global;

pub(crate) fn key(alloc: Global) -> Option<Key> {
    Key::new(Vec::from_slice(alloc, b"a").ok()?)
}

/// What the first put of session 1 makes of an object under the key `a`, in two pieces and one of parity.
pub(crate) fn made(alloc: Global, object: &[u8]) -> Option<Made> {
    if object.len() > 1_048_576 {
        return None;
    }
    let config = Config::DEFAULT;
    config.check().ok()?;
    let name = PutName {
        session: Session(1),
        seq: 1,
    };
    make(alloc, &config, name, &key(alloc)?, object).ok()
}

/// Whether the records of the bytes 01 02 are the worked ones, with their digests, each for the site of its index.
fn is_cut(alloc: Global) -> Option<bool> {
    let made = made(alloc, &[1, 2])?;
    let fragments = made.put.fragments.as_slice();
    for (i, (_, _, wanted)) in RECORDS.iter().enumerate() {
        let record = made.records.get(i)?;
        let fragment = fragments.get(i)?;
        if record.as_slice() != *wanted
            || fragment.site.index() != i
            || fragment.digest != digest(wanted)
        {
            return Some(false);
        }
    }
    Some(made.put.length == 2 && made.records.len() == 3 && fragments.len() == 3)
}

#[test]
fn worked_cuts(rt: HostRuntime) {
    assert!(rt; is_cut(rt.alloc()) == Some(true));
}

/// Whether the bytes that came for a fragment are this piece of it.
fn is_piece(made: &Made, key: &Key, index: u8, bytes: &[u8], piece: u8) -> bool {
    index < 3
        && made.put.k == 2
        && made.put.m == 1
        && piece_of(key, &made.put, index, bytes) == Some([piece].as_slice())
}

/// Whether the bytes that came for a fragment are none of it.
fn is_damaged(made: &Made, key: &Key, index: u8, bytes: &[u8]) -> bool {
    index < 3
        && made.put.k == 2
        && made.put.m == 1
        && piece_of(key, &made.put, index, bytes).is_none()
}

/// Whether a record gives its piece, and none as another fragment's, nor with another byte at its end, nor without its end.
fn gives_its_piece(alloc: Global, index: u8, piece: u8, record: &[u8]) -> Option<bool> {
    let key = key(alloc)?;
    let made = made(alloc, &[1, 2])?;
    let (last, front) = record.split_last()?;
    let mut changed = Vec::from_slice(alloc, front).ok()?;
    changed.push(*last ^ 1).ok()?;
    Some(
        is_piece(&made, &key, index, record, piece)
            && is_damaged(&made, &key, (index % 3 + 1) % 3, record)
            && is_damaged(&made, &key, index, &changed)
            && is_damaged(&made, &key, index, front)
            && is_damaged(&made, &key, index, b""),
    )
}

#[test]
fn pieces_that_came(rt: HostRuntime) {
    for (index, piece, record) in RECORDS {
        assert!(rt; gives_its_piece(rt.alloc(), *index, *piece, record) == Some(true));
    }
}
