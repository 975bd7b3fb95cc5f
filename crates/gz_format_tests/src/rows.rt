//! Row records: worked ones, and the first fault of bytes that are none.
use gz_accept::{classic_vote, decide, fast_vote, promise, trim};
use gz_core::{Ballot, FragRef, Items, PutName, PutValue, Row, Session, SiteId, Value, Version};
use gz_rowfmt::{RowError, decode_row, encode_row};
use std::alloc::Global;

pub(crate) const EMPTY: &[u8] = b"GZR1\x00\x00\x00\x00\x00\x00\x00\x00\x00\x00\x00\x00";

pub(crate) const TOMB_VOTE: &[u8] =
    b"GZR1\x00\x00\x00\x00\x00\x00\x00\x00\x00\x00\x00\x01\x00\x00\x00\x00\x00\x00\x00\x01\x01\x00\x00\x00\x00\x00\x00\x00\x00\x00\x00\x00\x00\x00\x00\x00\x00\x00\x00\x00\x00\x01\x00\x00\x00\x01";

pub(crate) const PUT_VOTE: &[u8] =
    b"GZR1\x00\x00\x00\x00\x00\x00\x00\x00\x00\x00\x00\x01\x00\x00\x00\x00\x00\x00\x00\x01\x01\x00\x00\x00\x00\x00\x00\x00\x00\x00\x00\x00\x00\x00\x00\x00\x00\x01\x00\x00\x00\x01\x00\x00\x00\x01\x00\x00\x00\x02\x02\x01\x00AAAAAAAAAAAAAAAAAAAAAAAAAAAAAAAA\x01BBBBBBBBBBBBBBBBBBBBBBBBBBBBBBBB\x02CCCCCCCCCCCCCCCCCCCCCCCCCCCCCCCC";

pub(crate) const PUT_DECIDED: &[u8] =
    b"GZR1\x00\x00\x00\x00\x00\x00\x00\x00\x00\x00\x00\x01\x00\x00\x00\x00\x00\x00\x00\x01\x02\x01\x00\x00\x00\x01\x00\x00\x00\x01\x00\x00\x00\x02\x02\x01\x00AAAAAAAAAAAAAAAAAAAAAAAAAAAAAAAA\x01BBBBBBBBBBBBBBBBBBBBBBBBBBBBBBBB\x02CCCCCCCCCCCCCCCCCCCCCCCCCCCCCCCC";

/// Versions up to 3 are collected, 4 is a tombstone, 7 has a promise, and 9 a vote for another tombstone.
pub(crate) const TRIMMED: &[u8] =
    b"GZR1\x00\x00\x00\x00\x00\x00\x00\x03\x00\x00\x00\x03\x00\x00\x00\x00\x00\x00\x00\x04\x02\x00\x00\x00\x00\x01\x00\x00\x00\x01\x00\x00\x00\x00\x00\x00\x00\x07\x00\x00\x00\x00\x02\x00\x00\x00\x05\x00\x00\x00\x00\x00\x00\x00\x09\x01\x00\x00\x00\x03\x00\x00\x00\x01\x00\x00\x00\x03\x00\x00\x00\x01\x00\x00\x00\x00\x02\x00\x00\x00\x02";

fn tomb(session: Session, seq: u32) -> Option<Value> {
    if seq == 0 {
        return None;
    }
    Some(Value::Tomb {
        name: PutName { session, seq },
    })
}

/// What the first put of session 1 writes of two bytes, in two pieces and one of parity.
fn put(alloc: Global) -> Option<Value> {
    let fragments = [
        FragRef {
            site: SiteId(0),
            digest: *b"AAAAAAAAAAAAAAAAAAAAAAAAAAAAAAAA",
        },
        FragRef {
            site: SiteId(1),
            digest: *b"BBBBBBBBBBBBBBBBBBBBBBBBBBBBBBBB",
        },
        FragRef {
            site: SiteId(2),
            digest: *b"CCCCCCCCCCCCCCCCCCCCCCCCCCCCCCCC",
        },
    ];
    Some(Value::Put(PutValue {
        name: PutName {
            session: Session(1),
            seq: 1,
        },
        length: 2,
        k: 2,
        m: 1,
        fragments: Items::from_slice(alloc, &fragments).ok()?,
    }))
}

fn voted(alloc: Global, value: Option<Value>) -> Option<Row> {
    let mut row = Row::empty(alloc);
    fast_vote(&mut row, Version(1), &value?).ok()?;
    Some(row)
}

fn decided(alloc: Global) -> Option<Row> {
    let mut row = Row::empty(alloc);
    decide(&mut row, Version(1), &put(alloc)?).ok()?;
    Some(row)
}

fn trimmed(alloc: Global) -> Option<Row> {
    let mut row = Row::empty(alloc);
    trim(&mut row, Version(3), &tomb(Session(1), 1)?).ok()?;
    promise(&mut row, Version(7), Ballot::classic(2, Session(5))).ok()?;
    let ballot = Ballot::classic(3, Session(1));
    classic_vote(&mut row, Version(9), ballot, &tomb(Session(2), 2)?).ok()?;
    Some(row)
}

/// Whether the record of a row is these bytes, and is read as the row.
fn is_spelled(alloc: Global, made: Option<Row>, record: &[u8]) -> Option<bool> {
    let made = made?;
    if made.columns().len() > 3 {
        return None;
    }
    let written = encode_row(alloc, &made).ok()?;
    let read = decode_row(alloc, record).ok()?;
    Some(
        written.as_slice() == record
            && read.floor() == made.floor()
            && read.columns() == made.columns(),
    )
}

#[test]
fn worked_rows(rt: HostRuntime) {
    let alloc = rt.alloc();
    let one = tomb(Session(1), 1);
    assert!(rt; is_spelled(alloc, Some(Row::empty(alloc)), EMPTY) == Some(true));
    assert!(rt; is_spelled(alloc, voted(alloc, one), TOMB_VOTE) == Some(true));
    assert!(rt; is_spelled(alloc, voted(alloc, put(alloc)), PUT_VOTE) == Some(true));
    assert!(rt; is_spelled(alloc, decided(alloc), PUT_DECIDED) == Some(true));
    assert!(rt; is_spelled(alloc, trimmed(alloc), TRIMMED) == Some(true));
    assert!(rt; PUT_VOTE.len() == 155 && PUT_DECIDED.len() == 139);
}

/// Whether bytes are refused for this fault.
fn is_refused(alloc: Global, bytes: &[u8], fault: RowError) -> bool {
    match decode_row(alloc, bytes) {
        Ok(_) => false,
        Err(found) => found == fault,
    }
}

/// Records, and the fault where the byte at a place is another one.
const CHANGED: &[(&[u8], usize, u8, RowError)] = &[
    (EMPTY, 3, 0x32, RowError::Magic { at: 0 }),
    (EMPTY, 4, 0x80, RowError::Floor { at: 4 }),
    (EMPTY, 11, 0x01, RowError::Floor { at: 12 }),
    (EMPTY, 15, 0x01, RowError::Short { at: 16 }),
    (EMPTY, 12, 0xff, RowError::Short { at: 16 }),
    (TOMB_VOTE, 15, 0x00, RowError::Trailing { at: 16 }),
    (TOMB_VOTE, 15, 0x02, RowError::Short { at: 50 }),
    (TOMB_VOTE, 11, 0x01, RowError::Order { at: 16 }),
    (TOMB_VOTE, 16, 0x80, RowError::Order { at: 16 }),
    (TOMB_VOTE, 23, 0x00, RowError::Order { at: 16 }),
    (TOMB_VOTE, 24, 0x03, RowError::Kind { at: 24 }),
    (TOMB_VOTE, 24, 0x00, RowError::Ballot { at: 25 }),
    (TOMB_VOTE, 24, 0x02, RowError::ValueField { at: 26 }),
    (TOMB_VOTE, 28, 0x01, RowError::Ballot { at: 25 }),
    (TOMB_VOTE, 32, 0x01, RowError::Ballot { at: 25 }),
    (TOMB_VOTE, 36, 0x01, RowError::Ballot { at: 33 }),
    (TOMB_VOTE, 40, 0x01, RowError::Ballot { at: 33 }),
    (TOMB_VOTE, 41, 0x02, RowError::ValueField { at: 41 }),
    (TOMB_VOTE, 41, 0x01, RowError::Short { at: 50 }),
    (TOMB_VOTE, 45, 0x00, RowError::ValueField { at: 42 }),
    (TOMB_VOTE, 49, 0x00, RowError::ValueField { at: 42 }),
    (PUT_DECIDED, 34, 0x10, RowError::ValueField { at: 34 }),
    (PUT_DECIDED, 35, 0x10, RowError::ValueField { at: 34 }),
    (PUT_DECIDED, 38, 0x00, RowError::ValueField { at: 38 }),
    (PUT_DECIDED, 38, 0x10, RowError::ValueField { at: 39 }),
    (PUT_DECIDED, 39, 0x0f, RowError::ValueField { at: 39 }),
    (PUT_DECIDED, 39, 0x00, RowError::Trailing { at: 106 }),
    (PUT_DECIDED, 39, 0x02, RowError::Short { at: 139 }),
    (PUT_DECIDED, 40, 0x10, RowError::ValueField { at: 40 }),
    (PUT_DECIDED, 73, 0x10, RowError::ValueField { at: 73 }),
    (PUT_DECIDED, 106, 0xff, RowError::ValueField { at: 106 }),
    (TRIMMED, 11, 0x04, RowError::Order { at: 16 }),
    (TRIMMED, 11, 0x02, RowError::Floor { at: 16 }),
    (TRIMMED, 15, 0x00, RowError::Floor { at: 12 }),
    (TRIMMED, 15, 0x02, RowError::Trailing { at: 51 }),
    (TRIMMED, 15, 0x04, RowError::Short { at: 85 }),
    (TRIMMED, 23, 0x05, RowError::Floor { at: 16 }),
    (TRIMMED, 24, 0x01, RowError::Floor { at: 24 }),
    (TRIMMED, 24, 0x00, RowError::Floor { at: 24 }),
    (TRIMMED, 24, 0x03, RowError::Kind { at: 24 }),
];

/// The record with another byte at a place.
pub(crate) fn changed(alloc: Global, record: &[u8], place: usize, byte: u8) -> Option<Vec<u8>> {
    let mut bytes = Vec::from_slice(alloc, record).ok()?;
    *bytes.get_mut(place)? = byte;
    Some(bytes)
}

fn is_refused_changed(
    alloc: Global,
    record: &[u8],
    place: usize,
    byte: u8,
    fault: RowError,
) -> Option<bool> {
    let bytes = changed(alloc, record, place, byte)?;
    Some(is_refused(alloc, &bytes, fault))
}

#[test]
fn first_faults_of_changed_rows(rt: HostRuntime) {
    for (record, place, byte, fault) in CHANGED {
        assert!(rt; is_refused_changed(rt.alloc(), record, *place, *byte, *fault) == Some(true));
    }
}

/// Records, and the places of their fields.
const FIELDS: &[(&[u8], &[usize])] = &[
    (EMPTY, &[0, 4, 12]),
    (TOMB_VOTE, &[0, 4, 12, 16, 24, 25, 33, 41, 42]),
    (
        PUT_DECIDED,
        &[
            0, 4, 12, 16, 24, 25, 26, 34, 38, 39, 40, 41, 73, 74, 106, 107,
        ],
    ),
    (
        TRIMMED,
        &[0, 4, 12, 16, 24, 25, 26, 34, 42, 43, 51, 59, 60, 68, 76, 77],
    ),
];

/// The last of these places that isn't above `len`.
fn last_place(places: &[usize], len: usize) -> usize {
    let mut last = 0;
    for place in places {
        if *place <= len {
            last = *place;
        }
    }
    last
}

/// Whether each beginning of a record is refused since the field where it ends isn't whole, and the record with a byte more
/// for that byte.
fn are_refused(alloc: Global, record: &[u8], places: &[usize]) -> Option<bool> {
    for len in 0..record.len() {
        let at = last_place(places, len);
        if !is_refused(alloc, &record[..len], RowError::Short { at }) {
            return Some(false);
        }
    }
    let mut longer = Vec::from_slice(alloc, record).ok()?;
    longer.push(0).ok()?;
    Some(is_refused(alloc, &longer, RowError::Trailing { at: record.len() }))
}

#[test]
fn first_faults_of_cut_rows(rt: HostRuntime) {
    for (record, places) in FIELDS {
        assert!(rt; are_refused(rt.alloc(), record, places) == Some(true));
    }
}

/// Bytes that begin as no record does, and a count that nothing stands behind.
#[test]
fn first_faults_of_heads(rt: HostRuntime) {
    let alloc = rt.alloc();
    let many = b"GZR1\x00\x00\x00\x00\x00\x00\x00\x00\xff\xff\xff\xff";
    assert!(rt; is_refused(alloc, b"GZR2", RowError::Magic { at: 0 }));
    assert!(rt; is_refused(alloc, many, RowError::Short { at: 16 }));
}
