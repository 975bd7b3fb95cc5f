//! The lines of worked records, and the word and the place of the first fault of bytes that are none.
use crate::fragments::RECORDS;
use crate::rows::{EMPTY, PUT_DECIDED, PUT_VOTE, TOMB_VOTE, TRIMMED, changed};
use gz_show::{ShowError, show_fragment, show_row};
use std::alloc::Global;

/// Row records, and their lines.
const ROWS: &[(&[u8], &str)] = &[
    (EMPTY, "floor 0\n"),
    (TOMB_VOTE, "floor 0\n1 open 0.0 vote 0.0 tomb 1.1\n"),
    (
        PUT_VOTE,
        "floor 0\n1 open 0.0 vote 0.0 put 1.1 2 2+1 0:4141414141414141414141414141414141414141414141414141414141414141 1:4242424242424242424242424242424242424242424242424242424242424242 2:4343434343434343434343434343434343434343434343434343434343434343\n",
    ),
    (
        PUT_DECIDED,
        "floor 0\n1 decided put 1.1 2 2+1 0:4141414141414141414141414141414141414141414141414141414141414141 1:4242424242424242424242424242424242424242424242424242424242424242 2:4343434343434343434343434343434343434343434343434343434343434343\n",
    ),
    (
        TRIMMED,
        "floor 3\n4 decided tomb 1.1\n7 open 2.5\n9 open 3.1 vote 3.1 tomb 2.2\n",
    ),
];

/// The lines of the three fragments of `RECORDS`.
const LINES: [&str; 3] = [
    "key a put 1.1 index 0 k 2 m 1 length 2 piece 01\n",
    "key a put 1.1 index 1 k 2 m 1 length 2 piece 02\n",
    "key a put 1.1 index 2 k 2 m 1 length 2 piece 07\n",
];

/// The record of a fragment of an object without bytes, the last of sixteen.
const EMPTY_FRAGMENT: &[u8] =
    b"GZF1\x02~!\xff\xff\xff\xff\x00\x00\x00\x0c\x0f\x0c\x04\x00\x00\x00\x00";

/// Row records, and the word and the place of the first fault where the byte at a place is another one.
const CHANGED: &[(&[u8], usize, u8, &str)] = &[
    (EMPTY, 3, 0x32, "magic at 0"),
    (EMPTY, 4, 0x80, "floor at 4"),
    (EMPTY, 11, 0x01, "floor at 12"),
    (EMPTY, 12, 0xff, "short at 16"),
    (TOMB_VOTE, 15, 0x00, "trailing at 16"),
    (TOMB_VOTE, 23, 0x00, "order at 16"),
    (TOMB_VOTE, 24, 0x03, "kind at 24"),
    (TOMB_VOTE, 24, 0x00, "ballot at 25"),
    (TOMB_VOTE, 40, 0x01, "ballot at 33"),
    (TOMB_VOTE, 41, 0x02, "value at 41"),
    (TOMB_VOTE, 49, 0x00, "value at 42"),
    (TRIMMED, 23, 0x05, "floor at 16"),
    (TRIMMED, 24, 0x01, "floor at 24"),
];

/// Bytes that are no fragment record, and the word and the place of their first fault.
const FAULTS: &[(&[u8], &str)] = &[
    (b"GZ", "short at 0"),
    (b"GZR1", "magic at 0"),
    (b"GZF1\x00", "field at 4"),
    (b"GZF1\x01 ", "field at 5"),
    (
        b"GZF1\x01a\x00\x00\x00\x01\x00\x00\x00\x01\x03\x02\x01\x00\x00\x00\x02\x07",
        "field at 16",
    ),
    (
        b"GZF1\x01a\x00\x00\x00\x01\x00\x00\x00\x01\x02\x02\x01\x00\x00\x00\x02",
        "short at 21",
    ),
    (
        b"GZF1\x01a\x00\x00\x00\x01\x00\x00\x00\x01\x02\x02\x01\x00\x00\x00\x02\x07\x00",
        "trailing at 22",
    ),
];

/// Whether these lines are shown.
fn are_lines(shown: Result<Vec<u8>, ShowError>, lines: &str) -> bool {
    match shown {
        Ok(text) => text.as_slice() == lines.as_bytes(),
        Err(_) => false,
    }
}

/// Whether nothing is shown, since there is this fault.
fn is_fault(alloc: Global, shown: Result<Vec<u8>, ShowError>, fault: &str) -> Option<bool> {
    match shown {
        Ok(_) => Some(false),
        Err(error) => {
            let text = error.to_string(alloc).ok()?;
            Some(text.as_str() == fault)
        }
    }
}

#[test]
fn lines_of_rows(rt: HostRuntime) {
    for (record, lines) in ROWS {
        assert!(rt; are_lines(show_row(rt.alloc(), record), lines));
    }
}

#[test]
fn lines_of_fragments(rt: HostRuntime) {
    let alloc = rt.alloc();
    for ((_, _, record), line) in RECORDS.iter().zip(&LINES) {
        assert!(rt; are_lines(show_fragment(alloc, record), line));
    }
    let line = "key ~! put 4294967295.12 index 15 k 12 m 4 length 0 piece -\n";
    assert!(rt; are_lines(show_fragment(alloc, EMPTY_FRAGMENT), line));
}

/// Whether nothing is shown of the row record with another byte at a place, since there is this fault.
fn is_fault_changed(
    alloc: Global,
    record: &[u8],
    place: usize,
    byte: u8,
    fault: &str,
) -> Option<bool> {
    let bytes = changed(alloc, record, place, byte)?;
    is_fault(alloc, show_row(alloc, &bytes), fault)
}

/// Whether nothing is shown of the row record with a byte more.
fn is_fault_longer(alloc: Global, record: &[u8], fault: &str) -> Option<bool> {
    let mut bytes = Vec::from_slice(alloc, record).ok()?;
    bytes.push(0).ok()?;
    is_fault(alloc, show_row(alloc, &bytes), fault)
}

#[test]
fn words_of_rows(rt: HostRuntime) {
    let alloc = rt.alloc();
    for (record, place, byte, fault) in CHANGED {
        assert!(rt; is_fault_changed(alloc, record, *place, *byte, fault) == Some(true));
    }
    assert!(rt; is_fault(alloc, show_row(alloc, b""), "short at 0") == Some(true));
    assert!(rt; is_fault(alloc, show_row(alloc, &TOMB_VOTE[..49]), "short at 42") == Some(true));
    assert!(rt; is_fault_longer(alloc, TOMB_VOTE, "trailing at 50") == Some(true));
}

#[test]
fn words_of_fragments(rt: HostRuntime) {
    for (bytes, fault) in FAULTS {
        let shown = show_fragment(rt.alloc(), bytes);
        assert!(rt; is_fault(rt.alloc(), shown, fault) == Some(true));
    }
}
