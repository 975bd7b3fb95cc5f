//! Records that are shown, over a shelf and a sink in memory: how each run ends, and what it writes.
use crate::runs::{Case, holds, played};
use std::alloc::{AllocError, Global};
use std::test::Fail;

const TOMB_VOTE: &[u8] =
    b"GZR1\x00\x00\x00\x00\x00\x00\x00\x00\x00\x00\x00\x01\x00\x00\x00\x00\x00\x00\x00\x01\x01\x00\x00\x00\x00\x00\x00\x00\x00\x00\x00\x00\x00\x00\x00\x00\x00\x00\x00\x00\x00\x01\x00\x00\x00\x01";

const TOMB_VOTE_LINES: &str = "floor 0\n1 open 0.0 vote 0.0 tomb 1.1\n";

const FRAGMENT: &[u8] =
    b"GZF1\x01a\x00\x00\x00\x01\x00\x00\x00\x01\x02\x02\x01\x00\x00\x00\x02\x07";

/// What is shown of a text as a record, in which nothing fails.
fn shown<'a>(
    words: &'a [&'a str],
    text: &'a [u8],
    number: u8,
    status: &'a str,
    lines: &'a str,
) -> Case<'a> {
    Case {
        words,
        ..played(text, number, status, lines)
    }
}

/// Words and the bytes of the file `s`, and what comes of them.
static RECORDS: [(&[&str], &[u8], u8, &str, &str); 6] = [
    (&["show", "row", "s"], TOMB_VOTE, 0, "done", TOMB_VOTE_LINES),
    (
        &["show", "fragment", "s"],
        FRAGMENT,
        0,
        "done",
        "key a put 1.1 index 2 k 2 m 1 length 2 piece 07\n",
    ),
    (
        &["show", "row", "s"],
        FRAGMENT,
        10,
        "record: magic at 0",
        "",
    ),
    (
        &["show", "fragment", "s"],
        TOMB_VOTE,
        10,
        "record: magic at 0",
        "",
    ),
    (&["show", "row", "s"], b"", 10, "record: short at 0", ""),
    (&["show", "row", "none"], b"", 4, "no file none", ""),
];

#[test]
fn records_are_shown(rt: HostRuntime) -> Result<(), Fail> {
    for (words, text, number, status, lines) in &RECORDS {
        assert!(rt; holds(rt.alloc(), &shown(words, text, *number, status, lines))?);
    }
    let cut = shown(
        &["show", "row", "s"],
        &TOMB_VOTE[..49],
        10,
        "record: short at 42",
        "",
    );
    assert!(rt; holds(rt.alloc(), &cut)?);
    Ok(())
}

/// Calls of the shelf and the sink that fail while a row is shown, or none, and what comes of it.
static FAILURES: [(u32, u32, u8, &str, &str); 5] = [
    (1, 0, 3, "cannot read s", ""),
    (2, 0, 0, "done", TOMB_VOTE_LINES),
    (0, 1, 11, "cannot write", ""),
    (0, 2, 11, "cannot write", TOMB_VOTE_LINES),
    (0, 3, 0, "done", TOMB_VOTE_LINES),
];

#[test]
fn each_outside_call_of_a_show_fails_in_turn(rt: HostRuntime) -> Result<(), Fail> {
    for (shelf_fails, sink_fails, number, status, lines) in &FAILURES {
        let case = Case {
            shelf_fails: *shelf_fails,
            sink_fails: *sink_fails,
            ..shown(&["show", "row", "s"], TOMB_VOTE, *number, status, lines)
        };
        assert!(rt; holds(rt.alloc(), &case)?);
    }
    Ok(())
}

/// Words of no form.
static NO_FORM: [&[&str]; 7] = [
    &["show"],
    &["show", "row"],
    &["show", "s"],
    &["show", "rows", "s"],
    &["show", "Row", "s"],
    &["show", "row", "-s"],
    &["show", "row", "s", "s"],
];

#[test]
fn words_that_show_nothing(rt: HostRuntime) -> Result<(), Fail> {
    for words in &NO_FORM {
        assert!(rt; holds(rt.alloc(), &shown(words, TOMB_VOTE, 2, "usage", ""))?);
    }
    Ok(())
}

/// Whether a file of so many zeros ends so as a row.
fn zeros_are_shown(
    alloc: Global,
    length: usize,
    number: u8,
    status: &str,
) -> Result<bool, AllocError> {
    let zeros = vec![in alloc; 0u8; length]?;
    holds(
        alloc,
        &shown(&["show", "row", "s"], &zeros, number, status, ""),
    )
}

#[test]
fn the_file_of_a_record_has_a_limit(rt: HostRuntime) -> Result<(), Fail> {
    assert!(rt; zeros_are_shown(rt.alloc(), 67_108_865, 5, "file too large s")?);
    assert!(rt; zeros_are_shown(rt.alloc(), 67_108_864, 10, "record: magic at 0")?);
    Ok(())
}
