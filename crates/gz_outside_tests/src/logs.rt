//! Texts of logs.
use crate::records::Asked::{Delete, Get, Put, PutNothing};
use crate::records::Told::{
    Absent, Contended, Gone, NoQuorum, Open, Placed, Read, UnsureContended, UnsureNoQuorum,
};
use crate::records::{Brief, Numbered, Otherwise, calls_of};
use gz_history::log_text;
use std::alloc::Global;
use std::test::Fail;

/// The calls of a session, of which there were so many events, and the text of their log.
type Case = (&'static [Brief], u32, &'static str);

/// The log of these calls of a session, of which there were so many events, three of them skipped.
fn log(alloc: Global, briefs: &[Brief], events: u32) -> Option<Vec<u8>> {
    let calls = calls_of(alloc, briefs, Numbered::InTurn)?;
    log_text(alloc, calls.as_slice(), events, 3).ok()
}

/// Whether the log of these calls is the text.
fn reads(alloc: Global, case: &Case) -> bool {
    let (briefs, events, text) = case;
    match log(alloc, briefs, *events) {
        None => false,
        Some(log) => log.as_slice() == text.as_bytes(),
    }
}

/// Reads each log of a table.
fn read(alloc: Global, table: &'static str, cases: &[Case]) -> Result<(), Otherwise> {
    for (place, case) in cases.iter().enumerate() {
        if !reads(alloc, case) {
            return Err((table, place));
        }
    }
    Ok(())
}

const PUT: Brief = (1, b'a', Put(0x0102), 2, 14, Placed(1));

const SEVERAL_CALLS: &[Case] = &[
    (&[], 0, "end 0 0 3\n"),
    (
        &[PUT, (1, b'a', Get, 15, 21, Read(1, 1, 0x0102))],
        21,
        "1.1 put a 0102 2 14 ok 1\n1.2 get a - 15 21 bytes 1 1.1 0102\nend 2 21 3\n",
    ),
    (
        &[
            (1, b'a', Delete, 2, 14, Placed(1)),
            (1, b'a', Get, 15, 21, Gone(1, 1)),
            (1, b'b', Get, 22, 26, Absent),
        ],
        26,
        "1.1 delete a - 2 14 ok 1\n1.2 get a - 15 21 gone 1 1.1\n1.3 get b - 22 26 absent\nend 3 26 3\n",
    ),
];

const PUTS: &[Case] = &[
    (
        &[(2, b'a', PutNothing, 2, 14, Placed(1))],
        6,
        "2.1 put a - 2 14 ok 1\nend 1 6 3\n",
    ),
    (
        &[(2, b'a', Put(1), 2, 6, NoQuorum)],
        6,
        "2.1 put a 0001 2 6 noquorum look 1\nend 1 6 3\n",
    ),
    (
        &[(2, b'a', Put(0xabcd), 2, 6, Contended)],
        6,
        "2.1 put a abcd 2 6 contended 1\nend 1 6 3\n",
    ),
    (
        &[(2, b'a', Put(1), 2, 10, UnsureNoQuorum)],
        6,
        "2.1 put a 0001 2 10 unsure noquorum fast 0\nend 1 6 3\n",
    ),
    (
        &[(2, b'a', Put(1), 2, 10, UnsureContended)],
        6,
        "2.1 put a 0001 2 10 unsure contended 1\nend 1 6 3\n",
    ),
    (
        &[(2, b'a', Put(1), 2, 0, Open)],
        6,
        "2.1 put a 0001 2 - open\nend 1 6 3\n",
    ),
];

#[test]
fn logs_have_their_texts(rt: HostRuntime) -> Result<(), Fail> {
    read(rt.alloc(), "several calls", SEVERAL_CALLS)?;
    read(rt.alloc(), "puts", PUTS)?;
    Ok(())
}
