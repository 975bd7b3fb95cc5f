//! Logs are read, and the same text is written of what was read.
use gz_history::{legal, log_text};
use gz_logs::parse_log;
use std::alloc::Global;
use std::test::Fail;

/// A log that is legal: how many calls, events and skipped events it tells of, and its text.
type Log = (usize, u32, u32, &'static str);

/// How many calls a text has that reads as a legal log.
fn legal_calls(alloc: Global, text: &str) -> Option<usize> {
    match parse_log(alloc, text.as_bytes()) {
        Err(_) => None,
        Ok(calls) => match legal(calls.as_slice()) {
            Err(_) => None,
            Ok(()) => Some(calls.len()),
        },
    }
}

/// The text that is written of what was read, with these counts of events.
fn rewritten(alloc: Global, text: &str, events: u32, skipped: u32) -> Option<Vec<u8>> {
    let calls = parse_log(alloc, text.as_bytes()).ok()?;
    log_text(alloc, calls.as_slice(), events, skipped).ok()
}

/// Whether a text reads as this log.
fn reads_as(alloc: Global, text: &str, log: Log) -> bool {
    let (calls, events, skipped, written) = log;
    match rewritten(alloc, text, events, skipped) {
        None => false,
        Some(again) => {
            again.as_slice() == written.as_bytes() && legal_calls(alloc, text) == Some(calls)
        }
    }
}

/// Reads each log of a table; the place of the first that comes out otherwise.
fn read_each(alloc: Global, logs: &[Log]) -> Result<(), usize> {
    for (place, log) in logs.iter().enumerate() {
        let (_, _, _, text) = *log;
        if !reads_as(alloc, text, *log) {
            return Err(place);
        }
    }
    Ok(())
}

/// Logs of runs.
const RUNS: &[Log] = &[
    (
        2,
        31,
        0,
        "1.1 put a 0102 2 20 ok 1\n1.2 get a - 21 31 bytes 1 1.1 0102\nend 2 31 0\n",
    ),
    (1, 6, 0, "1.1 get a - 2 6 absent\nend 1 6 0\n"),
    (
        2,
        31,
        0,
        "1.1 put a - 2 20 ok 1\n1.2 get a - 21 31 bytes 1 1.1 -\nend 2 31 0\n",
    ),
    (
        2,
        82,
        0,
        "1.1 put a 01 3 50 ok 1\n2.1 put a 02 4 82 ok 2\nend 2 82 0\n",
    ),
    (
        2,
        35,
        0,
        "1.1 put a 0102 2 - open\n2.1 get a - 15 35 bytes 1 1.1 0102\nend 2 35 0\n",
    ),
    (
        4,
        65,
        0,
        "1.1 put a 01 2 20 ok 1\n1.2 put a 02 24 - open\n2.1 get a - 34 44 bytes 1 1.1 01\n2.2 get a - 45 65 bytes 2 1.2 02\nend 4 65 0\n",
    ),
    (
        1,
        9,
        0,
        "1.1 put a 0102 2 9 unsure contended 1\nend 1 9 0\n",
    ),
    (
        4,
        72,
        0,
        "1.1 put a 01 2 - open\n2.1 put a 02 15 45 ok 2\n2.2 collect a 1 46 66 swept 1 2\n2.3 getat a 1 68 72 collected 1\nend 4 72 0\n",
    ),
    (1, 6, 0, "1.1 put a 0102 2 6 noquorum look 1\nend 1 6 0\n"),
    (
        2,
        33,
        0,
        "1.1 put a 0102 2 12 unsure noquorum fast 0\n1.2 get a - 13 33 bytes 1 1.1 0102\nend 2 33 0\n",
    ),
    (
        5,
        70,
        0,
        "1.1 put a 01 2 20 ok 1\n1.2 delete a - 21 33 ok 2\n1.3 get a - 34 40 gone 2 1.2\n1.4 put a 03 41 59 ok 3\n1.5 getat a 1 60 70 bytes 1 1.1 01\nend 5 70 0\n",
    ),
    (
        4,
        63,
        0,
        "1.1 put a 01 2 20 ok 1\n1.2 put a 0102 21 37 thin 2 1\n1.3 get a - 38 50 incomplete 2 1.2 WMM\n1.4 collect a 1 51 63 held notwhole WMM\nend 4 63 0\n",
    ),
    (1, 6, 0, "1.1 put a 0102 2 6 short 1\nend 1 6 0\n"),
    (
        3,
        49,
        1,
        "1.1 put a 0102 2 20 ok 1\n1.2 get a - 22 34 bytes 1 1.1 0102\n1.3 get a - 36 48 incomplete 1 1.1 DDW\nend 3 49 1\n",
    ),
    (
        8,
        109,
        0,
        "1.1 put a 01 2 20 ok 1\n1.2 put a 02 21 39 ok 2\n1.3 put a 03 40 58 ok 3\n1.4 collect a 1 59 85 swept 2 6\n1.5 getat a 1 86 90 collected 2\n1.6 getat a 5 91 95 unborn 3\n1.7 get a - 96 104 bytes 3 1.3 03\n1.8 collect a 1 105 109 held noolder\nend 8 109 0\n",
    ),
    (
        4,
        70,
        0,
        "1.1 put a 01 3 70 unsure trimmed 1\n2.1 put a 02 8 26 ok 1\n2.2 put a 03 27 45 ok 2\n2.3 collect a 1 46 66 swept 1 3\nend 4 70 0\n",
    ),
    (0, 4, 2, "end 0 4 2\n"),
    (
        2,
        45,
        0,
        "1.1 put docs/readme 68656c6c6f2c2067697a61 2 30 ok 1\n1.2 get docs/readme - 31 45 bytes 1 1.1 68656c6c6f2c2067697a61\nend 2 45 0\n",
    ),
    (
        2,
        24,
        0,
        "1.1 put a 0102 2 - open\n2.1 get a - 15 24 contended 1\nend 2 24 0\n",
    ),
];

/// Further answers of each kind of call, and the bounds of numbers and keys.
const OTHERS: &[Log] = &[
    (
        1,
        4_294_967_295,
        4_294_967_295,
        "4294967295.4294967295 delete a - 0 4000000 noquorum accept 4294967295\nend 1 4294967295 4294967295\n",
    ),
    (
        5,
        9,
        0,
        "1.1 delete a - 1 2 contended 0\n1.2 delete a - 3 4 unsure noquorum prepare 3\n1.3 delete a - 5 6 unsure contended 8\n1.4 delete a - 7 8 unsure trimmed 9223372036854775807\n1.5 delete a - 9 - open\nend 5 9 0\n",
    ),
    (
        6,
        10,
        0,
        "1.1 get a - 1 2 noquorum fast 0\n1.2 get a - 3 - open\n1.3 getat a 9223372036854775807 4 5 noquorum trim 2\n1.4 getat a 1 6 7 contended 4294967295\n1.5 getat a 1 8 9 unborn 0\n1.6 getat a 7 10 - open\nend 6 10 0\n",
    ),
    (
        4,
        7,
        0,
        "1.1 collect a 1000 1 2 noquorum trim 1\n1.2 collect a 1 3 4 contended 2\n1.3 collect a 2 5 - open\n1.4 collect a 1 6 7 held notwhole WDMGFWDMGFWDMGFW\nend 4 7 0\n",
    ),
    (
        4,
        26,
        0,
        "1.1 put a 00ff 1 20 thin 1 0\n1.2 delete a - 21 22 ok 2\n1.3 getat a 1 23 24 incomplete 1 1.1 G\n1.4 getat a 2 25 26 gone 2 1.2\nend 4 26 0\n",
    ),
    (
        2,
        4,
        0,
        "1.1 put !~ abcdef 1 3 contended 5\n2.1 collect !~ 3 2 4 held noolder\nend 2 4 0\n",
    ),
];

/// Histories at the edge of a rule.
const EDGES: &[Log] = &[
    (
        3,
        6,
        0,
        "1.1 getat a 2 1 2 unborn 1\n1.2 getat a 2 3 4 collected 2\n1.3 getat a 2 5 6 collected 9\nend 3 6 0\n",
    ),
    (
        3,
        6,
        0,
        "1.1 put a 01 1 2 ok 1\n1.2 put a 02 3 4 ok 2\n1.3 getat a 1 5 6 bytes 1 1.1 01\nend 3 6 0\n",
    ),
    (
        3,
        6,
        0,
        "1.1 put a 01 1 2 ok 9\n1.2 collect a 1 3 4 swept 2 0\n1.3 getat a 1 5 6 collected 2\nend 3 6 0\n",
    ),
    (
        3,
        6,
        0,
        "1.1 collect a 1 1 2 swept 2 0\n1.2 put a 01 3 4 ok 4\n1.3 getat a 9 5 6 unborn 4\nend 3 6 0\n",
    ),
    (
        3,
        6,
        0,
        "1.1 put a 01 1 2 ok 7\n1.2 put b 01 3 4 ok 1\n1.3 get c - 5 6 absent\nend 3 6 0\n",
    ),
];

#[test]
fn logs_are_read_back(rt: HostRuntime) -> Result<(), Fail> {
    read_each(rt.alloc(), RUNS)?;
    read_each(rt.alloc(), OTHERS)?;
    read_each(rt.alloc(), EDGES)?;
    Ok(())
}

/// A log.
const A_LOG: Log = (
    2,
    31,
    0,
    "1.1 put a 0102 2 20 ok 1\n1.2 get a - 21 31 bytes 1 1.1 0102\nend 2 31 0\n",
);

/// Other texts that read as the same calls: without the last LF, with CRs, and with blanks, empty lines and comments.
const SAME_CALLS: &[&str] = &[
    "1.1 put a 0102 2 20 ok 1\n1.2 get a - 21 31 bytes 1 1.1 0102\nend 2 31 0",
    "1.1 put a 0102 2 20 ok 1\r\n1.2 get a - 21 31 bytes 1 1.1 0102\r\nend 2 31 0\r\n",
    "# a log\n\n  1.1   put a 0102 2 20  ok 1 \n   \n#1.2\n1.2 get a - 21 31 bytes 1 1.1 0102\nend  2 31 0\n\n# end 3\n \n#",
    "\r\n1.1 put a 0102 2 20 ok 1\n1.2 get a - 21 31 bytes 1 1.1 0102\nend 2 9 7\n\r\n",
];

#[test]
fn lines_are_skipped(rt: HostRuntime) {
    for text in SAME_CALLS {
        assert!(rt; reads_as(rt.alloc(), text, A_LOG));
    }
}
