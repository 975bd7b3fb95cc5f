//! The names that the answers of logs give to the versions of an object.
use gz_core::{Key, PutName};
use gz_history::serialise;
use gz_logs::parse_log;
use std::alloc::Global;

/// A log, a key, and the numbers of the names of its versions.
type Case = (&'static str, &'static str, &'static [(u32, u32)]);

/// The names of the versions of an object.
fn names_in(alloc: Global, text: &str, key: &str) -> Option<Vec<PutName>> {
    let key = Key::new(Vec::from_slice(alloc, key.as_bytes()).ok()?)?;
    let calls = parse_log(alloc, text.as_bytes()).ok()?;
    serialise(alloc, calls.as_slice(), &key).ok()
}

/// Whether names have these numbers.
fn are(names: &[PutName], numbers: &[(u32, u32)]) -> bool {
    for (name, (session, seq)) in names.iter().zip(numbers) {
        if name.session_number() != *session || name.seq_number() != *seq {
            return false;
        }
    }
    names.len() == numbers.len()
}

/// Whether a log gives these names.
fn gives(alloc: Global, text: &str, key: &str, numbers: &[(u32, u32)]) -> bool {
    match names_in(alloc, text, key) {
        None => false,
        Some(names) => are(names.as_slice(), numbers),
    }
}

/// Logs with their names. Of several names of a version the first one counts.
const CASES: &[Case] = &[
    (
        "1.1 put a 01 2 20 ok 1\n1.2 delete a - 21 33 ok 2\n1.3 get a - 34 40 gone 2 1.2\n1.4 put a 03 41 59 ok 3\n1.5 getat a 1 60 70 bytes 1 1.1 01\nend 5 70 0\n",
        "a",
        &[(1, 1), (1, 2), (1, 4)],
    ),
    (
        "1.1 put a 01 2 20 ok 1\n1.2 delete a - 21 33 ok 2\n1.3 get a - 34 40 gone 2 1.2\n1.4 put a 03 41 59 ok 3\n1.5 getat a 1 60 70 bytes 1 1.1 01\nend 5 70 0\n",
        "b",
        &[],
    ),
    ("end 0 0 0\n", "a", &[]),
    (
        "1.1 put a 01 1 20 ok 3\n2.1 put a 01 2 21 thin 1 0\n3.1 put b 01 3 22 ok 2\nend 3 22 0\n",
        "a",
        &[(2, 1), (1, 1)],
    ),
    (
        "1.1 get a - 1 2 bytes 4 9.1 01\n1.2 get a - 3 4 incomplete 2 8.1 MMM\n1.3 get a - 5 6 gone 3 7.1\n1.4 collect a 1 7 8 swept 5 1\n1.5 getat a 7 9 10 unborn 6\n1.6 getat a 1 11 12 collected 1\nend 6 12 0\n",
        "a",
        &[(8, 1), (7, 1), (9, 1)],
    ),
    (
        "1.1 put a 01 1 20 ok 1\n2.1 put a 01 2 21 ok 1\nend 2 21 0\n",
        "a",
        &[(1, 1)],
    ),
    (
        "1.1 put a 01 1 - open\n1.2 put a 01 2 3 unsure contended 1\n1.3 put a 01 4 5 short 0\n1.4 put a 01 6 7 noquorum fast 1\nend 4 7 0\n",
        "a",
        &[],
    ),
];

#[test]
fn names_are_listed_by_version(rt: HostRuntime) {
    for (text, key, numbers) in CASES {
        assert!(rt; gives(rt.alloc(), text, key, numbers));
    }
}
