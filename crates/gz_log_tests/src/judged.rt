//! Logs that break one rule of histories.
use gz_core::PutName;
use gz_history::legal;
use gz_logs::parse_log;
use std::alloc::Global;
use std::test::Fail;

/// The rule that is broken, and the two calls that break it.
type Judged = (u8, (u32, u32), (u32, u32));

/// A log, and how it is judged.
type Case = (&'static str, Judged);

fn numbers(name: PutName) -> (u32, u32) {
    (name.session_number(), name.seq_number())
}

/// What is broken in a log.
fn broken_in(alloc: Global, text: &str) -> Option<Judged> {
    match parse_log(alloc, text.as_bytes()) {
        Err(_) => None,
        Ok(calls) => match legal(calls.as_slice()) {
            Ok(()) => None,
            Err(broken) => Some((broken.clause, numbers(broken.a), numbers(broken.b))),
        },
    }
}

/// Judges each log of a table; the place of the first that comes out otherwise.
fn judge_each(alloc: Global, cases: &[Case]) -> Result<(), usize> {
    for (place, (text, judged)) in cases.iter().enumerate() {
        if broken_in(alloc, text) != Some(*judged) {
            return Err(place);
        }
    }
    Ok(())
}

/// Logs in which what was read, or what was shown, is not what was written.
const WITNESSED: &[Case] = &[
    (
        "1.1 put a 0102 2 20 ok 1\n1.2 get a - 21 31 bytes 1 1.1 0103\nend 2 31 0\n",
        (5, (1, 2), (1, 1)),
    ),
    (
        "1.1 put a 0102 2 20 ok 1\n1.2 get a - 21 31 absent\nend 2 31 0\n",
        (3, (1, 1), (1, 2)),
    ),
];

/// Answers about another version than the one that was asked for, and nothing else.
const ASKED: &[Case] = &[
    (
        "1.1 put a 01 1 2 ok 1\n1.2 getat a 2 3 4 bytes 1 1.1 01\nend 2 4 0\n",
        (6, (1, 2), (1, 2)),
    ),
    (
        "1.1 put a 01 1 2 ok 2\n1.2 getat a 1 3 4 bytes 2 1.1 01\nend 2 4 0\n",
        (6, (1, 2), (1, 2)),
    ),
    (
        "1.1 delete a - 1 2 ok 1\n1.2 getat a 2 3 4 gone 1 1.1\nend 2 4 0\n",
        (6, (1, 2), (1, 2)),
    ),
    (
        "1.1 put a 01 1 2 thin 1 0\n1.2 getat a 3 3 4 incomplete 1 1.1 MMW\nend 2 4 0\n",
        (6, (1, 2), (1, 2)),
    ),
    (
        "1.1 getat a 1 3 4 unborn 1\nend 1 4 0\n",
        (6, (1, 1), (1, 1)),
    ),
    (
        "1.1 getat a 2 1 2 unborn 1\n1.2 getat a 1 3 4 unborn 1\nend 2 4 0\n",
        (6, (1, 2), (1, 2)),
    ),
    (
        "1.1 getat a 3 1 2 unborn 7\nend 1 2 0\n",
        (6, (1, 1), (1, 1)),
    ),
    (
        "1.1 getat a 2 1 2 collected 1\nend 1 2 0\n",
        (6, (1, 1), (1, 1)),
    ),
    (
        "1.1 getat a 2 1 2 collected 2\n1.2 getat b 9 3 4 collected 8\nend 2 4 0\n",
        (6, (1, 2), (1, 2)),
    ),
];

/// Versions that collections and reads of old versions show, and those that are called the latest.
const SHOWN: &[Case] = &[
    (
        "1.1 collect a 1 1 2 swept 2 0\n1.2 put a 01 3 4 ok 3\nend 2 4 0\n",
        (3, (1, 1), (1, 2)),
    ),
    (
        "1.1 collect a 1 1 2 swept 2 0\n1.2 get a - 3 4 absent\nend 2 4 0\n",
        (3, (1, 1), (1, 2)),
    ),
    (
        "1.1 getat a 1 1 2 collected 2\n1.2 put a 01 3 4 ok 3\nend 2 4 0\n",
        (3, (1, 1), (1, 2)),
    ),
    (
        "1.1 put a 01 1 2 ok 4\n1.2 getat a 5 3 4 unborn 3\nend 2 4 0\n",
        (3, (1, 1), (1, 2)),
    ),
    (
        "1.1 getat a 5 1 2 unborn 4\n1.2 put a 01 3 4 thin 4 1\nend 2 4 0\n",
        (3, (1, 1), (1, 2)),
    ),
    (
        "1.1 put a 01 1 2 thin 4 1\n1.2 put a 01 3 4 ok 3\nend 2 4 0\n",
        (3, (1, 1), (1, 2)),
    ),
];

/// Two names of a version, and two versions of a name.
const NAMED: &[Case] = &[
    (
        "1.1 put a 01 1 4 thin 1 0\n2.1 put a 01 2 5 ok 1\nend 2 5 0\n",
        (1, (1, 1), (2, 1)),
    ),
    (
        "1.1 put a 01 1 4 ok 1\n2.1 get a - 2 5 incomplete 1 3.1 MMM\nend 2 5 0\n",
        (1, (1, 1), (2, 1)),
    ),
    (
        "1.1 put a 01 1 4 thin 1 0\n2.1 getat a 2 2 5 incomplete 2 1.1 MMM\nend 2 5 0\n",
        (2, (1, 1), (2, 1)),
    ),
];

/// Reads that name what they cannot have read, or return other bytes.
const SOURCES: &[Case] = &[
    (
        "1.1 get a - 2 5 incomplete 2 3.1 MMM\nend 1 5 0\n",
        (4, (1, 1), (3, 1)),
    ),
    (
        "1.1 get a - 2 5 bytes 2 1.1 01\nend 1 5 0\n",
        (4, (1, 1), (1, 1)),
    ),
    (
        "1.1 put a 01 1 3 short 0\n1.2 get a - 4 5 bytes 1 1.1 01\nend 2 5 0\n",
        (4, (1, 2), (1, 1)),
    ),
    (
        "1.1 delete a - 1 3 ok 1\n1.2 get a - 4 5 incomplete 1 1.1 MMM\nend 2 5 0\n",
        (4, (1, 2), (1, 1)),
    ),
    (
        "1.1 put a 01 1 3 ok 1\n1.2 getat a 1 4 5 gone 1 1.1\nend 2 5 0\n",
        (4, (1, 2), (1, 1)),
    ),
    (
        "1.1 put b 01 1 3 ok 1\n1.2 getat a 1 4 5 bytes 1 1.1 01\nend 2 5 0\n",
        (4, (1, 2), (1, 1)),
    ),
    (
        "1.1 getat a 1 1 2 incomplete 1 1.2 MMM\n1.2 put a 01 3 - open\nend 2 4 0\n",
        (4, (1, 1), (1, 2)),
    ),
    (
        "1.1 put a 01 1 3 ok 1\n1.2 getat a 1 4 5 bytes 1 1.1 -\nend 2 5 0\n",
        (5, (1, 2), (1, 1)),
    ),
];

#[test]
fn the_first_broken_rule_is_told(rt: HostRuntime) -> Result<(), Fail> {
    judge_each(rt.alloc(), WITNESSED)?;
    judge_each(rt.alloc(), ASKED)?;
    judge_each(rt.alloc(), SHOWN)?;
    judge_each(rt.alloc(), NAMED)?;
    judge_each(rt.alloc(), SOURCES)?;
    Ok(())
}
