//! Runs over a shelf and a sink in memory: how each ends, and what it writes.
ghost use Rattle.std.specs.Prelude.{◌<◌, ◌-◌, ◌^◌, All, IfOk};

use gz_cli::bench::Bench;
use gz_cli::run::run;
use gz_cli::status::Status;
use gz_core::{Key, Word};
use gz_site::{MemShelf, MemSink, MemSite, RowRead, Site};
use gz_world::World;
use std::alloc::{AllocError, Global};
use std::collections::BTreeMap;
use std::test::Fail;

const PUT_GET: &str = "session\nput 1 a x:0102\nsettle 1\nget 1 a\nsettle 1\n";

/// The log of `PUT_GET` at five sites.
const FIVE_SITES_LOG: &str =
    "1.1 put a 0102 2 30 ok 1\n1.2 get a - 31 45 bytes 1 1.1 0102\nend 2 45 0\n";

const PUT_GET_LOG: &str =
    "1.1 put a 0102 2 20 ok 1\n1.2 get a - 21 31 bytes 1 1.1 0102\nend 2 31 0\n";

/// The words of a run, the texts of its files `s` and `c`, the calls of the shelf and of the sink that fail (counted from 1, 0 for none), and
/// the number and the text of its status and what it writes.
#[derive(Clone, Copy)]
pub(crate) struct Case<'a> {
    pub(crate) words: &'a [&'a str],
    pub(crate) text: &'a [u8],
    pub(crate) config: &'a [u8],
    pub(crate) shelf_fails: u32,
    pub(crate) sink_fails: u32,
    pub(crate) number: u8,
    pub(crate) status: &'a str,
    pub(crate) log: &'a str,
}

/// The replay of a text, in which nothing fails.
pub(crate) fn played<'a>(text: &'a [u8], number: u8, status: &'a str, log: &'a str) -> Case<'a> {
    Case {
        words: &["replay", "s"],
        text,
        config: b"",
        shelf_fails: 0,
        sink_fails: 0,
        number,
        status,
        log,
    }
}

/// The replay of `PUT_GET` under a configuration, in which nothing fails.
fn configured<'a>(config: &'a [u8], number: u8, status: &'a str, log: &'a str) -> Case<'a> {
    Case {
        words: &["replay", "s", "c"],
        config,
        ..played(PUT_GET.as_bytes(), number, status, log)
    }
}

/// The check of a text as a log, in which nothing fails.
fn checked<'a>(text: &'a [u8], number: u8, status: &'a str, log: &'a str) -> Case<'a> {
    Case {
        words: &["check", "s"],
        ..played(text, number, status, log)
    }
}

/// A list of one call that fails.
fn failing(alloc: Global, call: u32) -> Result<Vec<u64>, AllocError>
    ensures { IfOk result (λ calls. All (λ call. call < 2 ^ 64 - 1) calls.items) }
{
    let mut calls = Vec::new(alloc);
    calls.push(call as u64)?;
    Ok(calls)
}

fn word_of(alloc: Global, text: &str) -> Result<Word, AllocError> {
    Ok(Word(String::from_str(alloc, text)?))
}

fn words_of(alloc: Global, texts: &[&str]) -> Result<Vec<Word>, AllocError> {
    let mut words = Vec::new(alloc);
    for text in texts {
        words.push(word_of(alloc, text)?)?;
    }
    Ok(words)
}

/// The files `s` and `c`.
fn files_of(alloc: Global, case: &Case) -> Result<BTreeMap<String, Vec<u8>>, AllocError> {
    let mut files = BTreeMap::new(alloc);
    let schedule = String::from_str(alloc, "s")?;
    files.insert(schedule, Vec::from_slice(alloc, case.text)?)?;
    let config = String::from_str(alloc, "c")?;
    files.insert(config, Vec::from_slice(alloc, case.config)?)?;
    Ok(files)
}

fn shelf_of(alloc: Global, case: &Case) -> Result<MemShelf, AllocError> {
    let files = files_of(alloc, case)?;
    Ok(MemShelf::new(files, failing(alloc, case.shelf_fails)?))
}

/// Whether a status has the number and the text of a case.
fn is_told(alloc: Global, status: &Status, case: &Case) -> Result<bool, AllocError> {
    let text = status.to_string(alloc)?;
    Ok(status.number() == case.number && text.as_str() == case.status)
}

/// Whether a run over these sites ends as the case says.
fn ends(
    alloc: Global,
    words: &[Word],
    shelf: &mut MemShelf,
    case: &Case,
) -> Result<bool, AllocError> {
    let mut out = MemSink::new(alloc, failing(alloc, case.sink_fails)?);
    let mut bench = Bench::new(alloc)?;
    let status = run(alloc, words, shelf, &mut out, &mut bench);
    Ok(is_told(alloc, &status, case)? && out.written() == case.log.as_bytes())
}

/// Whether the run of a case ends as it says.
pub(crate) fn holds(alloc: Global, case: &Case) -> Result<bool, AllocError> {
    let words = words_of(alloc, case.words)?;
    let mut shelf = shelf_of(alloc, case)?;
    ends(alloc, words.as_slice(), &mut shelf, case)
}

/// Schedules, each with the status and the log of its replay.
static SCHEDULES: [(&str, u8, &str, &str); 26] = [
    (PUT_GET, 0, "done", PUT_GET_LOG),
    (
        "session\nget 1 a\nsettle 1\n",
        0,
        "done",
        "1.1 get a - 2 6 absent\nend 1 6 0\n",
    ),
    ("", 0, "done", "end 0 0 0\n"),
    ("# none\n  \r\nsettle 9\nsession", 0, "done", "end 0 1 0\n"),
    (
        "session\nput 1 a x:\nsettle 1\nget 1 a\nsettle 1\n",
        0,
        "done",
        "1.1 put a - 2 20 ok 1\n1.2 get a - 21 31 bytes 1 1.1 -\nend 2 31 0\n",
    ),
    (
        "session\nsession\nput 2 b x:\nsettle 2\nput 1 b x:Ff\n\nsettle 1\nget 2 b\nsettle 2\n",
        0,
        "done",
        "2.1 put b - 3 21 ok 1\n1.1 put b ff 22 40 ok 2\n2.2 get b - 41 51 bytes 2 1.1 ff\nend 3 51 0\n",
    ),
    (
        "session\nput 1 a x:01\n",
        0,
        "done",
        "1.1 put a 01 2 - open\nend 1 2 0\n",
    ),
    (
        "session\nreply 99 1\ncrash 1\ncrash 1\n",
        0,
        "done",
        "end 0 4 2\n",
    ),
    (
        "session\nput 1 a x:0102\ntake 1\ntake 2\ndeliver 7\ndeliver 7\nreply 7 2\nsettle 1\n",
        0,
        "done",
        "1.1 put a 0102 2 23 ok 1\nend 1 23 0\n",
    ),
    (
        "session\nput 1 a x:0102\nsettle 1 without 1,2\n",
        0,
        "done",
        "1.1 put a 0102 2 6 noquorum look 1\nend 1 6 0\n",
    ),
    (
        "session\nput 1 a x:0102\ntake 1\ntake 2\ndeliver 4\ndeliver 5\ndeliver 7\ndeliver 8\ngiveup 7\ngiveup 8\nget 1 a\nsettle 1\n",
        0,
        "done",
        "1.1 put a 0102 2 12 unsure noquorum fast 0\n1.2 get a - 13 33 bytes 1 1.1 0102\nend 2 33 0\n",
    ),
    (
        "session\nput 1 a x:0102\nsettle 1 without 2\n",
        0,
        "done",
        "1.1 put a 0102 2 24 ok 1\nend 1 24 0\n",
    ),
    (
        "session\nput 1 a x:0102\ntake 1\ntake 2\ntake 3\ndeliver 4\ndeliver 5\ndeliver 7\ndeliver 8\ncrash 1\nsession\nget 2 a\nsettle 2\n",
        0,
        "done",
        "1.1 put a 0102 2 - open\n2.1 get a - 15 35 bytes 1 1.1 0102\nend 2 35 0\n",
    ),
    (
        "session\nput 1 a x:01\nsettle 1\ndrain 1\nput 1 a x:02\ntake 13\ntake 14\ndeliver 16\ndeliver 17\ndeliver 19\ncrash 1\nsession\nget 2 a\nsettle 2 without 0\nget 2 a\nsettle 2\n",
        0,
        "done",
        "1.1 put a 01 2 20 ok 1\n1.2 put a 02 24 - open\n2.1 get a - 34 44 bytes 1 1.1 01\n2.2 get a - 45 65 bytes 2 1.2 02\nend 4 65 0\n",
    ),
    (
        "session\nput 1 a x:01\nsettle 1\ndelete 1 a\nsettle 1\nget 1 a\nsettle 1\n",
        0,
        "done",
        "1.1 put a 01 2 20 ok 1\n1.2 delete a - 21 33 ok 2\n1.3 get a - 34 40 gone 2 1.2\nend 3 40 0\n",
    ),
    (
        "put 2 a x:01\nsession\nput 1 a x:02\nput 1 b x:03\ndrain 1\nreply 1 0\nreply 1 1\nreply 1 1\ndeliver 0\ngiveup 7\n",
        0,
        "done",
        "1.1 put a 02 3 - open\nend 1 15 6\n",
    ),
    (
        "session\nsession\nput 1 a x:01\nput 2 a x:02\ntake 1\ntake 2\ntake 3\ntake 7\ntake 8\ntake 9\ndeliver 13\ndeliver 17\ndeliver 15\nsettle 1\nsettle 2\nget 1 a\nsettle 1\n",
        0,
        "done",
        "1.1 put a 01 3 41 ok 1\n2.1 put a 02 4 74 ok 2\n1.2 get a - 75 85 bytes 2 2.1 02\nend 3 85 0\n",
    ),
    (
        "session\nput 1 a x:01\nsettle 1\nput 1 a x:02\ntake 13\ntake 14\ntake 15\ncrash 1\nsession\nget 2 a\nsettle 2\ndeliver 16\ndeliver 17\ndeliver 19\nget 2 a\nsettle 2\n",
        0,
        "done",
        "1.1 put a 01 2 20 ok 1\n1.2 put a 02 21 - open\n2.1 get a - 30 40 bytes 1 1.1 01\n2.2 get a - 44 64 bytes 2 1.2 02\nend 4 64 0\n",
    ),
    (
        "session\nput 1 a x:01\nsettle 1\nput 1 a x:0102\ngiveup 17\ngiveup 18\nsettle 1\nget 1 a\nsettle 1\n",
        0,
        "done",
        "1.1 put a 01 2 20 ok 1\n1.2 put a 0102 21 37 thin 2 1\n1.3 get a - 38 50 incomplete 2 1.2 WMM\nend 3 50 0\n",
    ),
    (
        "session\nput 1 a x:0102\nsettle 1\nget 1 a\ntake 13\ntake 14\ntake 15\ngiveup 16\ngiveup 17\nsettle 1\nget 1 a\nsettle 1 without 0\nget 1 a\nsettle 1\n",
        0,
        "done",
        "1.1 put a 0102 2 20 ok 1\n1.2 get a - 21 31 incomplete 1 1.1 GGW\n1.3 get a - 32 50 bytes 1 1.1 0102\n1.4 get a - 51 61 bytes 1 1.1 0102\nend 4 61 0\n",
    ),
    (
        "session\nput 1 a x:0102\ntake 1\ntake 2\ntake 3\ndeliver 4\ndeliver 5\ndeliver 7\ncrash 1\nsession\nget 2 a\nsettle 2\nget 2 a\nsettle 2\n",
        0,
        "done",
        "1.1 put a 0102 2 - open\n2.1 get a - 14 34 bytes 1 1.1 0102\n2.2 get a - 35 43 bytes 1 1.1 0102\nend 3 43 0\n",
    ),
    (
        "session\nput 1 a x:0102\nsettle 1\nput 1 a x:03\nsettle 1\ndelete 1 a\nsettle 1\ngetat 1 a 1\nsettle 1\ngetat 1 a 3\nsettle 1\ngetat 1 a 4\nsettle 1\ngetat 1 b 1\nsettle 1\n",
        0,
        "done",
        "1.1 put a 0102 2 20 ok 1\n1.2 put a 03 21 39 ok 2\n1.3 delete a - 40 52 ok 3\n1.4 getat a 1 53 63 bytes 1 1.1 0102\n1.5 getat a 3 64 70 gone 3 1.3\n1.6 getat a 4 71 77 unborn 3\n1.7 getat b 1 78 82 unborn 0\nend 7 82 0\n",
    ),
    ("session\nlose 0 a 1.1 0\n", 7, "line 2: unbuilt", ""),
    ("session\npat 1 a\n", 7, "line 2: word", ""),
    ("session\nput 0 a x:01\nsettle 1\n", 7, "line 2: number", ""),
    ("put 1 a g:0:1048577\n", 8, "line 1: too long", ""),
];

/// Calls of the shelf and the sink that fail in the replay of `PUT_GET`, or none, and what comes of it.
static FAILURES: [(u32, u32, u8, &str, &str); 5] = [
    (1, 0, 3, "cannot read s", ""),
    (2, 0, 0, "done", PUT_GET_LOG),
    (0, 1, 11, "cannot write", ""),
    (0, 2, 11, "cannot write", PUT_GET_LOG),
    (0, 3, 0, "done", PUT_GET_LOG),
];

/// Words with no schedule, a call of the sink that fails, or none, and what comes of it.
static WORDS: [(&[&str], u32, u8, &str, &str); 36] = [
    (
        &["code", "2", "1", "0102"],
        0,
        0,
        "done",
        "0 01\n1 02\n2 07\n",
    ),
    (
        &["code", "2", "1", "8000"],
        0,
        0,
        "done",
        "0 80\n1 00\n2 9d\n",
    ),
    (
        &["code", "2", "1", "010203"],
        0,
        0,
        "done",
        "0 0102\n1 0300\n2 0506\n",
    ),
    (
        &["code", "3", "1", "050607"],
        0,
        0,
        "done",
        "0 05\n1 06\n2 07\n3 04\n",
    ),
    (&["code", "1", "0", "00"], 0, 0, "done", "0 00\n"),
    (&["code", "2", "1", ""], 0, 0, "done", "0 -\n1 -\n2 -\n"),
    (
        &["code", "1", "1", "aBcD"],
        0,
        0,
        "done",
        "0 abcd\n1 abcd\n",
    ),
    (&["code", "2", "1", "0102"], 1, 11, "cannot write", ""),
    (
        &["code", "2", "1", "0102"],
        2,
        11,
        "cannot write",
        "0 01\n1 02\n2 07\n",
    ),
    (
        &["code", "2", "1", "0102"],
        3,
        0,
        "done",
        "0 01\n1 02\n2 07\n",
    ),
    (&[], 0, 2, "usage", ""),
    (&["replay"], 0, 2, "usage", ""),
    (&["replay", "-x"], 0, 2, "usage", ""),
    (&["play", "s"], 0, 2, "usage", ""),
    (&["check"], 0, 2, "usage", ""),
    (&["check", "s", "s"], 0, 2, "usage", ""),
    (&["check", "-s"], 0, 2, "usage", ""),
    (&["check", "l"], 0, 4, "no file l", ""),
    (&["replay", "s", "s"], 0, 0, "done", "end 0 0 0\n"),
    (&["replay", "s", "c", "c"], 0, 2, "usage", ""),
    (&["replay", "s", "-c"], 0, 2, "usage", ""),
    (&["replay", "--", "s"], 0, 2, "usage", ""),
    (&["code", "0", "1", "00"], 0, 2, "usage", ""),
    (&["code", "2", "1", "123"], 0, 2, "usage", ""),
    (&["code", "2", "255", "00"], 0, 2, "usage", ""),
    (&["code", "4294967297", "1", "00"], 0, 2, "usage", ""),
    (&["code", "02", "1", "00"], 0, 2, "usage", ""),
    (&["code", "2", "+1", "00"], 0, 2, "usage", ""),
    (&["code", "2", "x", "00"], 0, 2, "usage", ""),
    (&["code", "", "1", "00"], 0, 2, "usage", ""),
    (&["code", "2", "1", "0g"], 0, 2, "usage", ""),
    (&["code", "2", "1", "0x00"], 0, 2, "usage", ""),
    (&["code", "2", "1", "--"], 0, 2, "usage", ""),
    (&["code", "2", "1"], 0, 2, "usage", ""),
    (&["code", "2", "1", "00", "00"], 0, 2, "usage", ""),
    (&["cod", "2", "1", "00"], 0, 2, "usage", ""),
];

#[test]
fn replays(rt: HostRuntime) -> Result<(), Fail> {
    for (text, number, status, log) in &SCHEDULES {
        let case = played(text.as_bytes(), *number, status, log);
        assert!(rt; holds(rt.alloc(), &case)?);
    }
    Ok(())
}

#[test]
fn each_outside_call_fails_in_turn(rt: HostRuntime) -> Result<(), Fail> {
    for (shelf_fails, sink_fails, number, status, log) in &FAILURES {
        let case = Case {
            shelf_fails: *shelf_fails,
            sink_fails: *sink_fails,
            ..played(PUT_GET.as_bytes(), *number, status, log)
        };
        assert!(rt; holds(rt.alloc(), &case)?);
    }
    Ok(())
}

/// Texts, and how the check of each as a log ends.
static LOGS: [(&str, u8, &str, &str); 21] = [
    (PUT_GET_LOG, 0, "done", "legal 2\n"),
    ("end 0 0 0\n", 0, "done", "legal 0\n"),
    (
        "\r\n# a comment\n1.1 put a 01 2 20 ok 1\r\n  end  1 20 0",
        0,
        "done",
        "legal 1\n",
    ),
    (
        "1.1 put a 01 2 20 ok 1\n1.2 delete a - 21 33 ok 2\n1.3 get a - 34 40 gone 2 1.2\n1.4 put a 03 41 59 ok 3\n1.5 getat a 1 60 70 bytes 1 1.1 01\nend 5 70 0\n",
        0,
        "done",
        "legal 5\n",
    ),
    (
        "1.1 put a 01 2 20 ok 1\n2.1 put a 02 3 40 ok 1\nend 2 40 0\n",
        1,
        "not legal: clause 1, calls 1.1 and 2.1",
        "",
    ),
    (
        "1.1 put a 01 2 20 ok 1\n1.2 get a - 21 30 bytes 2 1.1 01\nend 2 30 0\n",
        1,
        "not legal: clause 2, calls 1.1 and 1.2",
        "",
    ),
    (
        "1.1 put a 0102 2 20 ok 1\n1.2 get a - 21 31 absent\nend 2 31 0\n",
        1,
        "not legal: clause 3, calls 1.1 and 1.2",
        "",
    ),
    (
        "1.1 get a - 2 20 bytes 1 2.1 01\nend 1 20 0\n",
        1,
        "not legal: clause 4, calls 1.1 and 2.1",
        "",
    ),
    (
        "1.1 put a 0102 2 20 ok 1\n1.2 get a - 21 31 bytes 1 1.1 0103\nend 2 31 0\n",
        1,
        "not legal: clause 5, calls 1.2 and 1.1",
        "",
    ),
    (
        "1.1 put a 01 2 20 ok 1\n1.2 getat a 2 21 31 bytes 1 1.1 01\nend 2 31 0\n",
        1,
        "not legal: clause 6, calls 1.2 and 1.2",
        "",
    ),
    (
        "1.1 put a 01 2 20 ok 1\n1.2 put a 02 21 40 ok 1\n1.3 get a - 41 60 bytes 3 1.2 02\nend 3 60 0\n",
        1,
        "not legal: clause 1, calls 1.1 and 1.2",
        "",
    ),
    (
        "1.1 put a 0102 2 20 ok 1\n1.2 get a - 21 31 bytes 1 1.1 0102\n",
        7,
        "line 3: end",
        "",
    ),
    ("", 7, "line 1: end", ""),
    ("end 1 0 0\n", 7, "line 1: end", ""),
    ("end 0 0 0\nend 0 0 0\n", 7, "line 2: end", ""),
    ("session\n", 7, "line 1: word", ""),
    ("1.1 put a 01 2 20\nend 1 20 0\n", 7, "line 1: count", ""),
    (
        "1.1 put a 0A 2 20 ok 1\nend 1 20 0\n",
        7,
        "line 1: bytes",
        "",
    ),
    (
        "1.1 put a 01 2 20 ok 1\n1.1 get a - 21 31 absent\nend 2 31 0\n",
        7,
        "line 2: name",
        "",
    ),
    (
        "1.1 put a 01 20 20 ok 1\nend 1 20 0\n",
        7,
        "line 1: order",
        "",
    ),
    (
        "1.1 put a 01 2 20 absent\nend 1 20 0\n",
        7,
        "line 1: answer",
        "",
    ),
];

#[test]
fn logs_are_checked(rt: HostRuntime) -> Result<(), Fail> {
    for (text, number, status, log) in &LOGS {
        let case = checked(text.as_bytes(), *number, status, log);
        assert!(rt; holds(rt.alloc(), &case)?);
    }
    Ok(())
}

/// Calls of the shelf and the sink that fail in the check of `PUT_GET_LOG`, or none, and what comes of it.
static CHECK_FAILURES: [(u32, u32, u8, &str, &str); 5] = [
    (1, 0, 3, "cannot read s", ""),
    (2, 0, 0, "done", "legal 2\n"),
    (0, 1, 11, "cannot write", ""),
    (0, 2, 11, "cannot write", "legal 2\n"),
    (0, 3, 0, "done", "legal 2\n"),
];

#[test]
fn each_outside_call_of_a_check_fails_in_turn(rt: HostRuntime) -> Result<(), Fail> {
    for (shelf_fails, sink_fails, number, status, log) in &CHECK_FAILURES {
        let case = Case {
            shelf_fails: *shelf_fails,
            sink_fails: *sink_fails,
            ..checked(PUT_GET_LOG.as_bytes(), *number, status, log)
        };
        assert!(rt; holds(rt.alloc(), &case)?);
    }
    Ok(())
}

/// Whether the check of the log of a put, whose bytes have so many digits, ends so.
fn put_is_checked(
    alloc: Global,
    digits: usize,
    number: u8,
    status: &str,
    log: &str,
) -> Result<bool, AllocError> {
    let bytes = vec![in alloc; b'0'; digits]?;
    let mut text = Vec::from_slice(alloc, b"1.1 put a ")?;
    text.extend_from_slice(bytes.as_slice())?;
    text.extend_from_slice(b" 2 20 ok 1\nend 1 20 0\n")?;
    holds(alloc, &checked(text.as_slice(), number, status, log))
}

#[test]
fn bytes_of_a_log_have_a_limit(rt: HostRuntime) -> Result<(), Fail> {
    assert!(rt; put_is_checked(rt.alloc(), 2_097_152, 0, "done", "legal 1\n")?);
    assert!(rt; put_is_checked(rt.alloc(), 2_097_154, 8, "line 1: too long", "")?);
    Ok(())
}

#[test]
fn codes_and_words_of_no_form(rt: HostRuntime) -> Result<(), Fail> {
    for (words, sink_fails, number, status, log) in &WORDS {
        let case = Case {
            words,
            sink_fails: *sink_fails,
            ..played(b"", *number, status, log)
        };
        assert!(rt; holds(rt.alloc(), &case)?);
    }
    Ok(())
}

/// Whether the replay of a comment of so many bytes ends so.
fn comment_ends(
    alloc: Global,
    length: usize,
    number: u8,
    status: &str,
    log: &str,
) -> Result<bool, AllocError> {
    let comment = vec![in alloc; b'#'; length]?;
    holds(alloc, &played(&comment, number, status, log))
}

/// Whether the check of a comment of so many bytes ends so.
fn comment_is_checked(
    alloc: Global,
    length: usize,
    number: u8,
    status: &str,
) -> Result<bool, AllocError> {
    let comment = vec![in alloc; b'#'; length]?;
    holds(alloc, &checked(&comment, number, status, ""))
}

/// Whether a configuration that is a comment of so many bytes ends so.
fn comment_configures(
    alloc: Global,
    length: usize,
    number: u8,
    status: &str,
    log: &str,
) -> Result<bool, AllocError> {
    let comment = vec![in alloc; b'#'; length]?;
    holds(alloc, &configured(&comment, number, status, log))
}

#[test]
fn files_have_a_limit(rt: HostRuntime) -> Result<(), Fail> {
    assert!(rt; comment_ends(rt.alloc(), 67_108_865, 5, "file too large s", "")?);
    assert!(rt; comment_ends(rt.alloc(), 67_108_864, 0, "done", "end 0 0 0\n")?);
    assert!(rt; comment_configures(rt.alloc(), 67_108_865, 5, "file too large c", "")?);
    assert!(rt; comment_configures(rt.alloc(), 67_108_864, 0, "done", PUT_GET_LOG)?);
    Ok(())
}

#[test]
fn the_file_of_a_log_has_a_limit(rt: HostRuntime) -> Result<(), Fail> {
    assert!(rt; comment_is_checked(rt.alloc(), 67_108_865, 5, "file too large s")?);
    assert!(rt; comment_is_checked(rt.alloc(), 67_108_864, 7, "line 2: end")?);
    Ok(())
}

/// Words that name a file that isn't there, and what comes of it.
static ABSENT: [(&[&str], &str); 5] = [
    (&["check", "none"], "no file none"),
    (&["replay", "none"], "no file none"),
    (&["replay", "none", "c"], "no file none"),
    (&["replay", "s", "nil"], "no file nil"),
    (&["replay", "none", "nil"], "no file nil"),
];

#[test]
fn a_file_is_not_there(rt: HostRuntime) -> Result<(), Fail> {
    for (words, status) in &ABSENT {
        let case = Case {
            words,
            ..played(b"", 4, status, "")
        };
        assert!(rt; holds(rt.alloc(), &case)?);
    }
    Ok(())
}

const FIVE_SITES: &str = "n = 5\nqc = 3\nqf = 4\nk = 3\nm = 2\nf = 1\norder = \"parallel\"\n";

/// Configurations, each with the status and the log of the replay of `PUT_GET` under it.
static CONFIGS: [(&str, u8, &str, &str); 14] = [
    ("", 0, "done", PUT_GET_LOG),
    ("tries = 1000\n", 0, "done", PUT_GET_LOG),
    ("n = = 3\n", 6, "config: toml", ""),
    ("sites = 3\n", 6, "config: unknown sites", ""),
    (
        "zones = 1\nn = \"3\"\nsites = 3\n",
        6,
        "config: unknown sites",
        "",
    ),
    ("n = \"3\"\n", 6, "config: kind n", ""),
    ("n = 17\n", 6, "config: sites", ""),
    ("n = 3\nqc = 1\nqf = 3\n", 6, "config: classic quorum", ""),
    ("n = 7\nqc = 4\nqf = 5\n", 6, "config: fast quorum", ""),
    ("m = 2\n", 6, "config: pieces", ""),
    ("f = 2\n", 6, "config: spare", ""),
    ("tries = 0\n", 6, "config: tries", ""),
    ("tries = 65536\n", 6, "config: kind tries", ""),
    (FIVE_SITES, 0, "done", FIVE_SITES_LOG),
];

#[test]
fn configurations(rt: HostRuntime) -> Result<(), Fail> {
    for (config, number, status, log) in &CONFIGS {
        let case = configured(config.as_bytes(), *number, status, log);
        assert!(rt; holds(rt.alloc(), &case)?);
    }
    Ok(())
}

/// Schedules with configurations, and the logs of their replays: an ordinary use of five sites; two puts that race there; a call that tries
/// once; a put that stores first; and a get that gives in without a vote.
static UNDER: [(&str, &str, &str); 5] = [
    (
        "session\nput 1 docs/readme x:68656c6c6f2c2067697a61\nsettle 1\nget 1 docs/readme\nsettle 1\n",
        "n = 5\nqc = 3\nqf = 4\nk = 3\nm = 2\nf = 1\norder = \"parallel\"\n",
        "1.1 put docs/readme 68656c6c6f2c2067697a61 2 30 ok 1\n1.2 get docs/readme - 31 45 bytes 1 1.1 68656c6c6f2c2067697a61\nend 2 45 0\n",
    ),
    (
        "session\nsession\nput 1 a x:01\nput 2 a x:02\ntake 1\ntake 2\ntake 3\ntake 12\ntake 13\ntake 11\ndeliver 21\ndeliver 22\nsettle 1\nsettle 2\n",
        "n = 5\nqc = 3\nqf = 4\n",
        "1.1 put a 01 3 50 ok 1\n2.1 put a 02 4 82 ok 2\nend 2 82 0\n",
    ),
    (
        "session\nput 1 a x:0102\ntake 1\ntake 2\ndeliver 7\ndeliver 7\nreply 7 2\n",
        "tries = 1\n",
        "1.1 put a 0102 2 9 unsure contended 1\nend 1 9 0\n",
    ),
    (
        "session\nput 1 a x:0102\nsettle 1 without 1,2\n",
        "order = \"blobs-first\"\n",
        "1.1 put a 0102 2 6 short 1\nend 1 6 0\n",
    ),
    (
        "session\nput 1 a x:0102\ntake 1\ntake 2\ntake 3\ndeliver 4\ndeliver 5\ndeliver 7\ndeliver 8\ncrash 1\nsession\nget 2 a\ntake 10\ntake 11\ntake 12\ndeliver 13\ndeliver 13\nreply 13 2\n",
        "tries = 1\n",
        "1.1 put a 0102 2 - open\n2.1 get a - 15 24 contended 1\nend 2 24 0\n",
    ),
];

#[test]
fn replays_under_configurations(rt: HostRuntime) -> Result<(), Fail> {
    for (text, config, log) in &UNDER {
        let case = Case {
            text: text.as_bytes(),
            ..configured(config.as_bytes(), 0, "done", log)
        };
        assert!(rt; holds(rt.alloc(), &case)?);
    }
    Ok(())
}

/// A refused configuration comes before a schedule that can't be read, and a file of a configuration before its text.
#[test]
fn the_configuration_comes_first(rt: HostRuntime) -> Result<(), Fail> {
    let refused = Case {
        text: b"pat 1 a\n",
        ..configured(b"n = 17\n", 6, "config: sites", "")
    };
    assert!(rt; holds(rt.alloc(), &refused)?);
    let absent = Case {
        words: &["replay", "none", "c"],
        ..configured(b"n = 17\n", 6, "config: sites", "")
    };
    assert!(rt; holds(rt.alloc(), &absent)?);
    let unread = Case {
        shelf_fails: 1,
        ..configured(b"n = 17\n", 3, "cannot read c", "")
    };
    assert!(rt; holds(rt.alloc(), &unread)?);
    let second = Case {
        shelf_fails: 2,
        ..configured(b"", 3, "cannot read s", "")
    };
    assert!(rt; holds(rt.alloc(), &second)?);
    Ok(())
}

/// A schedule of a session that crashes in a put, is settled so many times, and then crashes so many times more. A settled
/// session that has crashed is handed one reply 65,536 times, which is skipped each time.
fn filling(alloc: Global, settled: u32, crashed: u32) -> Result<Vec<u8>, AllocError> {
    let mut text = Vec::from_slice(alloc, b"session\nput 1 a x:01\ncrash 1\n")?;
    for _ in 0..settled {
        text.extend_from_slice(b"settle 1\n")?;
    }
    for _ in 0..crashed {
        text.extend_from_slice(b"crash 1\n")?;
    }
    Ok(text)
}

/// How often a session that crashed is settled and crashes again, and what comes of it: the 4,000,000th event is the last that
/// a world takes.
static FILLINGS: [(u32, u32, u8, &str, &str); 3] = [
    (
        61,
        2_300,
        0,
        "done",
        "1.1 put a 01 2 - open\nend 1 4000000 3999996\n",
    ),
    (61, 2_301, 9, "full after 4000000 events, 515 bytes", ""),
    (62, 0, 9, "full after 4000000 events, 515 bytes", ""),
];

#[test]
fn a_world_is_filled_to_its_last_event(rt: HostRuntime) -> Result<(), Fail> {
    for (settled, crashed, number, status, log) in &FILLINGS {
        let text = filling(rt.alloc(), *settled, *crashed)?;
        let case = played(text.as_slice(), *number, status, log);
        assert!(rt; holds(rt.alloc(), &case)?);
    }
    Ok(())
}

/// How many of a world's sites have a row of a key.
fn rows(alloc: Global, world: World<MemSite>, key: &Key) -> u32 {
    let mut rows = 0u32;
    for mut site in world.into_sites() {
        if let Ok(RowRead::Row { .. }) = site.read_row(alloc, key) {
            rows = rows.saturating_add(1);
        }
    }
    rows
}

/// How many sites have a row of a key in the world that the replay of `PUT_GET` leaves.
fn rows_left(alloc: Global, key: &Key) -> Result<u32, AllocError> {
    let case = played(PUT_GET.as_bytes(), 0, "done", PUT_GET_LOG);
    let words = words_of(alloc, case.words)?;
    let mut shelf = shelf_of(alloc, &case)?;
    let mut out = MemSink::new(alloc, failing(alloc, 0)?);
    let mut bench = Bench::new(alloc)?;
    run(alloc, words.as_slice(), &mut shelf, &mut out, &mut bench);
    // (the sites went into the world)
    if !bench.sites.is_empty() {
        return Ok(0);
    }
    match bench.world.take() {
        Some(world) => Ok(rows(alloc, world, key)),
        None => Ok(0),
    }
}

#[test]
fn a_put_is_left_at_three_sites(rt: HostRuntime) -> Result<(), Fail> {
    let key = Key::new(Vec::from_slice(rt.alloc(), b"a")?).ok_or("a key")?;
    assert!(rt; rows_left(rt.alloc(), &key)? == 3);
    Ok(())
}
