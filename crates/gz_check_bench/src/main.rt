//! Reads a log and judges its history so many times, for `bench/check` to time. With no words it judges two small logs.
#![tactic(auto)]

ghost use Rattle.std.specs.Prelude.{IfOk};
ghost use Rattle.gz_history.specs.Broken.{IsHistory};

use anyhow::{Result, bail};
use gz_history::{CallRec, judge};
use gz_logs::parse_log;
use std::alloc::Global;
use std::{env, fs};

/// A log of a put, and of a get that reads it.
const LEGAL: &[u8] = b"1.1 put a 01 1 2 ok 1\n2.1 get a - 3 4 bytes 1 1.1 01\nend 2 4 0\n";

/// A log of a put, and of a get that gives other bytes.
const BROKEN: &[u8] = b"1.1 put a 01 1 2 ok 1\n2.1 get a - 3 4 bytes 1 1.1 02\nend 2 4 0\n";

/// The calls of a log.
fn calls_of(alloc: Global, text: &[u8]) -> Result<Vec<CallRec>>
    ensures { IfOk result (λ calls. IsHistory calls.items) }
{
    match parse_log(alloc, text) {
        Ok(calls) => Ok(calls),
        Err(_) => bail!("this is no log"),
    }
}

/// The rule that a history breaks first, 0 where it is legal.
fn broken_rule(alloc: Global, calls: &[CallRec]) -> u8
    requires { IsHistory calls.now }
{
    match judge(alloc, calls) {
        Ok(()) => 0,
        Err(broken) => broken.clause,
    }
}

/// Prints which rules two small logs break.
fn show_rules(rt: &HostRuntime) -> Result<()> {
    for text in [LEGAL, BROKEN] {
        let calls = calls_of(rt.alloc(), text)?;
        println!(rt;
            "{} calls, rule {}",
            calls.len(),
            broken_rule(rt.alloc(), &calls)
        )?;
    }
    Ok(())
}

/// Reads the log in a file, judges its history so many times, and prints the number of its calls and the rule that is broken.
fn judge_file(rt: &HostRuntime, path: &str, times: u32) -> Result<()> {
    let text = fs::read(rt, path)?;
    let calls = calls_of(rt.alloc(), &text)?;
    let mut rule = 0;
    for _ in 0..times {
        rule = broken_rule(rt.alloc(), &calls);
    }
    println!(rt; "{} calls, rule {rule}", calls.len())?;
    Ok(())
}

fn main(rt: HostRuntime) -> Result<()> {
    let words: Vec<String> = env::args(&rt)?.collect(rt.alloc())?;
    match words.as_slice() {
        [_] => show_rules(&rt),
        [_, path, times] => judge_file(&rt, path, times.parse()?),
        _ => bail!("usage: gz_check_bench [FILE TIMES]"),
    }
}
