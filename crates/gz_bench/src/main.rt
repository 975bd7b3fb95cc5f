//! Cuts objects into pieces and rebuilds them, for `bench/code` to time, and plays schedules, for `bench/growth`. With no words
//! it codes a few objects and prints sums of their pieces.
#![tactic(auto)]

mod growth;
mod paths;
mod work;

ghost use Rattle.std.specs.Prelude.{◌+◌, ◌≤◌};

use anyhow::{Result, bail, ensure};
use growth::{Load, play_calls};
use gz_code::{join, split, split_plainly};
use paths::{Timed, config_of, time_paths};
use std::alloc::Global;
use std::env;
use std::time::Instant;
use work::{Piece, checksum, last_pieces, object_of};

/// A code, and how often it is to run.
#[derive(Drop)]
struct Job {
    k: usize,
    m: usize,
    rounds: u32,

    ghost at_least_one: { 1 ≤ k },
    ghost within_field: { k + m ≤ 256 },
}

impl Job {
    fn new(k: usize, m: usize, rounds: u32) -> Result<Job> {
        ensure!(k >= 1 && k <= 256 && m <= 256 - k, "no code of {k} + {m}");
        Ok(Job { k, m, rounds })
    }

    /// The job that three words spell.
    fn parse(k: &str, m: &str, rounds: &str) -> Result<Job> {
        Job::new(k.parse()?, m.parse()?, rounds.parse()?)
    }
}

/// The time in nanoseconds of a round of `split`, or of its plain body. Its pieces are dropped before the next round, as zfec's are.
fn time_of_split(rt: &HostRuntime, job: &Job, object: &[u8], plainly: bool) -> Result<u128> {
    let start = Instant::now(rt)?;
    let _pieces = if plainly {
        split_plainly(rt.alloc(), job.k, job.m, object)?
    } else {
        split(rt.alloc(), job.k, job.m, object)?
    };
    Ok(start.elapsed(rt)?.as_nanos())
}

/// The time of the fastest round of `split`, or of its plain body.
fn best_split(rt: &HostRuntime, job: &Job, object: &[u8], plainly: bool) -> Result<u128> {
    let mut best = u128::MAX;
    for _ in 0..job.rounds {
        best = best.min(time_of_split(rt, job, object, plainly)?);
    }
    Ok(best)
}

/// The time in nanoseconds of a round of `join`. Its object is dropped before the next round.
fn time_of_join(rt: &HostRuntime, job: &Job, len: usize, pieces: &[Piece]) -> Result<u128> {
    let start = Instant::now(rt)?;
    let _joined = join(rt.alloc(), job.k, job.m, len, pieces)?;
    Ok(start.elapsed(rt)?.as_nanos())
}

/// The time of the fastest round of `join` from the last k pieces, which give the object back.
fn best_join(rt: &HostRuntime, job: &Job, object: &[u8]) -> Result<u128> {
    let pieces = split(rt.alloc(), job.k, job.m, object)?;
    let pieces = last_pieces(rt.alloc(), pieces, job.k)?;
    check_join(rt.alloc(), job, object, &pieces)?;
    let mut best = u128::MAX;
    for _ in 0..job.rounds {
        best = best.min(time_of_join(rt, job, object.len(), &pieces)?);
    }
    Ok(best)
}

/// Sees that the pieces give the object back.
fn check_join(alloc: Global, job: &Job, object: &[u8], pieces: &[Piece]) -> Result<()> {
    let joined = join(alloc, job.k, job.m, object.len(), pieces)?;
    ensure!(joined.as_slice() == object, "the object does not come back");
    Ok(())
}

/// Codes an object, prints a sum of its pieces, and sees that the last of them give it back.
fn show_sum(rt: &HostRuntime, job: &Job, object: &[u8]) -> Result<()> {
    let pieces = split(rt.alloc(), job.k, job.m, object)?;
    let sum = checksum(&pieces);
    println!(rt; "{}+{} {} {sum}", job.k, job.m, object.len())?;
    let pieces = last_pieces(rt.alloc(), pieces, job.k)?;
    check_join(rt.alloc(), job, object, &pieces)
}

/// Codes some objects and prints a sum of the pieces of each.
fn show_sums(rt: &HostRuntime) -> Result<()> {
    for (k, m, len) in [(2, 1, 4096), (12, 4, 4099), (200, 56, 5000)] {
        let object = object_of(rt.alloc(), 1, len)?;
        show_sum(rt, &Job::new(k, m, 1)?, &object)?;
    }
    Ok(())
}

/// The load of a task that plays a schedule.
fn load_of(task: &str) -> Result<Load> {
    match task {
        "growth" => Ok(Load::Objects),
        "rewrites" => Ok(Load::Rewrites),
        _ => bail!("no task {task}"),
    }
}

/// Times a task on an object of so many bytes.
fn time(rt: &HostRuntime, task: &str, job: &Job, len: usize) -> Result<u128> {
    let object = object_of(rt.alloc(), 1, len)?;
    match task {
        "plain" => best_split(rt, job, &object, true),
        "split" => best_split(rt, job, &object, false),
        "join" => best_join(rt, job, &object),
        _ => bail!("no task {task}"),
    }
}

fn show_time(rt: &HostRuntime, task: &str, job: &Job, len: &str) -> Result<()> {
    let best = time(rt, task, job, len.parse()?)?;
    println!(rt; "{best}")?;
    Ok(())
}

fn show_growth(rt: &HostRuntime, load: Load, calls: &str, rounds: &str) -> Result<()> {
    let played = play_calls(rt, load, calls.parse()?, rounds.parse()?)?;
    println!(rt; "{} {}", played.nanoseconds, played.events)?;
    Ok(())
}

fn show_parts(rt: &HostRuntime, timed: Timed) -> Result<()> {
    let Timed {
        call,
        digests,
        coding,
        copies,
    } = timed;
    println!(rt; "{call} {digests} {coding} {copies}")?;
    Ok(())
}

/// Prints the best times of a put and of a get: of the call, its digests, its coding and its copies.
fn show_paths(rt: &HostRuntime, k: &str, m: &str, len: &str, rounds: &str) -> Result<()> {
    let config = config_of(k.parse()?, m.parse()?)?;
    let object = object_of(rt.alloc(), 1, len.parse()?)?;
    let (put, get) = time_paths(rt, config, &object, rounds.parse()?)?;
    show_parts(rt, put)?;
    show_parts(rt, get)
}

fn run(rt: &HostRuntime, words: &[String]) -> Result<()> {
    match words {
        [_] => show_sums(rt),
        [_, task, calls, rounds] => show_growth(rt, load_of(task)?, calls, rounds),
        [_, task, k, m, len, rounds] if task.as_str() == "paths" => show_paths(
            rt, k, m, len, rounds,
        ),
        [_, task, k, m, len, rounds] => show_time(rt, task, &Job::parse(k, m, rounds)?, len),
        _ => bail!(
            "usage: gz_bench [TASK K M LENGTH ROUNDS | paths K M LENGTH ROUNDS | growth CALLS ROUNDS | rewrites PUTS ROUNDS]"
        ),
    }
}

fn main(rt: HostRuntime) -> Result<()> {
    let words: Vec<String> = env::args(&rt)?.collect(rt.alloc())?;
    run(&rt, &words)
}
