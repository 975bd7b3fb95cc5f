//! Turns of a tally under the lock, for `bench/lock` to time. With no words, four threads take some turns and it prints how many.
#![tactic(auto)]

mod threads;

ghost use Rattle.std.specs.Prelude.{◌≡◌, ◌-◌, ◌≤◌, []};
ghost use Rattle.gz_lock.specs.Seats.{Rests};

use anyhow::{Result, bail, ensure};
use gz_lock::{Lock, Seat, Tally};
use std::alloc::Global;
use std::env;
use std::sync::Wait;
use std::thread::Threads;
use std::time::{Clock, Instant};
use threads::{Pair, on_four, on_one, on_two};

/// What every turn is told.
const ENTRY: u32 = 7;

fn empty(alloc: Global) -> Tally
    ensures { result.past.items ≡ [] }
{
    Tally {
        past: Vec::new(alloc),
    }
}

/// Two seats that are split from the first one.
fn two_seats(lock: &Lock<Tally>, first: &mut Seat<Tally>) -> Pair<Tally>
    requires seat { (first.old.table_id ≡ lock.now.table.shared.table_id) × Rests first.old.me }
    requires first { (first.old.me.0.number ≡ 0) × (3 ≤ first.old.me.0.parts) }
    ensures seat { (first.new.table_id ≡ first.old.table_id) × Rests first.new.me }
    ensures first { (first.new.me.0.number ≡ 0) × (first.new.me.0.parts ≡ first.old.me.0.parts - 2) }
    ensures pair { (result.0.table_id ≡ first.old.table_id) × Rests result.0.me × (result.1.table_id ≡ first.old.table_id) × Rests result.1.me }
{
    let one = lock.split_seat(first);
    (one, lock.split_seat(first))
}

/// So many turns on each of 1, 2 or 4 threads.
fn take_turns<R: Threads + Wait + Sync>(
    rt: &R,
    lock: &Lock<Tally>,
    first: &mut Seat<Tally>,
    threads: u32,
    turns: u32,
)
    requires seat { (first.old.table_id ≡ lock.now.table.shared.table_id) × Rests first.old.me }
    requires first { (first.old.me.0.number ≡ 0) × (5 ≤ first.old.me.0.parts) }
    ensures { (first.new.table_id ≡ first.old.table_id) × Rests first.new.me }
{
    match threads {
        1 => {
            on_one(rt, lock, lock.split_seat(first), ENTRY, turns);
        }
        2 => {
            on_two(rt, lock, two_seats(lock, first), ENTRY, turns);
        }
        _ => {
            let one = two_seats(lock, first);
            on_four(rt, lock, (one, two_seats(lock, first)), ENTRY, turns);
        }
    }
}

/// The time in nanoseconds that so many threads take for so many turns each.
fn time_of_turns<R: Threads + Wait + Clock + Sync>(
    rt: &R,
    alloc: Global,
    threads: u32,
    turns: u32,
) -> Result<u128> {
    let Ok((lock, mut first)) = Lock::new(alloc, empty(alloc), 5) else {
        bail!("no memory");
    };
    let start = Instant::now(rt)?;
    take_turns(rt, &lock, &mut first, threads, turns);
    let taken = start.elapsed(rt)?.as_nanos();
    let before = u64::from(threads) * u64::from(turns);
    ensure!(
        lock.turn(rt, &mut first, ENTRY)? == before + 1,
        "a turn is missing"
    );
    Ok(taken)
}

/// The threads and the turns that two words spell.
fn parse(threads: &str, turns: &str) -> Result<(u32, u32)> {
    let threads = threads.parse()?;
    ensure!(
        threads == 1 || threads == 2 || threads == 4,
        "1, 2 or 4 threads"
    );
    Ok((threads, turns.parse()?))
}

fn main(rt: HostRuntime) -> Result<()> {
    let words: Vec<String> = env::args(&rt)?.collect(rt.alloc())?;
    match words.as_slice() {
        [_] => {
            time_of_turns(&rt, rt.alloc(), 4, 1000)?;
            println!(rt; "4 threads, 1000 turns each")?;
        }
        [_, threads, turns] => {
            let (threads, turns) = parse(threads, turns)?;
            println!(rt; "{}", time_of_turns(&rt, rt.alloc(), threads, turns)?)?;
        }
        _ => bail!("usage: gz_lock_bench [THREADS TURNS]"),
    }
    Ok(())
}
