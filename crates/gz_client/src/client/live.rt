//! Which requests a client awaits: row requests and blob requests, together by their numbers. None takes memory.
ghost use Rattle.std.specs.Prelude.{◌≡◌, ℕ, ◌==◌, ◌^◌, ◌<◌, true, List, nat_lt};
ghost use Rattle.std.specs.List.{list_any};
ghost use Rattle.gz_core.specs.History.{Trace};
ghost use Rattle.std.specs.Option.{option_copied};
ghost use Rattle.gz_round.specs.Awaiting.{has_number};
ghost use Rattle.gz_client.specs.Traces.{Holds, live, live_count, IsLiveAtIn};
ghost use Rattle.gz_client.specs.Running.{blobs_of};
ghost use Rattle.gz_client.specs.Lowest.{IsLowestLive, IsLeastBlobFrom, IsLeastLiveFrom, IsKeptAt, AreRising, AreApart, lower_number, kept_live, marks_live};

use super::Client;
use crate::running::Running;
use gz_data::AwaitedBlob;
use gz_round::{Mark, Run};

impl Client {
    /// How many requests are awaited.
    pub fn live_count(&self) -> u32
        ensures { (next : ℕ) (ts : List Trace) → Holds self.now next ts → result ≡ live_count self.now.config ts }
    {
        match &self.running {
            None => 0,
            Some(running) => count_live(running),
        }
    }

    /// The `i`-th lowest number of the requests that are awaited, counted from 0.
    pub fn live_at(&self, i: u32) -> Option<u32>
        ensures { (next : ℕ) (ts : List Trace) → Holds self.now next ts → IsLiveAtIn self.now.config ts i result }
    {
        match &self.running {
            None => None,
            Some(running) => live_in(running, i),
        }
    }

    /// Whether the running call awaits request `n`.
    pub fn awaits(&self, n: u32) -> bool
        ensures { (next : ℕ) (ts : List Trace) → Holds self.now next ts → result ≡ nat_lt 0 (live self.now.config (λ m. m == n) ts) }
    {
        match &self.running {
            None => false,
            Some(running) => any_awaits(running, n),
        }
    }

    /// The lowest number of a request that the running call awaits.
    pub fn lowest_live(&self) -> Option<u32>
        ensures { (next : ℕ) (ts : List Trace) → Holds self.now next ts → IsLowestLive self.now.config ts result }
    {
        self.live_at(0)
    }
}

/// How many requests a running call keeps as awaited, of which there are never more than a few.
#[tactic(auto, using(crate::proofs::Counted::count_all))]
fn count_live(running: &Running) -> u32
    ensures { kept_live (λ m. true) running.now < 2 ^ 32 → result ≡ kept_live (λ m. true) running.now }
{
    saturated(count_live_rows(running.rows()).saturating_add(running.blobs().len()))
}

/// How many requests for rows are awaited.
fn count_live_rows(run: Option<&Run>) -> usize
    ensures { result ≡ marks_live (λ m. true) (option_copied run.entry) }
{
    match run {
        None => 0,
        Some(run) => run.live_count(),
    }
}

/// The `i`-th lowest number of the requests that a running call keeps as awaited.
fn live_in(running: &Running, i: u32) -> Option<u32>
    ensures { AreApart running.now → IsKeptAt running.now i result }
{
    let mut low: u64 = 0;
    for place in 0..i {
        let _ = place;
        match least_from(running, low) {
            None => return None,
            Some(n) => low = u64::from(n) + 1,
        }
    }
    least_from(running, low)
}

/// The least number from `low` on of a request that is awaited.
fn least_from(running: &Running, low: u64) -> Option<u32>
    ensures { AreRising (blobs_of running.now) → IsLeastLiveFrom running.now low result }
{
    let blob = least_blob_from(running.blobs(), low);
    match running.rows() {
        None => blob,
        Some(run) => lower_of(run.least_from(low), blob),
    }
}

/// The least number from `low` on of the requests for blobs, which are in the order of their numbers.
fn least_blob_from(blobs: &[AwaitedBlob], low: u64) -> Option<u32>
    ensures { AreRising blobs.now → IsLeastBlobFrom blobs.now low result }
{
    for blob in blobs {
        if low <= u64::from(blob.number) {
            return Some(blob.number);
        }
    }
    None
}

/// The lower one of two numbers, where they are there.
fn lower_of(one: Option<u32>, other: Option<u32>) -> Option<u32>
    ensures { result ≡ lower_number one other }
{
    match (one, other) {
        (Some(a), Some(b)) => Some(a.min(b)),
        (Some(a), None) => Some(a),
        (None, _) => other,
    }
}

/// Whether a running call keeps request `n` as awaited.
fn any_awaits(running: &Running, n: u32) -> bool
    ensures { result ≡ nat_lt 0 (kept_live (λ m. m == n) running.now) }
{
    running.awaits_blob(n) || any_row_awaits(running.rows(), n)
}

/// Whether request `n` is a request for a row that is awaited.
fn any_row_awaits(run: Option<&Run>, n: u32) -> bool
    ensures { result ≡ nat_lt 0 (marks_live (λ m. m == n) (option_copied run.entry)) }
{
    match run {
        None => false,
        Some(run) => any_mark_awaits(run.marks.as_slice(), n),
    }
}

/// Whether request `n` is awaited from any site.
fn any_mark_awaits(marks: &[Mark], n: u32) -> bool
    ensures { result ≡ list_any (has_number n) marks.now }
{
    for mark in marks {
        if has_number(mark, n) {
            return true;
        }
    }
    false
}

/// Whether request `n` is awaited from a site.
fn has_number(mark: &Mark, n: u32) -> bool
    ensures { result ≡ has_number n mark.now }
{
    match &mark.awaited {
        Some(awaited) => awaited.number == n,
        None => false,
    }
}

/// A count as a number of 32 bits, of which a call's never needs more.
fn saturated(count: usize) -> u32
    ensures { count < 2 ^ 32 → result ≡ count }
{
    if count < 1 << 32 {
        count as u32
    } else {
        u32::MAX
    }
}
