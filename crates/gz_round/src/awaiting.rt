//! Which requests a call awaits.
ghost use Rattle.std.specs.Prelude.{◌≡◌, ℕ, List, Some, count_by, MatchOption};
ghost use Rattle.gz_round.specs.Awaiting.{has_number, IsSiteOf, is_mark_live, number_of, lower_of, IsLeastFrom};

use crate::run::{Mark, Run};

impl Run {
    /// The site from which request `n` is awaited.
    pub fn site_of(&self, n: u32) -> usize
        requires { (s : ℕ) × IsSiteOf self.now.marks n s }
        ensures { IsSiteOf self.now.marks n result }
    {
        match place_of(self.marks.as_slice(), n) {
            None => unreachable!(),
            Some(at) => at,
        }
    }
}

impl Run {
    /// How many requests are awaited.
    pub fn live_count(&self) -> usize
        ensures { result ≡ count_by is_mark_live self.now.marks }
    {
        count_live(self.marks.as_slice())
    }

    /// The least number from `low` on of a request that is awaited. Takes no memory.
    pub fn least_from(&self, low: u64) -> Option<u32>
        ensures { IsLeastFrom self.now.marks low result }
    {
        least_from(self.marks.as_slice(), low)
    }
}

fn count_live(marks: &[Mark]) -> usize
    ensures { result ≡ count_by is_mark_live marks.now }
{
    let mut count = 0;
    for mark in marks {
        if mark.awaited.is_some() {
            count += 1;
        }
    }
    count
}

/// The least number from `low` on of a request that is awaited.
fn least_from(marks: &[Mark], low: u64) -> Option<u32>
    ensures { IsLeastFrom marks.now low result }
{
    let mut best = None;
    for mark in marks {
        best = lower(best, low, mark);
    }
    best
}

/// The lower one of a number, if there is one, and that of a site, if it is from `low` on.
fn lower(best: Option<u32>, low: u64, mark: &Mark) -> Option<u32>
    ensures { result ≡ lower_of best low (number_of mark.now) }
{
    match &mark.awaited {
        None => best,
        Some(awaited) => lower_number(best, low, awaited.number),
    }
}

fn lower_number(best: Option<u32>, low: u64, number: u32) -> Option<u32>
    ensures { result ≡ lower_of best low (Some number) }
{
    if (number as u64) < low {
        return best;
    }
    match best {
        None => Some(number),
        Some(other) => Some(number.min(other)),
    }
}

/// The first place at which request `n` is awaited.
fn place_of(marks: &[Mark], n: u32) -> Option<usize>
    ensures { MatchOption result ((s : ℕ) → IsSiteOf marks.now n s → ⊥) (λ s. IsSiteOf marks.now n s) }
{
    for (at, mark) in marks.iter().enumerate() {
        if has_number(mark, n) {
            return Some(at);
        }
    }
    None
}

/// Whether request `n` is awaited from a site.
fn has_number(mark: &Mark, n: u32) -> bool
    ensures { result ≡ has_number n mark.now }
{
    match &mark.awaited {
        None => false,
        Some(awaited) => awaited.number == n,
    }
}
