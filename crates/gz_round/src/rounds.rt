//! The rounds of classic ballots: which one comes next, and when one leads no further.
ghost use Rattle.std.specs.Prelude.{◌≡◌, ◌≤◌, ◌<◌, ◌+◌, ◌^◌, max};
ghost use Rattle.std.specs.List.{list_any, count_by};
ghost use Rattle.gz_round.specs.Rounds.{round_known, above_known, promises_known, slot_round, slot_promises_above};
ghost use Rattle.gz_round.specs.Goals.{is_overtaken};
ghost use Rattle.gz_round.specs.Acting.{round_in, IsBallotAbove};

use crate::run::{Run, Stage};
use gz_core::{Ballot, Row, Slot, Version};

/// The greater of two rounds.
pub fn later_of(a: u32, b: u32) -> u32
    ensures { result ≡ max a b }
{
    if a < b { b } else { a }
}

impl Run {
    /// The ballot to prepare at a version: one round above those that the session used, and those that known rows
    /// promise there.
    pub fn next_ballot(&self, version: Version) -> Ballot
        requires used { self.now.round + 1 < 2 ^ 32 }
        requires known { round_in version self.now.rows < 2 ^ 31 }
        ensures { IsBallotAbove self.now version result }
    {
        let top = later_of(self.round, top_round(self.rows.as_slice(), version));
        Ballot {
            round: top + 1,
            session: self.name.session_number(),
        }
    }

    /// Whether the ballot of the phase leads no further: a known row promises one above, or the call never
    /// promised it.
    pub fn is_overtaken(&self) -> bool
        ensures { result ≡ is_overtaken self.now }
    {
        match &self.stage {
            Stage::Look => false,
            Stage::Fast { .. } => false,
            Stage::Prepare {
                version,
                ballot,
                ..
            } => self.round < ballot.round || any_above(self.rows.as_slice(), *version, *ballot),
            Stage::Accept {
                version,
                ballot,
                ..
            } => any_above(self.rows.as_slice(), *version, *ballot),
        }
    }
}

/// The greatest round that known rows promise at a version.
fn top_round(rows: &[Option<Row>], version: Version) -> u32
    ensures { result ≡ round_in version rows.now }
{
    let mut top = 0;
    for row in rows {
        top = later_of(top, round_at(row, version));
    }
    top
}

/// The round that a row promises at a version.
fn round_at(row: &Option<Row>, version: Version) -> u32
    ensures { result ≡ round_known version row.now }
{
    match row {
        None => 0,
        Some(row) => round_of(row.slot(version)),
    }
}

fn round_of(slot: Slot) -> u32
    ensures { result ≡ slot_round slot }
{
    match slot {
        Slot::Gone => 0,
        Slot::DecidedAs(_) => 0,
        Slot::OpenAt { promise, .. } => promise.round,
    }
}

/// Whether some row promises a ballot above this one at a version.
fn any_above(rows: &[Option<Row>], version: Version, ballot: Ballot) -> bool
    ensures { result ≡ list_any (above_known version ballot) rows.now }
{
    for row in rows {
        if is_above(row, version, ballot) {
            return true;
        }
    }
    false
}

fn is_above(row: &Option<Row>, version: Version, ballot: Ballot) -> bool
    ensures { result ≡ above_known version ballot row.now }
{
    match row {
        None => false,
        Some(row) => is_slot_above(row.slot(version), ballot),
    }
}

fn is_slot_above(slot: Slot, ballot: Ballot) -> bool
    ensures { result ≡ slot_promises_above slot ballot }
{
    match slot {
        Slot::Gone => false,
        Slot::DecidedAs(_) => false,
        Slot::OpenAt { promise, .. } => ballot.is_below(promise),
    }
}
