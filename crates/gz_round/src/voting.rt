//! How a call that writes begins to vote for its value at a version: a new phase asks each site for its step at once, also where
//! what is known there is its goal already.
ghost use Rattle.std.specs.Prelude.{◌≡◌, ◌≢◌, ◌≤◌, ◌<◌, ◌+◌, ◌^◌, List, [], IfOk, OnOk, false};
ghost use Rattle.gz_core.specs.Configurations.{IsConfig};
ghost use Rattle.gz_core.specs.History.{Action, Caller, Trace, sent_from};
ghost use Rattle.gz_round.specs.Floors.{top_floor_of, AreRows};
ghost use Rattle.gz_round.specs.Starting.{AreRowRequests, SendsLast};
ghost use Rattle.gz_round.specs.Acting.{VotesNext, CanCast, HasCast, BeginsFast, CanBeginFast, Skips, CanSkip, GoesOnAbove, CanGoOnAbove, is_waiting};
ghost use Rattle.gz_round.specs.Following.{HasTurned};
ghost use Rattle.gz_round.specs.Phases.{IsVoteFrom};
ghost use Rattle.gz_round.specs.declared.outcome.Outcome.TheVariants.{Goes};

use crate::following::{Next, evident};
use crate::outcome::{Outcome, RowTurn};
use crate::run::{Run, Stage};
use gz_core::{Config, Items, Out, Version};
use std::alloc::{AllocError, Global};

impl Run {
    /// Votes at a version at which no value is known to be chosen.
    pub fn begin_fast(
        &mut self,
        alloc: Global,
        config: &Config,
        first: u32,
        version: Version,
    ) -> Result<RowTurn, AllocError>
        requires config { IsConfig config.now }
        requires first { first < 2 ^ 31 }
        requires round { self.old.round < 2 ^ 31 + first }
        requires begins { CanBeginFast config.now self.old version }
        ensures turned { IfOk result (λ turn. (w : Caller) (past : List Trace) (ms : List Action) → BeginsFast config.now w past self.old ms version
            → HasTurned config.now w past self.new (sent_from first turn.send ms) turn.outcome) }
        ensures sends { IfOk result (λ turn. AreRowRequests turn.send) }
        ensures ends { IfOk result (λ turn. SendsLast turn.outcome turn.send) }
        ensures from { IfOk result (λ turn. turn.outcome ≡ Goes → IsVoteFrom version self.new.stage) }
    {
        match self.floor_from(version) {
            None => {
                self.stage = Stage::Fast { version };
                self.propose_or_step(alloc, config, first)
            },
            Some(floor) => self.vote_below(alloc, config, first, version, floor),
        }
    }

    /// Votes at a version that was collected. Where no site takes the vote and nothing is awaited, the floor counts at once.
    fn vote_below(
        &mut self,
        alloc: Global,
        config: &Config,
        first: u32,
        version: Version,
        floor: Version,
    ) -> Result<RowTurn, AllocError>
        requires config { IsConfig config.now }
        requires first { first < 2 ^ 31 }
        requires round { self.old.round < 2 ^ 31 + first }
        requires begins { CanBeginFast config.now self.old version }
        requires low { floor + 2 < 2 ^ 63 }
        requires rows { AreRows self.old.rows }
        requires at { version ≤ floor }
        requires top { floor ≡ top_floor_of self.old.rows }
        ensures turned { IfOk result (λ turn. (w : Caller) (past : List Trace) (ms : List Action) → BeginsFast config.now w past self.old ms version
            → HasTurned config.now w past self.new (sent_from first turn.send ms) turn.outcome) }
        ensures sends { IfOk result (λ turn. AreRowRequests turn.send) }
        ensures ends { IfOk result (λ turn. SendsLast turn.outcome turn.send) }
        ensures from { IfOk result (λ turn. turn.outcome ≡ Goes → IsVoteFrom version self.new.stage) }
    {
        let send = self.cast(alloc, config, first, version)?;
        if self.waits() {
            return Ok(RowTurn {
                send,
                outcome: Outcome::Goes,
            });
        }
        self.skip(alloc, config, first, floor.next().next())
    }

    /// Votes two above a floor. Where no site takes the vote and nothing is awaited, what is known there counts at once.
    pub fn skip(
        &mut self,
        alloc: Global,
        config: &Config,
        first: u32,
        version: Version,
    ) -> Result<RowTurn, AllocError>
        requires config { IsConfig config.now }
        requires first { first < 2 ^ 31 }
        requires round { self.old.round < 2 ^ 31 + first }
        requires skips { CanSkip config.now self.old version }
        ensures turned { IfOk result (λ turn. (w : Caller) (past : List Trace) (ms : List Action) → Skips config.now w past self.old ms version
            → HasTurned config.now w past self.new (sent_from first turn.send ms) turn.outcome) }
        ensures sends { IfOk result (λ turn. AreRowRequests turn.send) }
        ensures ends { IfOk result (λ turn. SendsLast turn.outcome turn.send) }
        ensures from { IfOk result (λ turn. turn.outcome ≡ Goes → IsVoteFrom version self.new.stage) }
    {
        let send = self.cast(alloc, config, first, version)?;
        if self.waits() {
            return Ok(RowTurn {
                send,
                outcome: Outcome::Goes,
            });
        }
        self.after_skip(alloc, config, first, version)
    }

    /// What is known two above a floor counts, where no site took the vote there.
    fn after_skip(
        &mut self,
        alloc: Global,
        config: &Config,
        first: u32,
        version: Version,
    ) -> Result<RowTurn, AllocError>
        requires config { IsConfig config.now }
        requires first { first < 2 ^ 31 }
        requires round { self.old.round < 2 ^ 31 + first }
        requires skipped { CanGoOnAbove config.now self.old version }
        ensures turned { IfOk result (λ turn. (w : Caller) (past : List Trace) (ms : List Action) → GoesOnAbove config.now w past self.old ms version
            → HasTurned config.now w past self.new (sent_from first turn.send ms) turn.outcome) }
        ensures sends { IfOk result (λ turn. AreRowRequests turn.send) }
        ensures ends { IfOk result (λ turn. SendsLast turn.outcome turn.send) }
        ensures from { IfOk result (λ turn. turn.outcome ≡ Goes → IsVoteFrom version self.new.stage) }
    {
        let Some(site) = evident(config, self.rows.as_slice(), version) else {
            return self.run_out(alloc, config, first);
        };
        match self.after_chosen(config, version, site) {
            Next::Vote { version } => {
                self.stage = Stage::Fast { version };
                self.propose_or_step(alloc, config, first)
            },
            Next::Chosen { version } => self.finish(alloc, config, first, version),
            _ => unreachable!(),
        }
    }

    /// Asks each site for a vote at a version.
    fn cast(
        &mut self,
        alloc: Global,
        config: &Config,
        first: u32,
        version: Version,
    ) -> Result<Items<Out>, AllocError>
        requires config { IsConfig config.now }
        requires first { first < 2 ^ 31 }
        requires votes { CanCast config.now self.old version }
        ensures cast { IfOk result (λ send. (w : Caller) (past : List Trace) (ms : List Action) → VotesNext config.now w past self.old ms version
            → HasCast config.now w past self.new (sent_from first send ms) version) }
        ensures rows { OnOk result (self.new.rows ≡ self.old.rows) }
        ensures round { OnOk result (self.new.round ≤ self.old.round) }
        ensures sends { IfOk result (λ send. AreRowRequests send) }
        ensures idle { IfOk result (λ send. is_waiting self.new ≡ false → send ≡ []) }
    {
        self.stage = Stage::Fast { version };
        let step = self.vote(version)?;
        let send = self.first_pass(alloc, config, &step, first)?;
        Ok(send)
    }
}
