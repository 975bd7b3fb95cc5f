//! How a call goes on by a classic ballot, where a phase ended without its goal. (Lamport 2006, "Fast Paxos", section 2.2.)
ghost use Rattle.std.specs.Prelude.{◌≡◌, ◌≢◌, ◌≤◌, ◌<◌, ◌+◌, ◌^◌, List, [], length, None, IfOk};
ghost use Rattle.gz_core.specs.Configurations.{IsConfig};
ghost use Rattle.gz_core.specs.History.{Action, Caller, Trace, sent_from};
ghost use Rattle.gz_round.specs.Starting.{AreRowRequests, SendsLast};
ghost use Rattle.gz_round.specs.Following.{HasTurned};
ghost use Rattle.gz_round.specs.Phases.{IsNoNewVote};
ghost use Rattle.gz_round.specs.declared.outcome.Outcome.TheVariants.{Goes};
ghost use Rattle.gz_round.specs.Acting.{TakesStep, CanStep, RunsOut, CanRunOut, Prepares, CanPrepare, IsBallotAbove, given_in_of, ended_of, prepared_of};

use crate::outcome::{Outcome, RowTurn};
use crate::run::{Run, Stage};
use gz_core::{Answer, Ballot, Config, Items, Out, RowStep, UnsureWhy, Version};
use std::alloc::{AllocError, Global};

impl Run {
    /// Each site is asked for the step of the phase. Where nothing is awaited then, the phase has ended without its
    /// goal.
    pub fn make_step(
        &mut self,
        alloc: Global,
        config: &Config,
        first: u32,
    ) -> Result<RowTurn, AllocError>
        requires config { IsConfig config.now }
        requires first { first < 2 ^ 31 }
        requires round { self.old.round < 2 ^ 31 + first }
        requires steps { CanStep config.now self.old }
        ensures turned { IfOk result (λ turn. (w : Caller) (past : List Trace) (ms : List Action) → TakesStep config.now w past self.old ms
            → HasTurned config.now w past self.new (sent_from first turn.send ms) turn.outcome) }
        ensures sends { IfOk result (λ turn. AreRowRequests turn.send) }
        ensures ends { IfOk result (λ turn. SendsLast turn.outcome turn.send) }
        ensures fast { IfOk result (λ turn. IsNoNewVote self.old.stage self.new.stage) }
    {
        let step = self.step()?;
        let send = self.first_pass(alloc, config, &step, first)?;
        if self.waits() {
            return Ok(RowTurn {
                send,
                outcome: Outcome::Goes,
            });
        }
        self.run_out(alloc, config, first)
    }

    /// A phase that ended without its goal, by a pass that sent nothing: a classic ballot is prepared after `Look` and
    /// `Fast`; where one leads no further, every site goes out.
    pub fn run_out(
        &mut self,
        alloc: Global,
        config: &Config,
        first: u32,
    ) -> Result<RowTurn, AllocError>
        requires config { IsConfig config.now }
        requires first { first < 2 ^ 31 }
        requires round { self.old.round < 2 ^ 31 + first }
        requires runs_out { CanRunOut config.now self.old }
        ensures turned { IfOk result (λ turn. (w : Caller) (past : List Trace) (ms : List Action) → RunsOut config.now w past self.old ms
            → HasTurned config.now w past self.new (sent_from first turn.send ms) turn.outcome) }
        ensures sends { IfOk result (λ turn. AreRowRequests turn.send) }
        ensures ends { IfOk result (λ turn. SendsLast turn.outcome turn.send) }
        ensures fast { IfOk result (λ turn. IsNoNewVote self.old.stage self.new.stage) }
    {
        match self.ended() {
            Some(answer) => Ok(RowTurn {
                send: Items::new(alloc),
                outcome: Outcome::Ends { answer },
            }),
            None => {
                let version = self.working();
                self.prepare(alloc, config, first, version)
            },
        }
    }

    /// The answer of a call whose phase ended without its goal, none where it prepares a ballot.
    fn ended(&self) -> Option<Answer>
        ensures { result ≡ ended_of self.now }
    {
        match &self.stage {
            Stage::Look => None,
            Stage::Fast { .. } => None,
            Stage::Prepare { .. } => Some(self.given_in()),
            Stage::Accept { .. } => Some(self.given_in()),
        }
    }

    /// The answer of a call of which every site goes out.
    pub fn given_in(&self) -> Answer
        ensures { result ≡ given_in_of self.now }
    {
        let phase = self.wrote;
        if self.last_vote.is_some() {
            Answer::Unsure {
                why: UnsureWhy::NoQuorum { phase, heard: 0 },
            }
        } else {
            Answer::NoQuorum { phase, heard: 0 }
        }
    }

    /// Prepares a new ballot at a version: each site is asked to promise it.
    pub fn prepare(
        &mut self,
        alloc: Global,
        config: &Config,
        first: u32,
        version: Version,
    ) -> Result<RowTurn, AllocError>
        requires config { IsConfig config.now }
        requires first { first < 2 ^ 31 }
        requires round { self.old.round < 2 ^ 31 + first }
        requires prepares { CanPrepare config.now self.old version }
        ensures turned { IfOk result (λ turn. (w : Caller) (past : List Trace) (ms : List Action) → Prepares config.now w past self.old ms version
            → HasTurned config.now w past self.new (sent_from first turn.send ms) turn.outcome) }
        ensures sends { IfOk result (λ turn. AreRowRequests turn.send) }
        ensures ends { IfOk result (λ turn. SendsLast turn.outcome turn.send) }
        ensures fast { IfOk result (λ turn. IsNoNewVote self.old.stage self.new.stage) }
    {
        let ballot = self.next_ballot(version);
        self.promise(alloc, config, first, version, ballot)
    }

    /// Asks each site to promise a new ballot.
    fn promise(
        &mut self,
        alloc: Global,
        config: &Config,
        first: u32,
        version: Version,
        ballot: Ballot,
    ) -> Result<RowTurn, AllocError>
        requires config { IsConfig config.now }
        requires first { first < 2 ^ 31 }
        requires prepares { CanPrepare config.now self.old version }
        requires ballot { IsBallotAbove self.old version ballot }
        ensures turned { IfOk result (λ turn. (w : Caller) (past : List Trace) (ms : List Action) → Prepares config.now w past self.old ms version
            → HasTurned config.now w past self.new (sent_from first turn.send ms) turn.outcome) }
        ensures sends { IfOk result (λ turn. AreRowRequests turn.send) }
        ensures ends { IfOk result (λ turn. SendsLast turn.outcome turn.send) }
        ensures fast { IfOk result (λ turn. IsNoNewVote self.old.stage self.new.stage) }
    {
        let found = self.look_back(config, version)?;
        self.stage = Stage::Prepare {
            version,
            ballot,
            found,
        };
        let promise = Some(RowStep::Promise { version, ballot });
        let send = self.first_pass(alloc, config, &promise, first)?;
        let outcome = self.prepared();
        Ok(RowTurn { send, outcome })
    }

    /// What is left once a ballot was prepared at every site that takes it: to wait, or to give in.
    fn prepared(&self) -> Outcome
        ensures { result ≡ prepared_of self.now }
    {
        if self.waits() {
            Outcome::Goes
        } else {
            Outcome::Ends {
                answer: self.given_in(),
            }
        }
    }
}
