//! All that a call does at an event, once what came was noted.
ghost use Rattle.std.specs.Prelude.{IsSome, ◌≡◌, ◌≢◌, ◌≤◌, ◌<◌, ◌+◌, ◌^◌, ℕ, List, [], length, Some, slice_get, IfOk, MatchOption};
ghost use Rattle.gz_core.specs.Rows.{RowAt};
ghost use Rattle.gz_core.specs.Configurations.{IsConfig};
ghost use Rattle.gz_core.specs.Calls.{key_of};
ghost use Rattle.gz_core.specs.History.{Action, Caller, Trace, sent_from};
ghost use Rattle.gz_round.specs.Starting.{reads_from, AreRowRequests, SendsLast};
ghost use Rattle.gz_round.specs.Sites.{AreBlobs};
ghost use Rattle.gz_round.specs.Standing.{Stands, Runs, IsKept};
ghost use Rattle.gz_round.specs.Counting.{IsGoing};
ghost use Rattle.std.specs.Option.{option_copied};
ghost use Rattle.gz_round.specs.Causes.{EndsBy, row_value, column_value, vote_value};
ghost use Rattle.gz_round.specs.Goals.{is_overtaken, stage_step, vote_for, looked_in};
ghost use Rattle.gz_round.specs.Acting.{IsGoalUnmet, CanAct, CanFollow, Carries, CanCarry, ComesTo, contended_of, cut_off_of, given_in_of, CanFinish, Finishes, notice_for, working_version};
ghost use Rattle.gz_round.specs.Phases.{GoesFrom, IsNoNewVote};
ghost use Rattle.gz_round.specs.declared.outcome.Outcome.TheVariants.{Goes, Ends, Learnt, Placed};
ghost use Rattle.gz_round.specs.Following.{Ready, IsReady, Turned, HasTurned};

use crate::choosing::Choice;
use crate::floors::earlier_of;
use crate::following::Next;
use crate::outcome::{Outcome, RowTurn};
use crate::run::{Run, Stage, Target, copy_of};
use gz_core::{
    Answer, Ballot, Column, Config, Items, Out, Row, RowStep, SiteId, UnsureWhy, Value, Version,
    Vote,
};
use gz_pick::highest;
use std::alloc::{AllocError, Global};

impl Run {
    /// The reads with which a call begins to ask sites for rows, before which it may have stored fragments.
    pub fn open(
        &mut self,
        alloc: Global,
        config: &Config,
        first: u32,
    ) -> Result<Items<Out>, AllocError>
        requires config { IsConfig config.now }
        requires first { first < 2 ^ 31 }
        requires ready { IsReady config.now self.old }
        requires stage { self.old.stage ≡ Stage.Look }
        ensures runs { IfOk result (λ send. (w : Caller) (past : List Trace) (ms : List Action) → Ready config.now w past self.old ms → AreBlobs ms
            → Runs config.now w past self.new (sent_from first send ms)) }
        ensures reads { IfOk result (λ send. (w : Caller) (past : List Trace) (ms : List Action) → Ready config.now w past self.old ms → AreBlobs ms
            → send ≡ reads_from (key_of w.call) 0 config.now.n) }
    {
        let send = self.first_pass(alloc, config, &None, first)?;
        Ok(send)
    }

    /// All that the call does at an event, once what came was noted.
    pub fn take_turn(
        &mut self,
        alloc: Global,
        config: &Config,
        first: u32,
    ) -> Result<RowTurn, AllocError>
        requires config { IsConfig config.now }
        requires first { first < 2 ^ 31 }
        requires round { self.old.round < 2 ^ 31 + first }
        requires ready { IsReady config.now self.old }
        ensures turned { IfOk result (λ turn. (w : Caller) (past : List Trace) (ms : List Action) → Ready config.now w past self.old ms
            → HasTurned config.now w past self.new (sent_from first turn.send ms) turn.outcome) }
        ensures sends { IfOk result (λ turn. AreRowRequests turn.send) }
        ensures ends { IfOk result (λ turn. SendsLast turn.outcome turn.send) }
        ensures goes { IfOk result (λ turn. (w : Caller) (past : List Trace) (ms : List Action) → Ready config.now w past self.old ms
            → turn.outcome ≡ Goes → GoesFrom config.now self.old.stage self.new.stage ms) }
    {
        match self.stop(config) {
            Some(answer) => self.close(alloc, config, first, Outcome::Ends { answer }),
            None => self.turn_by_rows(alloc, config, first),
        }
    }

    /// The answer of a call that was overtaken as often as it tries, or has too few sites left.
    fn stop(&self, config: &Config) -> Option<Answer>
        requires config { IsConfig config.now }
        requires kept { IsKept config.now self.now }
        ensures { (w : Caller) (past : List Trace) (ms : List Action) → Stands config.now w past self.now ms
            → MatchOption result (IsGoing config.now ms) (EndsBy config.now w ms) }
    {
        if self.met >= config.tries {
            return Some(self.contended());
        }
        if self.outs() + config.qc as usize > config.n as usize {
            return Some(self.cut_off());
        }
        None
    }

    /// The answer of a call that was overtaken too often.
    fn contended(&self) -> Answer
        ensures { result ≡ contended_of self.now }
    {
        let met = self.met;
        if self.last_vote.is_some() {
            Answer::Unsure {
                why: UnsureWhy::Contended { met },
            }
        } else {
            Answer::Contended { met }
        }
    }

    /// The answer of a call with too few sites left.
    fn cut_off(&self) -> Answer
        requires { length self.now.rows ≤ 16 }
        ensures { result ≡ cut_off_of self.now }
    {
        let phase = self.wrote;
        let heard = self.known() as u32;
        if self.last_vote.is_some() {
            Answer::Unsure {
                why: UnsureWhy::NoQuorum { phase, heard },
            }
        } else {
            Answer::NoQuorum { phase, heard }
        }
    }

    /// What follows from the rows that are known.
    fn turn_by_rows(
        &mut self,
        alloc: Global,
        config: &Config,
        first: u32,
    ) -> Result<RowTurn, AllocError>
        requires config { IsConfig config.now }
        requires first { first < 2 ^ 31 }
        requires round { self.old.round < 2 ^ 31 + first }
        requires follows { CanFollow config.now self.old }
        ensures turned { IfOk result (λ turn. (w : Caller) (past : List Trace) (ms : List Action) → Ready config.now w past self.old ms → IsGoing config.now ms
            → HasTurned config.now w past self.new (sent_from first turn.send ms) turn.outcome) }
        ensures sends { IfOk result (λ turn. AreRowRequests turn.send) }
        ensures ends { IfOk result (λ turn. SendsLast turn.outcome turn.send) }
        ensures goes { IfOk result (λ turn. (w : Caller) (past : List Trace) (ms : List Action) → Ready config.now w past self.old ms
            → turn.outcome ≡ Goes → GoesFrom config.now self.old.stage self.new.stage ms) }
    {
        match self.next(config) {
            Next::Wait => self.propose_or_step(alloc, config, first),
            Next::Vote { version } => self.begin_fast(alloc, config, first, version),
            Next::Skip { version } => self.skip(alloc, config, first, version),
            Next::Chosen { version } => self.finish(alloc, config, first, version),
            Next::Learnt { version, site } => {
                let value = self.value_of(version, site)?;
                self.close(alloc, config, first, Outcome::Learnt { version, value })
            },
            Next::Absent => self.end(alloc, config, first, Answer::Absent),
            Next::Unborn { latest } => self.end(alloc, config, first, Answer::Unborn { latest }),
            Next::Collected { floor } => self.end(
                alloc,
                config,
                first,
                Answer::Collected { floor },
            ),
            Next::Trimmed { floor } => {
                let why = UnsureWhy::Trimmed { floor };
                self.end(alloc, config, first, Answer::Unsure { why })
            },
        }
    }

    /// Ends the call with an answer.
    fn end(
        &mut self,
        alloc: Global,
        config: &Config,
        first: u32,
        answer: Answer,
    ) -> Result<RowTurn, AllocError>
        requires config { IsConfig config.now }
        requires first { first < 2 ^ 31 }
        requires ready { IsReady config.now self.old }
        ensures turned { IfOk result (λ turn. (w : Caller) (past : List Trace) (ms : List Action) → Ready config.now w past self.old ms
            → EndsBy config.now w ms answer → Turned config.now w past self.new (sent_from first turn.send ms) turn.outcome) }
        ensures sends { IfOk result (λ turn. AreRowRequests turn.send) }
        ensures ends { IfOk result (λ turn. SendsLast turn.outcome turn.send) }
        ensures outcome { IfOk result (λ turn. turn.outcome ≡ Ends answer) }
    {
        self.close(alloc, config, first, Outcome::Ends { answer })
    }

    /// The phase goes on; once a quorum promises the call's ballot, the next one votes in it, or every site goes out.
    pub fn propose_or_step(
        &mut self,
        alloc: Global,
        config: &Config,
        first: u32,
    ) -> Result<RowTurn, AllocError>
        requires config { IsConfig config.now }
        requires first { first < 2 ^ 31 }
        requires round { self.old.round < 2 ^ 31 + first }
        requires acts { CanAct config.now self.old }
        ensures turned { IfOk result (λ turn. (w : Caller) (past : List Trace) (ms : List Action) → IsGoalUnmet config.now w past self.old ms
            → HasTurned config.now w past self.new (sent_from first turn.send ms) turn.outcome) }
        ensures sends { IfOk result (λ turn. AreRowRequests turn.send) }
        ensures ends { IfOk result (λ turn. SendsLast turn.outcome turn.send) }
        ensures fast { IfOk result (λ turn. IsNoNewVote self.old.stage self.new.stage) }
    {
        match self.choose(alloc, config)? {
            Choice::Wait => self.step_or_prepare(alloc, config, first),
            Choice::Accept { stage } => {
                self.stage = stage;
                self.step_or_prepare(alloc, config, first)
            },
            Choice::GiveIn => Ok(self.give_in(alloc)),
        }
    }

    /// Every site goes out, and nothing is sent.
    fn give_in(&self, alloc: Global) -> RowTurn
        ensures send { result.send ≡ [] }
        ensures outcome { result.outcome ≡ Ends (given_in_of self.now) }
    {
        RowTurn {
            send: Items::new(alloc),
            outcome: Outcome::Ends {
                answer: self.given_in(),
            },
        }
    }

    /// The step of the phase is made at each site that takes it. A ballot that leads no further gives way to another.
    fn step_or_prepare(
        &mut self,
        alloc: Global,
        config: &Config,
        first: u32,
    ) -> Result<RowTurn, AllocError>
        requires config { IsConfig config.now }
        requires first { first < 2 ^ 31 }
        requires round { self.old.round < 2 ^ 31 + first }
        requires carries { CanCarry config.now self.old }
        ensures turned { IfOk result (λ turn. (w : Caller) (past : List Trace) (ms : List Action) → Carries config.now w past self.old ms
            → HasTurned config.now w past self.new (sent_from first turn.send ms) turn.outcome) }
        ensures sends { IfOk result (λ turn. AreRowRequests turn.send) }
        ensures ends { IfOk result (λ turn. SendsLast turn.outcome turn.send) }
        ensures fast { IfOk result (λ turn. IsNoNewVote self.old.stage self.new.stage) }
    {
        if self.is_overtaken() {
            let version = self.working();
            return self.prepare(alloc, config, first, version);
        }
        self.make_step(alloc, config, first)
    }

    /// The step of the phase: none in `Look`, which reads alone.
    pub fn step(&self) -> Result<Option<RowStep>, AllocError>
        ensures { IfOk result (λ step. step ≡ stage_step self.now) }
    {
        match &self.stage {
            Stage::Look => Ok(None),
            Stage::Fast { version } => self.vote(*version),
            Stage::Prepare {
                version,
                ballot,
                ..
            } => Ok(Some(RowStep::Promise {
                version: *version,
                ballot: *ballot,
            })),
            Stage::Accept {
                version,
                ballot,
                value,
            } => classic_vote(*version, *ballot, value),
        }
    }

    /// The vote for the call's own value, if it has one.
    pub fn vote(&self, version: Version) -> Result<Option<RowStep>, AllocError>
        ensures { IfOk result (λ step. step ≡ vote_for version self.now.own) }
    {
        match &self.own {
            None => Ok(None),
            Some(value) => {
                let value = copy_of(value)?;
                Ok(Some(RowStep::FastVote { version, value }))
            },
        }
    }

    /// The notice that the call's own value is chosen, if it has one.
    fn notice(&self, version: Version) -> Result<Option<RowStep>, AllocError>
        ensures { IfOk result (λ step. step ≡ notice_for version self.now.own) }
    {
        match &self.own {
            None => Ok(None),
            Some(value) => {
                let value = copy_of(value)?;
                Ok(Some(RowStep::Decide { version, value }))
            },
        }
    }

    /// The version at which the call looks: the highest that has begun, or the one that it asks for, where that is lower.
    pub fn looked(&self) -> Version
        ensures { result ≡ looked_in self.now }
    {
        let highest = highest(self.rows.as_slice());
        match self.target {
            Target::Latest => highest,
            Target::At { version } => earlier_of(version, highest),
        }
    }

    /// The version that the phase works at.
    pub fn working(&self) -> Version
        ensures { result ≡ working_version self.now }
    {
        match &self.stage {
            Stage::Look => self.looked(),
            Stage::Fast { version } => *version,
            Stage::Prepare { version, .. } => *version,
            Stage::Accept { version, .. } => *version,
        }
    }

    /// Ends the call's work on rows. Reads that are due go out all the same.
    fn close(
        &mut self,
        alloc: Global,
        config: &Config,
        first: u32,
        outcome: Outcome,
    ) -> Result<RowTurn, AllocError>
        requires config { IsConfig config.now }
        requires first { first < 2 ^ 31 }
        requires ready { IsReady config.now self.old }
        ensures turned { IfOk result (λ turn. (w : Caller) (past : List Trace) (ms : List Action) → Ready config.now w past self.old ms
            → ComesTo config.now w ms outcome → Turned config.now w past self.new (sent_from first turn.send ms) turn.outcome) }
        ensures sends { IfOk result (λ turn. AreRowRequests turn.send) }
        ensures ends { IfOk result (λ turn. SendsLast turn.outcome turn.send) }
        ensures outcome { IfOk result (λ turn. turn.outcome ≡ outcome) }
    {
        let send = self.first_pass(alloc, config, &None, first)?;
        Ok(RowTurn { send, outcome })
    }

    /// Tells each site that can take it that the call's value is chosen.
    pub fn finish(
        &mut self,
        alloc: Global,
        config: &Config,
        first: u32,
        version: Version,
    ) -> Result<RowTurn, AllocError>
        requires config { IsConfig config.now }
        requires first { first < 2 ^ 31 }
        requires finishes { CanFinish config.now self.old version }
        ensures turned { IfOk result (λ turn. (w : Caller) (past : List Trace) (ms : List Action) → Finishes config.now w past self.old ms version
            → Turned config.now w past self.new (sent_from first turn.send ms) turn.outcome) }
        ensures sends { IfOk result (λ turn. AreRowRequests turn.send) }
        ensures ends { IfOk result (λ turn. SendsLast turn.outcome turn.send) }
        ensures outcome { IfOk result (λ turn. turn.outcome ≡ Placed version) }
    {
        let step = self.notice(version)?;
        let send = self.first_pass(alloc, config, &step, first)?;
        Ok(RowTurn {
            send,
            outcome: Outcome::Placed { version },
        })
    }
}

/// A vote in a classic ballot.
fn classic_vote(
    version: Version,
    ballot: Ballot,
    value: &Value,
) -> Result<Option<RowStep>, AllocError>
    ensures { IfOk result (λ step. step ≡ Some (RowStep.ClassicVote version ballot value.now)) }
{
    let value = copy_of(value)?;
    Ok(Some(RowStep::ClassicVote {
        version,
        ballot,
        value,
    }))
}

/// The value that a row has at a version, of a vote or a decision.
pub fn value_at(row: &Row, version: Version) -> Option<&Value>
    ensures { option_copied result ≡ row_value row.now version }
{
    match row.column(version) {
        None => None,
        Some(column) => value_in(column),
    }
}

fn value_in(column: &Column) -> Option<&Value>
    ensures { option_copied result ≡ column_value (Some column.now) }
{
    match column {
        Column::Decided { value } => Some(value),
        Column::Open { vote, .. } => value_of(vote),
    }
}

/// The value of a vote, if there is one.
pub fn value_of(vote: &Option<Vote>) -> Option<&Value>
    ensures { option_copied result ≡ vote_value vote.now }
{
    match vote {
        None => None,
        Some(vote) => Some(&vote.value),
    }
}
