//! The value that a call proposes in a classic ballot, once a quorum promises it. (Lamport 2006, "Fast Paxos",
//! section 2.2.)
ghost use Rattle.std.specs.Prelude.{◌≡◌, ◌≤◌, ◌<◌, ◌+◌, ◌^◌, ◌||◌, List, Option, length, slice_get, Some, IfOk, OnOk, IsSome, MatchOption};
ghost use Rattle.std.specs.List.{All};
ghost use Rattle.gz_core.specs.Rows.{RowAt};
ghost use Rattle.gz_core.specs.Names.{BallotAt};
ghost use Rattle.gz_core.specs.declared.slots.Slot.TheVariants.{OpenAt};
ghost use Rattle.gz_core.specs.Configurations.{IsConfig};
ghost use Rattle.gz_config.specs.declared.Config.{Config};
ghost use Rattle.gz_pick.specs.Choices.{AreHeardSites};
ghost use Rattle.gz_pick.specs.Evidences.{is_in};
ghost use Rattle.gz_core.specs.History.{Action, Caller, Trace};
ghost use Rattle.gz_round.specs.Causes.{row_value};
ghost use Rattle.gz_round.specs.Acting.{IsGoalUnmet, CanAct, ChoiceMeans, choice_of};
ghost use Rattle.gz_round.specs.LookBack.{or_next};
ghost use Rattle.gz_round.specs.Choosing.{promised_vote, heard_vote, IsHeardIn, AreHeardIn, IsProposal};

use crate::acting::value_at;
use crate::run::{Run, Stage, copy_if_some, copy_of};
use gz_core::{Ballot, Config, Items, PutName, Row, SiteId, Slot, Value, Version};
use gz_pick::heard::{Heard, Pick};
use gz_pick::pick;
use std::alloc::{AllocError, Global};

/// What the promises of the call's ballot come to.
#[derive(Drop)]
pub enum Choice {
    /// The phase goes on: they are too few.
    Wait,
    /// This phase follows, which votes in the ballot.
    Accept { stage: Stage },
    /// They leave the value to the call, and it has none to propose.
    GiveIn,
}

/// A vote for a value follows, if there is one.
fn choice_of(version: Version, ballot: Ballot, value: Option<Value>) -> Choice
    ensures { result ≡ choice_of version ballot value }
{
    match value {
        None => Choice::GiveIn,
        Some(value) => Choice::Accept {
            stage: Stage::Accept {
                version,
                ballot,
                value,
            },
        },
    }
}

impl Run {
    /// What follows once a classic quorum of known rows promises the call's ballot: a vote for the value that their
    /// votes force. Where they force none, it is the call's own value, or the one that it looked back at.
    pub fn choose(&self, alloc: Global, config: &Config) -> Result<Choice, AllocError>
        requires config { IsConfig config.now }
        requires acts { CanAct config.now self.now }
        ensures { IfOk result (λ choice. (w : Caller) (past : List Trace) (ms : List Action) → IsGoalUnmet config.now w past self.now ms
            → ChoiceMeans config.now w past self.now ms choice) }
    {
        match &self.stage {
            Stage::Prepare {
                version,
                ballot,
                found,
            } => self.choose_in(alloc, config, *version, *ballot, found),
            _ => Ok(Choice::Wait),
        }
    }

    /// What follows the preparation of a ballot.
    fn choose_in(
        &self,
        alloc: Global,
        config: &Config,
        version: Version,
        ballot: Ballot,
        found: &Option<Value>,
    ) -> Result<Choice, AllocError>
        requires config { IsConfig config.now }
        requires acts { CanAct config.now self.now }
        requires stage { self.now.stage ≡ Stage.Prepare version ballot found.now }
        ensures { IfOk result (λ choice. (w : Caller) (past : List Trace) (ms : List Action) → IsGoalUnmet config.now w past self.now ms
            → ChoiceMeans config.now w past self.now ms choice) }
    {
        if self.round < ballot.round {
            return Ok(Choice::Wait);
        }
        let heard = self.promises(alloc, config, version, ballot)?;
        if heard.len() < config.qc as usize {
            return Ok(Choice::Wait);
        }
        let value = self.proposal(config, version, found, &heard)?;
        Ok(choice_of(version, ballot, value))
    }

    /// The value to propose, by the votes of the rows that promise the ballot: none where they force none and the
    /// call has none.
    fn proposal(
        &self,
        config: &Config,
        version: Version,
        found: &Option<Value>,
        heard: &Items<Heard>,
    ) -> Result<Option<Value>, AllocError>
        requires config { IsConfig config.now }
        requires sites { AreHeardSites config.now.n heard.now }
        requires quorum { config.now.qc ≤ length heard.now }
        requires heard { (ballot : BallotAt) × All (IsHeardIn self.now.rows version ballot) heard.now }
        ensures { IfOk result (λ value. IsProposal config.now self.now version found.now heard.now value) }
    {
        match pick(config, heard.as_slice()) {
            Pick::Free => self.free_value(found),
            Pick::Forced { at } => {
                let value = self.value_of(version, heard.at(at).site)?;
                Ok(Some(value))
            },
        }
    }

    /// A copy of the value that the call proposes where none is forced.
    fn free_value(&self, found: &Option<Value>) -> Result<Option<Value>, AllocError>
        ensures { IfOk result (λ value. value ≡ or_next self.now.own found.now) }
    {
        match &self.own {
            None => copy_if_some(found),
            Some(value) => Ok(Some(copy_of(value)?)),
        }
    }

    /// A copy of the value that the row of a site has at a version.
    pub fn value_of(&self, version: Version, site: SiteId) -> Result<Value, AllocError>
        requires site { site < length self.now.rows }
        requires has { (row : RowAt) × (slice_get self.now.rows site ≡ Some (Some row)) × IsSome (row_value row version) }
        ensures { IfOk result (λ value. (row : RowAt) → slice_get self.now.rows site ≡ Some (Some row) → row_value row version ≡ Some value) }
    {
        match self.rows.at(site.index()) {
            None => unreachable!(),
            Some(row) => copy_at(row, version),
        }
    }

    /// The sites whose known rows promise a ballot at a version, and have no vote of it there.
    fn promises(
        &self,
        alloc: Global,
        config: &Config,
        version: Version,
        ballot: Ballot,
    ) -> Result<Items<Heard>, AllocError>
        requires config { IsConfig config.now }
        requires rows { length self.now.rows ≡ config.now.n }
        ensures { IfOk result (λ heard. AreHeardIn config.now self.now.rows version ballot heard config.now.n) }
    {
        let mut heard = Items::new(alloc);
        for at in 0..config.n as usize {
            note_promise(&mut heard, at, self.rows.at(at), version, ballot)?;
        }
        Ok(heard)
    }
}

/// Adds a site whose row promises a ballot at a version, and has no vote of it there.
fn note_promise(
    heard: &mut Items<Heard>,
    at: usize,
    row: &Option<Row>,
    version: Version,
    ballot: Ballot,
) -> Result<(), AllocError>
    requires { at < 16 }
    ensures { OnOk result ((c : Config) (rows : List (Option RowAt)) → at < c.n → slice_get rows at ≡ Some row.now
        → AreHeardIn c rows version ballot heard.old at → AreHeardIn c rows version ballot heard.new (at + 1)) }
{
    match promise_of(row, version, ballot) {
        None => Ok(()),
        Some(vote) => heard.push(Heard {
            site: SiteId(at as u8),
            vote,
        }),
    }
}

/// A copy of the value that a row has at a version.
fn copy_at(row: &Row, version: Version) -> Result<Value, AllocError>
    requires { IsSome (row_value row.now version) }
    ensures { IfOk result (λ value. row_value row.now version ≡ Some value) }
{
    match value_at(row, version) {
        None => unreachable!(),
        Some(value) => copy_of(value),
    }
}

/// The vote of a row that promises a ballot at a version, and has no vote of it there: none where it is not such a row.
fn promise_of(
    row: &Option<Row>,
    version: Version,
    ballot: Ballot,
) -> Option<Option<(Ballot, PutName)>>
    ensures { result ≡ heard_vote version ballot row.now }
{
    match row {
        None => None,
        Some(row) => promise_in(row.slot(version), ballot),
    }
}

fn promise_in(slot: Slot, ballot: Ballot) -> Option<Option<(Ballot, PutName)>>
    ensures { result ≡ promised_vote ballot slot }
{
    match slot {
        Slot::Gone => None,
        Slot::DecidedAs(_) => None,
        Slot::OpenAt { promise, vote } => promise_at(promise, vote, ballot),
    }
}

fn promise_at(
    promise: Ballot,
    vote: Option<(Ballot, PutName)>,
    ballot: Ballot,
) -> Option<Option<(Ballot, PutName)>>
    ensures { result ≡ promised_vote ballot (OpenAt promise vote) }
{
    if promise == ballot && !is_cast_in(&vote, ballot) {
        Some(vote)
    } else {
        None
    }
}

/// Whether a vote is one of this ballot.
fn is_cast_in(vote: &Option<(Ballot, PutName)>, ballot: Ballot) -> bool
    ensures { result ≡ is_in ballot vote.now }
{
    match vote {
        None => false,
        Some((cast, _)) => *cast == ballot,
    }
}
