//! The slots of a row: an acceptor's state of one version, with names in place of values.
ghost use Rattle.std.specs.Prelude.{◌≡◌};
ghost use Rattle.gz_core.specs.Slots.{slot_vote, slot_decision, slot_name, voted_name};

use crate::names::{Ballot, PutName};

/// An acceptor's state of one version. (Lamport 2006, "Fast Paxos".)
#[derive(Clone, Copy, Debug, PartialEq, Eq)]
pub enum Slot {
    /// The version was collected.
    Gone,
    /// The value of this name is known to be chosen.
    DecidedAs(PutName),
    /// The highest ballot that was promised, and the vote that stands: its ballot and the name of its value.
    OpenAt {
        promise: Ballot,
        vote: Option<(Ballot, PutName)>,
    },
}

impl Slot {
    /// The vote that stands: its ballot and the name of its value.
    pub fn vote(self) -> Option<(Ballot, PutName)>
        ensures { result ≡ slot_vote self }
    {
        match self {
            Slot::Gone => None,
            Slot::DecidedAs(_) => None,
            Slot::OpenAt { vote, .. } => vote,
        }
    }

    /// The name of the value that is known to be chosen.
    pub fn decision(self) -> Option<PutName>
        ensures { result ≡ slot_decision self }
    {
        match self {
            Slot::Gone => None,
            Slot::DecidedAs(name) => Some(name),
            Slot::OpenAt { .. } => None,
        }
    }

    /// The name of the value of the vote or the decision.
    pub fn name(self) -> Option<PutName>
        ensures { result ≡ slot_name self }
    {
        match self {
            Slot::Gone => None,
            Slot::DecidedAs(name) => Some(name),
            Slot::OpenAt { vote, .. } => name_in(vote),
        }
    }
}

/// The name of the value of a vote.
fn name_in(vote: Option<(Ballot, PutName)>) -> Option<PutName>
    ensures { result ≡ voted_name vote }
{
    match vote {
        None => None,
        Some((_, name)) => Some(name),
    }
}
