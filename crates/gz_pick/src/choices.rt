//! What a coordinator may propose.
ghost use Rattle.std.specs.Prelude.{◌≡◌, ◌≤◌, length, position};
ghost use Rattle.gz_core.specs.Configurations.{IsConfig};
ghost use Rattle.gz_pick.specs.Choices.{pick_of, AreHeardSites, top_of, heard_votes, has_threshold, carries};

use crate::heard::{Heard, Pick};
use crate::votes::{is_cast_for, is_cast_in, raise};
use gz_core::{Ballot, Config, PutName};

/// What the votes of a classic quorum or more leave to a coordinator: where none was heard any value; where the
/// highest vote is of a classic ballot its value; where the highest is fast the value that so many fast votes
/// name that a fast quorum may have chosen it, and any value where there is none. The least place that forces
/// the value is named. Takes no memory.
pub fn pick(config: &Config, heard: &[Heard]) -> Pick
    requires config { IsConfig config.now }
    requires sites { AreHeardSites config.now.n heard.now }
    requires quorum { config.now.qc ≤ length heard.now }
    ensures { result ≡ pick_of config.now.n config.now.qf heard.now }
{
    match top_heard(heard) {
        None => Pick::Free,
        Some(ballot) => match first_carried(config, heard, ballot) {
            None => Pick::Free,
            Some(at) => Pick::Forced { at },
        },
    }
}

/// The highest ballot of the votes that were heard.
#[tactic(auto, using(crate::proofs::Joins::join_none, crate::proofs::Joins::heard_step))]
fn top_heard(heard: &[Heard]) -> Option<Ballot>
    ensures { result ≡ top_of heard.now }
{
    let mut top = None;
    for one in heard {
        top = raise(top, &one.vote);
    }
    top
}

/// The first place that forces its value, where `b` is the highest ballot.
fn first_carried(config: &Config, heard: &[Heard], b: Ballot) -> Option<usize>
    ensures { result ≡ position (carries config.now.n config.now.qf heard.now b) heard.now }
{
    heard
        .iter()
        .position(|one| is_carried(config, heard, b, one))
}

/// Whether a vote forces its value, where `b` is the highest ballot.
fn is_carried(config: &Config, heard: &[Heard], b: Ballot, one: &Heard) -> bool
    ensures { result ≡ carries config.now.n config.now.qf heard.now b one.now }
{
    is_cast_in(&one.vote, b) && (!b.is_fast() || reaches_threshold(config, heard, &one.vote))
}

/// Whether so many were heard with a fast vote that the others may complete its fast quorum.
fn reaches_threshold(config: &Config, heard: &[Heard], vote: &Option<(Ballot, PutName)>) -> bool
    ensures { result ≡ has_threshold config.now.n config.now.qf heard.now vote.now }
{
    match vote {
        None => false,
        Some((ballot, name)) => {
            let needed = heard.len() + config.qf as usize;
            let given = config.n as usize + count_heard(heard, *ballot, *name);
            needed <= given
        },
    }
}

/// How many were heard with a vote of ballot `b` for `x`.
fn count_heard(heard: &[Heard], b: Ballot, x: PutName) -> usize
    ensures { result ≡ heard_votes b x heard.now }
{
    heard
        .iter()
        .filter(|one| is_cast_for(&one.vote, b, x))
        .count()
}
