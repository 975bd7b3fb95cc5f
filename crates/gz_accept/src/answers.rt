//! What each step of the acceptor answers, without a change to the row and without memory.
ghost use Rattle.std.specs.Prelude.{◌≡◌, ◌<◌, ◌+◌, ◌^◌};
ghost use Rattle.gz_core.specs.Names.{IsClassic};
ghost use Rattle.gz_accept.specs.Steps.{fast_answer, promise_answer, classic_answer, decide_answer, trim_answer, is_cast_in, open_answer};

use gz_core::{Ballot, PutName, Row, Slot, Version};

/// What a step of the acceptor comes to. The row changes exactly at `Done`.
#[derive(Clone, Copy, Debug, PartialEq, Eq)]
pub enum Step {
    /// The step was taken.
    Done,
    /// It was taken before: a vote stands in this ballot, this ballot is promised, or the floor is as high.
    Already,
    /// A ballot above the step's own is promised.
    Below { promised: Ballot },
    /// The value of the version is known to be chosen.
    Settled,
    /// The version was collected.
    Trimmed { floor: Version },
}

/// What `fast_vote` answers: whether the fast ballot takes a vote at this version.
pub fn fast_step(row: &Row, v: Version) -> Step
    ensures { result ≡ fast_answer row.now v }
{
    match row.slot(v) {
        Slot::Gone => Step::Trimmed { floor: row.floor() },
        Slot::DecidedAs(_) => Step::Settled,
        Slot::OpenAt { promise, vote } => open_step(promise, Ballot::fast(), vote.is_some()),
    }
}

/// What `promise` answers: whether ballot `b`, a classic one, may be promised at this version.
pub fn promise_step(row: &Row, v: Version, b: Ballot) -> Step
    requires { IsClassic b }
    ensures { result ≡ promise_answer row.now v b }
{
    match row.slot(v) {
        Slot::Gone => Step::Trimmed { floor: row.floor() },
        Slot::DecidedAs(_) => Step::Settled,
        Slot::OpenAt { promise, .. } => open_step(promise, b, promise == b),
    }
}

/// What `classic_vote` answers: whether ballot `b`, a classic one, takes a vote at this version.
pub fn classic_step(row: &Row, v: Version, b: Ballot) -> Step
    requires { IsClassic b }
    ensures { result ≡ classic_answer row.now v b }
{
    match row.slot(v) {
        Slot::Gone => Step::Trimmed { floor: row.floor() },
        Slot::DecidedAs(_) => Step::Settled,
        Slot::OpenAt { promise, vote } => open_step(promise, b, is_vote_in(vote, b)),
    }
}

/// What `decide` answers: whether the version still lacks a decision.
pub fn decide_step(row: &Row, v: Version) -> Step
    ensures { result ≡ decide_answer row.now v }
{
    match row.slot(v) {
        Slot::Gone => Step::Trimmed { floor: row.floor() },
        Slot::DecidedAs(_) => Step::Settled,
        Slot::OpenAt { .. } => Step::Done,
    }
}

/// What `trim` answers: whether the floor may rise to `to` below the value that `x` names.
pub fn trim_step(row: &Row, to: Version, x: PutName) -> Step
    requires { to + 1 < 2 ^ 63 }
    ensures { result ≡ trim_answer row.now to x }
{
    if to <= row.floor() {
        return Step::Already;
    }
    match row.slot(to.next()) {
        Slot::Gone => Step::Already,
        Slot::DecidedAs(name) => { if name == x { Step::Done } else { Step::Settled } },
        Slot::OpenAt { .. } => Step::Done,
    }
}

/// The answer at an open slot: a promise above ballot `b` comes before a step that was taken already.
fn open_step(promise: Ballot, b: Ballot, taken: bool) -> Step
    ensures { result ≡ open_answer promise b taken }
{
    if b.is_below(promise) {
        Step::Below { promised: promise }
    } else if taken {
        Step::Already
    } else {
        Step::Done
    }
}

fn is_vote_in(vote: Option<(Ballot, PutName)>, b: Ballot) -> bool
    ensures { result ≡ is_cast_in b vote }
{
    match vote {
        None => false,
        Some((ballot, _)) => ballot == b,
    }
}
