//! Steps of the acceptor, by which the tests make their rows.
use crate::samples::{HIGH, LOW, ONE, TWO, tomb};
use gz_accept::{Step, classic_vote, decide, fast_vote, promise, trim};
use gz_core::{Row, Value, Version};
use std::alloc::{AllocError, Global};

pub const FIRST: Version = Version(1);

pub const SECOND: Version = Version(2);

/// A step at the first version, in the fast ballot, the low one or the high one, or a decision at the second.
#[derive(Clone, Copy)]
pub enum Act {
    FastVote,
    PromiseLow,
    PromiseHigh,
    VoteLow,
    VoteHigh,
    Decide,
    DecideSecond,
    Trim,
}

/// Whose value a step is for.
#[derive(Clone, Copy)]
pub enum Of {
    One,
    Two,
}

/// A step, and whose value it is for.
pub type Named = (Act, Of);

/// Takes the step on a row, for the value `x`.
fn take(row: &mut Row, act: Act, x: &Value) -> Result<Step, AllocError> {
    match act {
        Act::FastVote => fast_vote(row, FIRST, x),
        Act::PromiseLow => promise(row, FIRST, LOW),
        Act::PromiseHigh => promise(row, FIRST, HIGH),
        Act::VoteLow => classic_vote(row, FIRST, LOW, x),
        Act::VoteHigh => classic_vote(row, FIRST, HIGH, x),
        Act::Decide => decide(row, FIRST, x),
        Act::DecideSecond => decide(row, SECOND, x),
        Act::Trim => trim(row, FIRST, x),
    }
}

/// Takes the step, for the value of its name.
pub fn take_named(row: &mut Row, named: Named) -> Result<Step, AllocError> {
    let (act, of) = named;
    let value = match of {
        Of::One => tomb(ONE),
        Of::Two => tomb(TWO),
    };
    take(row, act, &value)
}

/// The row that a step makes of the empty one.
pub fn row_by(alloc: Global, named: Named) -> Option<Row> {
    let mut row = Row::empty(alloc);
    take_named(&mut row, named).ok()?;
    Some(row)
}
