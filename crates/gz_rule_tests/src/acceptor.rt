//! The steps of the acceptor on small rows.
use crate::acts::{Act, FIRST, Named, Of, row_by, take_named};
use crate::samples::{HIGH, LOW, ONE};
use gz_accept::{Step, classic_step, decide_step, fast_step, promise_step, trim_step};
use gz_core::Row;
use std::alloc::Global;

const BELOW: Step = Step::Below { promised: HIGH };

const TRIMMED: Step = Step::Trimmed { floor: FIRST };

/// The answer of a step: below the high ballot, and trimmed up to the first version, where it is one of these.
#[derive(Clone, Copy)]
enum Answered {
    Done,
    Already,
    Below,
    Settled,
    Trimmed,
}

fn step_of(answered: Answered) -> Step {
    match answered {
        Answered::Done => Step::Done,
        Answered::Already => Step::Already,
        Answered::Below => BELOW,
        Answered::Settled => Step::Settled,
        Answered::Trimmed => TRIMMED,
    }
}

/// A step, and its answer.
type Taken = (Named, Answered);

/// Steps one after another on the empty row.
const RUNS: &[&[Taken]] = &[
    &[
        ((Act::PromiseHigh, Of::One), Answered::Done),
        ((Act::PromiseHigh, Of::One), Answered::Already),
        ((Act::PromiseLow, Of::One), Answered::Below),
        ((Act::FastVote, Of::One), Answered::Below),
    ],
    &[
        ((Act::FastVote, Of::One), Answered::Done),
        ((Act::FastVote, Of::Two), Answered::Already),
        ((Act::VoteLow, Of::Two), Answered::Done),
        ((Act::Decide, Of::Two), Answered::Done),
    ],
    &[
        ((Act::VoteHigh, Of::One), Answered::Done),
        ((Act::VoteHigh, Of::One), Answered::Already),
        ((Act::VoteLow, Of::Two), Answered::Below),
        ((Act::Trim, Of::One), Answered::Done),
    ],
    &[
        ((Act::Trim, Of::One), Answered::Done),
        ((Act::Trim, Of::One), Answered::Already),
        ((Act::FastVote, Of::One), Answered::Trimmed),
        ((Act::DecideSecond, Of::One), Answered::Settled),
    ],
    &[
        ((Act::DecideSecond, Of::One), Answered::Done),
        ((Act::DecideSecond, Of::One), Answered::Settled),
        ((Act::Trim, Of::Two), Answered::Settled),
        ((Act::Trim, Of::One), Answered::Done),
    ],
];

/// Whether each step on a row is answered as it is to be.
fn takes(row: &mut Row, run: &[Taken]) -> bool {
    for (named, answered) in run {
        if take_named(row, *named) != Ok(step_of(*answered)) {
            return false;
        }
    }
    true
}

fn takes_from_empty(alloc: Global, run: &[Taken]) -> bool {
    let mut row = Row::empty(alloc);
    takes(&mut row, run)
}

#[test]
fn steps_on_the_empty_row(rt: HostRuntime) {
    for run in RUNS {
        assert!(rt; takes_from_empty(rt.alloc(), run));
    }
}

/// What a fast vote, a promise of the low ballot, a vote in the high one, a decision and a collection come to.
fn answers(row: &Row) -> [Step; 5] {
    [
        fast_step(row, FIRST),
        promise_step(row, FIRST, LOW),
        classic_step(row, FIRST, HIGH),
        decide_step(row, FIRST),
        trim_step(row, FIRST, ONE),
    ]
}

/// The answers on the row that a step makes.
fn answers_after(alloc: Global, act: Act) -> Option<[Step; 5]> {
    Some(answers(&row_by(alloc, (act, Of::One))?))
}

const AT_PROMISE: [Step; 5] = [BELOW, BELOW, Step::Done, Step::Done, Step::Done];

const BELOW_FLOOR: [Step; 5] = [TRIMMED, TRIMMED, TRIMMED, TRIMMED, Step::Already];

#[test]
fn answers_at_a_promise_and_below_the_floor(rt: HostRuntime) {
    assert!(rt; answers_after(rt.alloc(), Act::PromiseHigh) == Some(AT_PROMISE));
    assert!(rt; answers_after(rt.alloc(), Act::Trim) == Some(BELOW_FLOOR));
}
