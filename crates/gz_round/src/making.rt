//! The rows that steps make.
ghost use Rattle.std.specs.Prelude.{◌≡◌, IfOk};
ghost use Rattle.gz_accept.specs.Steps.{row_after};
ghost use Rattle.gz_round.specs.Asking.{made_of, is_notice};
ghost use Rattle.gz_round.specs.Sending.{answer_of, made_by};
ghost use Rattle.gz_round.specs.Steps.{IsStep};

use gz_accept::{
    Step, classic_step, classic_vote, decide, decide_step, fast_step, fast_vote, promise,
    promise_step, trim, trim_step,
};
use gz_core::{Row, RowStep};
use std::alloc::AllocError;

/// Whether a step is a notice, which nobody awaits.
pub fn is_notice(step: &RowStep) -> bool
    ensures { result ≡ is_notice step.now }
{
    match step {
        RowStep::Decide { .. } => true,
        _ => false,
    }
}

/// A copy of a step.
pub fn copy_of(step: &RowStep) -> Result<RowStep, AllocError>
    ensures { IfOk result (λ copy. copy ≡ step.now) }
{
    step.clone()
}

/// The row that a step makes of another one, none where it isn't done.
pub fn made(row: &Row, step: &RowStep) -> Result<Option<Row>, AllocError>
    requires { IsStep step.now }
    ensures { IfOk result (λ made. made ≡ made_of step.now row.now) }
{
    if answer_of(row, step) != Step::Done {
        return Ok(None);
    }
    let mut made = row.clone()?;
    make(&mut made, step)?;
    Ok(Some(made))
}

/// What a step answers on a row.
fn answer_of(row: &Row, step: &RowStep) -> Step
    requires { IsStep step.now }
    ensures { result ≡ answer_of step.now row.now }
{
    match step {
        RowStep::FastVote { version, .. } => fast_step(row, *version),
        RowStep::Promise { version, ballot } => promise_step(row, *version, *ballot),
        RowStep::ClassicVote {
            version,
            ballot,
            ..
        } => classic_step(row, *version, *ballot),
        RowStep::Decide { version, .. } => decide_step(row, *version),
        RowStep::Trim { to, value } => trim_step(row, *to, value.name()),
    }
}

/// Makes a step on a row, and returns what it answers.
fn make(row: &mut Row, step: &RowStep) -> Result<Step, AllocError>
    requires { IsStep step.now }
    ensures answer { IfOk result (λ answer. answer ≡ answer_of step.now row.old) }
    ensures row { row.new ≡ row_after result row.old (made_by step.now row.old) }
{
    match step {
        RowStep::FastVote { version, value } => fast_vote(row, *version, value),
        RowStep::Promise { version, ballot } => promise(row, *version, *ballot),
        RowStep::ClassicVote {
            version,
            ballot,
            value,
        } => classic_vote(row, *version, *ballot, value),
        RowStep::Decide { version, value } => decide(row, *version, value),
        RowStep::Trim { to, value } => trim(row, *to, value),
    }
}
