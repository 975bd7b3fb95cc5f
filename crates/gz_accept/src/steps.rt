//! The steps of the acceptor. Each changes the row exactly where it answers `Done`.
ghost use Rattle.std.specs.Prelude.{◌≡◌, ◌≤◌, ◌<◌, ◌+◌, ◌^◌, Some, IfOk, OnOk, OnErr};
ghost use Rattle.gz_core.specs.Names.{IsClassic};
ghost use Rattle.gz_core.specs.Rows.{IsRow, column_in};
ghost use Rattle.gz_core.specs.Values.{name_of};
ghost use Rattle.gz_core.specs.Slots.{Makes, slots, VotesFast, Promises, VotesClassic, Decides, Trims};
ghost use Rattle.gz_accept.specs.Steps.{fast_answer, promise_answer, classic_answer, decide_answer, trim_answer, fast_voted, promised, classic_voted, decided, trimmed_to, row_after, AtDone, vote_in, with_column_at, IsOpenSlot};

use crate::answers::{Step, classic_step, decide_step, fast_step, promise_step, trim_step};
use crate::columns::{keep_above, put, put_column};
use gz_core::{Ballot, Column, Row, Value, Version, Vote};
use std::alloc::AllocError;

/// Votes for `x` in the fast ballot of version `v`.
pub fn fast_vote(row: &mut Row, v: Version, x: &Value) -> Result<Step, AllocError>
    requires { 1 ≤ v }
    ensures answer { IfOk result (λ step. step ≡ fast_answer row.old v) }
    ensures row { row.new ≡ row_after result row.old (fast_voted row.old v x.now) }
    ensures makes { AtDone result (Makes (VotesFast v (name_of x.now)) (slots row.old) (slots row.new)) }
{
    match fast_step(row, v) {
        Step::Done => {
            cast(row, v, Ballot::fast(), x)?;
            Ok(Step::Done)
        },
        other => Ok(other),
    }
}

/// Promises the classic ballot `b` at version `v`: no ballot below it takes a vote there from now on.
pub fn promise(row: &mut Row, v: Version, b: Ballot) -> Result<Step, AllocError>
    requires version { 1 ≤ v }
    requires ballot { IsClassic b }
    ensures answer { IfOk result (λ step. step ≡ promise_answer row.old v b) }
    ensures row { row.new ≡ row_after result row.old (promised row.old v b) }
    ensures makes { AtDone result (Makes (Promises v b) (slots row.old) (slots row.new)) }
{
    match promise_step(row, v, b) {
        Step::Done => {
            let vote = vote_at(row, v)?;
            put_column(row, v, Column::Open { promise: b, vote })?;
            Ok(Step::Done)
        },
        other => Ok(other),
    }
}

/// Votes for `x` in the classic ballot `b` of version `v`, which promises the ballot too.
pub fn classic_vote(row: &mut Row, v: Version, b: Ballot, x: &Value) -> Result<Step, AllocError>
    requires version { 1 ≤ v }
    requires ballot { IsClassic b }
    ensures answer { IfOk result (λ step. step ≡ classic_answer row.old v b) }
    ensures row { row.new ≡ row_after result row.old (classic_voted row.old v b x.now) }
    ensures makes { AtDone result (Makes (VotesClassic v b (name_of x.now)) (slots row.old) (slots row.new)) }
{
    match classic_step(row, v, b) {
        Step::Done => {
            cast(row, v, b, x)?;
            Ok(Step::Done)
        },
        other => Ok(other),
    }
}

/// Notes that `x` is chosen at version `v`.
pub fn decide(row: &mut Row, v: Version, x: &Value) -> Result<Step, AllocError>
    requires { 1 ≤ v }
    ensures answer { IfOk result (λ step. step ≡ decide_answer row.old v) }
    ensures row { row.new ≡ row_after result row.old (decided row.old v x.now) }
    ensures makes { AtDone result (Makes (Decides v (name_of x.now)) (slots row.old) (slots row.new)) }
{
    match decide_step(row, v) {
        Step::Done => {
            let column = decided_column(x)?;
            put_column(row, v, column)?;
            Ok(Step::Done)
        },
        other => Ok(other),
    }
}

/// Collects the versions up to `to`, above which `x` is chosen at the next one.
pub fn trim(row: &mut Row, to: Version, x: &Value) -> Result<Step, AllocError>
    requires floor { 1 ≤ to }
    requires next { to + 1 < 2 ^ 63 }
    ensures answer { IfOk result (λ step. step ≡ trim_answer row.old to (name_of x.now)) }
    ensures row { row.new ≡ row_after result row.old (trimmed_to row.old to x.now) }
    ensures makes { AtDone result (Makes (Trims to (name_of x.now)) (slots row.old) (slots row.new)) }
{
    match trim_step(row, to, x.name()) {
        Step::Done => {
            collect(row, to, x)?;
            Ok(Step::Done)
        },
        other => Ok(other),
    }
}

/// Puts a vote for `x` in a ballot, with the promise of that ballot.
fn cast(row: &mut Row, v: Version, ballot: Ballot, x: &Value) -> Result<(), AllocError>
    requires version { 1 ≤ v }
    requires free { IsOpenSlot (slots row.old v) }
    ensures ok { OnOk result (row.new ≡ with_column_at row.old v (Column.Open ballot (Some (record { ballot = ballot; value = x.now })))) }
    ensures err { OnErr result (row.new ≡ row.old) }
{
    let vote = Vote {
        ballot,
        value: x.clone()?,
    };
    put_column(
        row,
        v,
        Column::Open {
            promise: ballot,
            vote: Some(vote),
        },
    )
}

/// Raises the floor to `to`: the columns up to it go, and `x` is decided at the next version.
fn collect(row: &mut Row, to: Version, x: &Value) -> Result<(), AllocError>
    requires above { row.old.floor < to }
    requires next { to + 1 < 2 ^ 63 }
    ensures ok { OnOk result (row.new ≡ trimmed_to row.old to x.now) }
    ensures err { OnErr result (row.new ≡ row.old) }
{
    let column = decided_column(x)?;
    put(&mut row.columns, to.next(), column)?;
    keep_above(&mut row.columns, to);
    row.floor = to;
    Ok(())
}

/// The column of a version whose value is known to be chosen.
fn decided_column(x: &Value) -> Result<Column, AllocError>
    ensures { IfOk result (λ column. column ≡ Column.Decided x.now) }
{
    let value = x.clone()?;
    Ok(Column::Decided { value })
}

/// A copy of the vote that stands at a version, if there is one.
fn vote_at(row: &Row, v: Version) -> Result<Option<Vote>, AllocError>
    ensures vote { IfOk result (λ vote. vote ≡ vote_in (column_in row.now.columns v)) }
    ensures row { IsRow row.now }
{
    match row.column(v) {
        Some(Column::Open { vote, .. }) => vote.clone(),
        _ => Ok(None),
    }
}
