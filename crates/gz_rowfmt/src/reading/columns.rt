//! Columns of rows.
ghost use Rattle.std.specs.Prelude.{◌≡◌, ◌+◌, ◌^◌, ◌<◌, ◌≤◌, ◌⊎◌, length, IfOk};
ghost use Rattle.gz_bytes.specs.Steps.{Gives};
ghost use Rattle.gz_rowfmt.specs.Reading.{MayGive, version_at, kind_at, ballot_at, open_at, vote_ballot_at, voted_at, decided_at, body_at, column_at};

use super::VERSION_LIMIT;
use super::values::value_of;
use crate::errors::RowError;
use gz_bytes::{byte_of, u32_of, u64_of};
use gz_core::{Ballot, Column, Version, Vote};
use std::alloc::Global;

/// The version of a column, above the one before; where the floor was raised, the first one stands right above it.
#[tactic(auto, unfolding(crate::specs::Reading::version_at))]
fn version_of(raised: bool, before: u64, at: usize, bytes: &[u8]) -> Result<(u64, &[u8]), RowError>
    ensures gives { Gives (λ x. (x.0, x.1.now)) result (version_at raised before at bytes.now) }
    ensures bounded { IfOk result (λ x. x.0 < 2 ^ 63) }
    ensures left { IfOk result (λ x. 8 + length x.1.now ≡ length bytes.now) }
{
    let (version, rest) = u64_of(at, bytes)?;
    if version <= before || version >= VERSION_LIMIT {
        return Err(RowError::Order { at });
    }
    if raised && version != before + 1 {
        return Err(RowError::Floor { at });
    }
    Ok((version, rest))
}

/// The kind of a column: 0 is open without a vote, 1 open with a vote, 2 decided.
#[tactic(auto, unfolding(crate::specs::Reading::kind_at))]
fn kind_of(raised: bool, at: usize, bytes: &[u8]) -> Result<(u8, &[u8]), RowError>
    ensures gives { Gives (λ x. (x.0, x.1.now)) result (kind_at raised at bytes.now) }
    ensures left { IfOk result (λ x. 1 + length x.1.now ≡ length bytes.now) }
{
    let (kind, rest) = byte_of(at, bytes)?;
    if kind > 2 {
        return Err(RowError::Kind { at });
    }
    if raised && kind != 2 {
        return Err(RowError::Floor { at });
    }
    Ok((kind, rest))
}

/// The round and the session of a ballot: one field, which is whole before its numbers are tried.
#[tactic(auto, unfolding(crate::specs::Reading::ballot_at))]
fn ballot_of(at: usize, bytes: &[u8]) -> Result<((u32, u32), &[u8]), RowError>
    ensures gives { Gives (λ x. (record { round = x.0.0; session = x.0.1 }, x.1.now)) result (ballot_at at bytes.now) }
    ensures kind { IfOk result (λ x. ((x.0.0 ≡ 0) × (x.0.1 ≡ 0)) ⊎ ((1 ≤ x.0.0) × (1 ≤ x.0.1))) }
    ensures left { IfOk result (λ x. 8 + length x.1.now ≡ length bytes.now) }
{
    let (round, rest) = u32_of(at, bytes)?;
    let (session, rest) = u32_of(at, rest)?;
    if (round == 0 && session != 0) || (round != 0 && session == 0) {
        return Err(RowError::Ballot { at });
    }
    Ok(((round, session), rest))
}

/// An open column without a vote, which promises a classic ballot.
#[tactic(auto, unfolding(crate::specs::Reading::open_at))]
fn open_of(at: usize, bytes: &[u8]) -> Result<(Column, &[u8]), RowError>
    ensures gives { MayGive (λ x. (x.0, x.1.now)) result (open_at at bytes.now) }
    ensures left { IfOk result (λ x. length x.1.now ≤ length bytes.now) }
{
    let ((round, session), rest) = ballot_of(at, bytes)?;
    let promise = Ballot { round, session };
    if promise == Ballot::fast() {
        return Err(RowError::Ballot { at });
    }
    Ok((
        Column::Open {
            promise,
            vote: None,
        },
        rest,
    ))
}

/// The ballot of a vote, at or below the promise.
#[tactic(auto, unfolding(crate::specs::Reading::vote_ballot_at))]
fn vote_ballot_of(promise: Ballot, at: usize, bytes: &[u8]) -> Result<((u32, u32), &[u8]), RowError>
    ensures gives { Gives (λ x. (record { round = x.0.0; session = x.0.1 }, x.1.now)) result (vote_ballot_at promise at bytes.now) }
    ensures kind { IfOk result (λ x. ((x.0.0 ≡ 0) × (x.0.1 ≡ 0)) ⊎ ((1 ≤ x.0.0) × (1 ≤ x.0.1))) }
    ensures left { IfOk result (λ x. 8 + length x.1.now ≡ length bytes.now) }
{
    let ((round, session), rest) = ballot_of(at, bytes)?;
    if promise.is_below(Ballot { round, session }) {
        return Err(RowError::Ballot { at });
    }
    Ok(((round, session), rest))
}

/// An open column with a vote.
#[tactic(auto, unfolding(crate::specs::Reading::voted_at))]
fn voted_of(alloc: Global, at: usize, bytes: &[u8]) -> Result<(Column, &[u8]), RowError>
    requires { at + length bytes.now < 2 ^ 64 }
    ensures gives { MayGive (λ x. (x.0, x.1.now)) result (voted_at at bytes.now) }
    ensures left { IfOk result (λ x. length x.1.now ≤ length bytes.now) }
{
    let ((round, session), rest) = ballot_of(at, bytes)?;
    let promise = Ballot { round, session };
    let ((round, session), rest) = vote_ballot_of(promise, at + 8, rest)?;
    let ballot = Ballot { round, session };
    let (value, rest) = value_of(alloc, at + 16, rest)?;
    let vote = Some(Vote { ballot, value });
    Ok((Column::Open { promise, vote }, rest))
}

/// A decided column.
#[tactic(auto, unfolding(crate::specs::Reading::decided_at))]
fn decided_of(alloc: Global, at: usize, bytes: &[u8]) -> Result<(Column, &[u8]), RowError>
    requires { at + length bytes.now < 2 ^ 64 }
    ensures gives { MayGive (λ x. (x.0, x.1.now)) result (decided_at at bytes.now) }
    ensures left { IfOk result (λ x. length x.1.now ≤ length bytes.now) }
{
    let (value, rest) = value_of(alloc, at, bytes)?;
    Ok((Column::Decided { value }, rest))
}

/// What a column of a kind holds.
fn body_of(alloc: Global, kind: u8, at: usize, bytes: &[u8]) -> Result<(Column, &[u8]), RowError>
    requires { at + length bytes.now < 2 ^ 64 }
    ensures gives { MayGive (λ x. (x.0, x.1.now)) result (body_at kind at bytes.now) }
    ensures left { IfOk result (λ x. length x.1.now ≤ length bytes.now) }
{
    match kind {
        0 => open_of(at, bytes),
        1 => voted_of(alloc, at, bytes),
        _ => decided_of(alloc, at, bytes),
    }
}

/// A column with its version.
#[tactic(auto, unfolding(crate::specs::Reading::column_at))]
pub(crate) fn column_of(
    alloc: Global,
    raised: bool,
    before: u64,
    at: usize,
    bytes: &[u8],
) -> Result<((Version, Column), &[u8]), RowError>
    requires { at + length bytes.now < 2 ^ 64 }
    ensures gives { MayGive (λ x. (x.0, x.1.now)) result (column_at raised before at bytes.now) }
    ensures left { IfOk result (λ x. length x.1.now ≤ length bytes.now) }
{
    let (version, rest) = version_of(raised, before, at, bytes)?;
    let (kind, rest) = kind_of(raised, at + 8, rest)?;
    let (column, rest) = body_of(alloc, kind, at + 9, rest)?;
    Ok(((Version(version), column), rest))
}
