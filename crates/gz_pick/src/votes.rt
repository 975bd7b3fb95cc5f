//! The votes of rows that may be unknown.
ghost use Rattle.std.specs.Prelude.{◌≡◌, Some};
ghost use Rattle.gz_pick.specs.Evidences.{vote_of, has_decided, votes_for, votes_in, is_in, is_for, higher, higher_ballot};

use crate::looks::{decided_at, vote_at};
use gz_core::{Ballot, PutName, Row, Version};

/// The vote that a row has at a version, where the row is known.
pub fn vote_of_row(row: &Option<Row>, v: Version) -> Option<(Ballot, PutName)>
    ensures { result ≡ vote_of row.now v }
{
    match row {
        None => None,
        Some(row) => vote_at(row, v),
    }
}

/// Whether a row is known and has the version decided.
pub fn is_decided(row: &Option<Row>, v: Version) -> bool
    ensures { result ≡ has_decided v row.now }
{
    match row {
        None => false,
        Some(row) => decided_at(row, v).is_some(),
    }
}

/// Whether a vote is one of ballot `b`.
pub fn is_cast_in(vote: &Option<(Ballot, PutName)>, b: Ballot) -> bool
    ensures { result ≡ is_in b vote.now }
{
    match vote {
        None => false,
        Some((ballot, _)) => *ballot == b,
    }
}

/// Whether a vote is one of ballot `b` for `x`.
pub fn is_cast_for(vote: &Option<(Ballot, PutName)>, b: Ballot, x: PutName) -> bool
    ensures { result ≡ is_for b x vote.now }
{
    match vote {
        None => false,
        Some((ballot, name)) => *ballot == b && *name == x,
    }
}

/// How many rows have a vote of ballot `b` for `x` at a version.
pub fn count_votes(rows: &[Option<Row>], v: Version, b: Ballot, x: PutName) -> usize
    ensures { result ≡ votes_in b x v rows.now }
{
    rows.iter()
        .filter(|row| is_cast_for(&vote_of_row(row, v), b, x))
        .count()
}

/// The higher of a ballot, where there is one, and that of a vote.
pub fn raise(top: Option<Ballot>, vote: &Option<(Ballot, PutName)>) -> Option<Ballot>
    ensures { result ≡ higher top vote.now }
{
    match vote {
        None => top,
        Some((ballot, _)) => Some(higher_of(top, *ballot)),
    }
}

/// The higher of a ballot, where there is one, and another.
fn higher_of(top: Option<Ballot>, ballot: Ballot) -> Ballot
    ensures { result ≡ higher_ballot top ballot }
{
    match top {
        None => ballot,
        Some(top) if top.is_below(ballot) => ballot,
        Some(top) => top,
    }
}
