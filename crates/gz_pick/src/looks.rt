//! What the columns of a row show of a version.
ghost use Rattle.std.specs.Prelude.{◌≡◌, max};
ghost use Rattle.gz_pick.specs.Looks.{row_vote, row_decision, row_name, row_top, shows_value};

use gz_core::{Ballot, Column, PutName, Row, Version};

/// The vote of a row at a version: its ballot and the name of its value.
pub fn vote_at(row: &Row, v: Version) -> Option<(Ballot, PutName)>
    ensures { result ≡ row_vote row.now v }
{
    match row.column(v) {
        None => None,
        Some(column) => column.slot().vote(),
    }
}

/// The name of the value that a row knows to be chosen at a version.
pub fn decided_at(row: &Row, v: Version) -> Option<PutName>
    ensures { result ≡ row_decision row.now v }
{
    match row.column(v) {
        None => None,
        Some(column) => column.slot().decision(),
    }
}

/// The name of the value that a row has at a version, of its vote or its decision.
pub fn named_at(row: &Row, v: Version) -> Option<PutName>
    ensures { result ≡ row_name row.now v }
{
    match row.column(v) {
        None => None,
        Some(column) => column.slot().name(),
    }
}

/// The greatest version for which a row has a vote or a decision, 0 where there is none.
pub fn top_of(row: &Row) -> Version
    ensures { result ≡ row_top row.now }
{
    let mut top = Version::none();
    for (version, column) in row.columns() {
        if has_value(column) {
            top = later_of(top, *version);
        }
    }
    top
}

/// The greater of two versions.
pub fn later_of(a: Version, b: Version) -> Version
    ensures { result ≡ max a b }
{
    if a < b { b } else { a }
}

fn has_value(column: &Column) -> bool
    ensures { result ≡ shows_value column.now }
{
    match column {
        Column::Open { vote, .. } => vote.is_some(),
        Column::Decided { .. } => true,
    }
}
