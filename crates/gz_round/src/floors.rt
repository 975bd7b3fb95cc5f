//! The floors of the rows that are known.
ghost use Rattle.std.specs.Prelude.{◌≡◌, ◌≢◌, ◌≤◌, ◌<◌, ℕ, List, ◌∷◌, Option, Some, slice_get, length, max, min, MatchOption};
ghost use Rattle.gz_core.specs.Rows.{RowAt, IsRow};
ghost use Rattle.gz_round.specs.Floors.{top_floor_of, has_floor, AreRows, IsFloorAt, AreFloorless};

use crate::run::Run;
use gz_core::{Row, SiteId, Version};

impl Run {
    /// The greatest floor of the known rows, 0 where there is none.
    pub fn top_floor(&self) -> Version
        ensures top { result ≡ top_floor_of self.now.rows }
        ensures rows { AreRows self.now.rows }
    {
        top_floor(self.rows.as_slice())
    }

    /// The lowest of the sites whose known rows have this floor, where it is the greatest and not 0. Each row of a run has the
    /// version after its floor decided.
    pub fn site_with_floor(&self, floor: Version) -> SiteId
        requires few { length self.now.rows ≤ 16 }
        requires floor { 1 ≤ floor }
        requires top { floor ≡ top_floor_of self.now.rows }
        ensures at { IsFloorAt self.now.rows floor result }
        ensures lowest { AreFloorless self.now.rows floor result }
    {
        match place_with_floor(self.rows.as_slice(), floor) {
            None => unreachable!(),
            Some(at) => SiteId(at as u8),
        }
    }
}

fn top_floor(rows: &[Option<Row>]) -> Version
    ensures top { result ≡ top_floor_of rows.now }
    ensures rows { AreRows rows.now }
{
    let mut top = Version::none();
    for row in rows {
        top = later_of(top, floor_of(row));
    }
    top
}

/// The greater of two versions.
fn later_of(a: Version, b: Version) -> Version
    ensures { result ≡ max a b }
{
    if a < b { b } else { a }
}

/// The lower of two versions.
pub fn earlier_of(a: Version, b: Version) -> Version
    ensures { result ≡ min a b }
{
    if b < a { b } else { a }
}

fn floor_of(row: &Option<Row>) -> Version
    ensures top { (rows : List (Option RowAt)) → top_floor_of (row.now ∷ rows) ≡ max result (top_floor_of rows) }
    ensures row { (known : RowAt) → row.now ≡ Some known → IsRow known }
{
    match row {
        None => Version::none(),
        Some(row) => floor_in(row),
    }
}

/// The floor of a row, which keeps the rules of rows.
fn floor_in(row: &Row) -> Version
    ensures floor { result ≡ row.now.floor }
    ensures row { IsRow row.now }
{
    let _columns = row.columns();
    row.floor()
}

/// The first place at which a row has this floor.
fn place_with_floor(rows: &[Option<Row>], floor: Version) -> Option<usize>
    requires floor { 1 ≤ floor }
    ensures { MatchOption result ((s : ℕ) (row : RowAt) → slice_get rows.now s ≡ Some (Some row) → row.floor ≢ floor) (λ at. IsFloorAt rows.now floor at × AreFloorless rows.now floor at) }
{
    for (at, row) in rows.iter().enumerate() {
        if has_floor(row, floor) {
            return Some(at);
        }
    }
    None
}

fn has_floor(row: &Option<Row>, floor: Version) -> bool
    ensures same { result ≡ has_floor floor row.now }
    ensures row { (known : RowAt) → row.now ≡ Some known → IsRow known }
{
    match row {
        None => false,
        Some(row) => floor_in(row) == floor,
    }
}
