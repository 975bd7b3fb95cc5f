//! The greatest version that known rows show.
ghost use Rattle.std.specs.Prelude.{◌≡◌};
ghost use Rattle.gz_pick.specs.Looks.{highest_of};

use crate::looks::{later_of, top_of};
use gz_core::{Row, Version};

/// The greatest version for which a row has a vote or a decision, 0 where there is none: a promise alone does
/// not count. Rows stand one a site, none where the row is not known.
pub fn highest(rows: &[Option<Row>]) -> Version
    ensures { result ≡ highest_of rows.now }
{
    let mut top = Version::none();
    for row in rows {
        if let Some(row) = row {
            top = later_of(top, top_of(row));
        }
    }
    top
}
