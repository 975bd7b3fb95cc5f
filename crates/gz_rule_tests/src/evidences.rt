//! Which site shows that a value is chosen.
use crate::acts::{Act, FIRST, Named, Of, row_by};
use crate::samples::FIVE;
use gz_core::Row;
use gz_pick::{evidence, highest};
use std::alloc::Global;

/// The step by which a row came about; none where the row is not known.
type Made = Option<Named>;

const FAST: Made = Some((Act::FastVote, Of::One));

const FAST_OF_OTHER: Made = Some((Act::FastVote, Of::Two));

const LOW: Made = Some((Act::VoteLow, Of::One));

const HIGH: Made = Some((Act::VoteHigh, Of::One));

const DECIDED: Made = Some((Act::Decide, Of::One));

const PROMISED: Made = Some((Act::PromiseHigh, Of::One));

/// The place of the site that shows the first version's value to be chosen, and the greatest version shown.
type Told = (Option<usize>, u64);

/// The rows of five sites, and what they show.
const SHOWN: &[(&[Made], Told)] = &[
    (&[FAST, DECIDED, DECIDED, None, LOW], (Some(1), 1)),
    (&[FAST_OF_OTHER, FAST, FAST, FAST, FAST], (Some(1), 1)),
    // two values have votes, and neither has a fast quorum
    (&[FAST_OF_OTHER, FAST, FAST, FAST, None], (None, 1)),
    (&[HIGH, None, LOW, LOW, LOW], (Some(2), 1)),
    (&[LOW, LOW, HIGH, None, None], (None, 1)),
    (&[PROMISED, PROMISED, PROMISED, None, None], (None, 0)),
];

/// Adds the row that a step makes.
fn add(alloc: Global, rows: &mut Vec<Option<Row>>, made: Made) -> Option<()> {
    let row = match made {
        None => None,
        Some(named) => Some(row_by(alloc, named)?),
    };
    rows.push(row).ok()
}

fn rows_of(alloc: Global, made: &[Made]) -> Option<Vec<Option<Row>>> {
    let mut rows = Vec::new(alloc);
    for one in made {
        add(alloc, &mut rows, *one)?;
    }
    Some(rows)
}

/// What five rows show.
fn told(alloc: Global, made: &[Made]) -> Option<Told> {
    let rows = rows_of(alloc, made)?;
    let rows = rows.as_slice();
    if rows.len() != 5 {
        return None;
    }
    let at = match evidence(&FIVE, rows, FIRST) {
        None => None,
        Some(site) => Some(site.index()),
    };
    Some((at, highest(rows).number()))
}

#[test]
fn evidence_is_at_the_lowest_site(rt: HostRuntime) {
    for (made, wanted) in SHOWN {
        assert!(rt; told(rt.alloc(), made) == Some(*wanted));
    }
}
