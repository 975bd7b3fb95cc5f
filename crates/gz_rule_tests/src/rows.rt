//! What a row holds, and what it shows of a version.
use crate::acts::{Act, FIRST, Of, SECOND, row_by, take_named};
use crate::samples::{FAST, LOW, ONE, TWO};
use gz_core::{Ballot, PutName, Row, Slot, Version};
use gz_pick::looks::later_of;
use gz_pick::{decided_at, named_at, top_of, vote_at};
use std::alloc::Global;

const THIRD: Version = Version(3);

/// The first version has a vote, and the second is decided.
fn sample(alloc: Global) -> Option<Row> {
    let mut row = row_by(alloc, (Act::VoteLow, Of::Two))?;
    take_named(&mut row, (Act::DecideSecond, Of::One)).ok()?;
    Some(row)
}

/// The two columns of a row that has as many.
fn columns_of(row: &Row) -> Option<[(Version, Slot); 2]> {
    match row.columns() {
        [(v, first), (w, second)] => Some([(*v, first.slot()), (*w, second.slot())]),
        _ => None,
    }
}

fn column_at(row: &Row, v: Version) -> Option<Slot> {
    match row.column(v) {
        None => None,
        Some(column) => Some(column.slot()),
    }
}

/// Of a version its slot and its column, and their vote, decision and value.
type Shown = (
    Slot,
    Option<Slot>,
    Option<(Ballot, PutName)>,
    Option<PutName>,
    Option<PutName>,
);

fn shown_at(row: &Row, v: Version) -> Shown {
    (
        row.slot(v),
        column_at(row, v),
        vote_at(row, v),
        decided_at(row, v),
        named_at(row, v),
    )
}

/// What the sample's two columns are.
fn columns_of_sample(alloc: Global) -> Option<[(Version, Slot); 2]> {
    columns_of(&sample(alloc)?)
}

/// What the sample shows of a version.
fn shown_by_sample(alloc: Global, v: Version) -> Option<Shown> {
    Some(shown_at(&sample(alloc)?, v))
}

const VOTED: Slot = Slot::OpenAt {
    promise: LOW,
    vote: Some((LOW, TWO)),
};

const DECIDED: Slot = Slot::DecidedAs(ONE);

const BLANK: Slot = Slot::OpenAt {
    promise: FAST,
    vote: None,
};

const SHOWN: [(Version, Shown); 3] = [
    (
        FIRST,
        (VOTED, Some(VOTED), Some((LOW, TWO)), None, Some(TWO)),
    ),
    (SECOND, (DECIDED, Some(DECIDED), None, Some(ONE), Some(ONE))),
    (THIRD, (BLANK, None, None, None, None)),
];

#[test]
fn a_row_shows_its_columns(rt: HostRuntime) {
    let columns = [(FIRST, VOTED), (SECOND, DECIDED)];
    assert!(rt; columns_of_sample(rt.alloc()) == Some(columns));
    for (v, shown) in SHOWN {
        assert!(rt; shown_by_sample(rt.alloc(), v) == Some(shown));
    }
}

/// What a collection makes of the first version and the second.
fn slots_by_trim(alloc: Global) -> Option<[Slot; 2]> {
    let row = row_by(alloc, (Act::Trim, Of::One))?;
    Some([row.slot(FIRST), row.slot(SECOND)])
}

#[test]
fn a_version_up_to_the_floor_is_gone(rt: HostRuntime) {
    assert!(rt; slots_by_trim(rt.alloc()) == Some([Slot::Gone, DECIDED]));
}

/// The floor, how many columns there are, and the latest version shown.
type Extent = (u64, usize, u64);

fn extent(row: &Row) -> Extent {
    let columns = row.columns().len();
    (row.floor().number(), columns, top_of(row).number())
}

fn extent_of_empty(alloc: Global) -> Extent {
    extent(&Row::empty(alloc))
}

/// The extent of the row that a step makes.
fn extent_by(alloc: Global, act: Act) -> Option<Extent> {
    Some(extent(&row_by(alloc, (act, Of::One))?))
}

/// The later of two versions, by either order.
fn later() -> [u64; 2] {
    [
        later_of(SECOND, THIRD).number(),
        later_of(THIRD, SECOND).number(),
    ]
}

#[test]
fn extents_of_rows(rt: HostRuntime) {
    assert!(rt; extent_of_empty(rt.alloc()) == (0, 0, 0));
    assert!(rt; extent_by(rt.alloc(), Act::PromiseLow) == Some((0, 1, 0)));
    assert!(rt; extent_by(rt.alloc(), Act::Trim) == Some((1, 1, 2)));
    assert!(rt; later() == [3, 3]);
}
