//! Histories that are legal, and that break one rule.
use crate::records::Asked::{Delete, Get, Put};
use crate::records::Told::{Absent, Contended, Gone, NoQuorum, Open, Placed, Read};
use crate::records::{Brief, Numbered, Otherwise, calls_of};
use gz_history::{is_history, legal};
use std::alloc::Global;
use std::test::Fail;

/// The clause that is broken, with the sessions of its two calls; 0 where none is.
type Judged = (u8, u32, u32);

/// How a history is judged; none where it is none, or memory runs out.
fn judged(alloc: Global, briefs: &[Brief]) -> Option<Judged> {
    let calls = calls_of(alloc, briefs, Numbered::First)?;
    if !is_history(&calls) {
        return None;
    }
    match legal(&calls) {
        Ok(()) => Some(LEGAL),
        Err(broken) => Some((
            broken.clause,
            broken.a.session.number(),
            broken.b.session.number(),
        )),
    }
}

const LEGAL: Judged = (0, 0, 0);

/// A history, and how it is judged.
type Case = (&'static [Brief], Judged);

/// Judges each history of a table.
fn judge(alloc: Global, table: &'static str, cases: &[Case]) -> Result<(), Otherwise> {
    for (place, (briefs, wanted)) in cases.iter().enumerate() {
        if judged(alloc, briefs) != Some(*wanted) {
            return Err((table, place));
        }
    }
    Ok(())
}

const PUT: Brief = (1, b'a', Put(1), 2, 14, Placed(1));

const DELETE: Brief = (2, b'a', Delete, 15, 27, Placed(2));

const LEGAL_ONES: &[Case] = &[
    (&[], LEGAL),
    (&[PUT, DELETE, (3, b'a', Get, 28, 34, Gone(2, 2))], LEGAL),
    // a put and a delete that have not ended may have been read
    (
        &[
            (1, b'a', Put(1), 2, 0, Open),
            (2, b'a', Get, 3, 9, Read(1, 1, 1)),
        ],
        LEGAL,
    ),
    (
        &[
            (1, b'a', Delete, 2, 0, Open),
            (2, b'a', Get, 3, 9, Gone(1, 1)),
        ],
        LEGAL,
    ),
    // reads while a delete runs, of the version below it and of its own
    (
        &[
            PUT,
            DELETE,
            (3, b'a', Get, 16, 26, Read(1, 1, 1)),
            (4, b'a', Get, 17, 25, Gone(2, 2)),
        ],
        LEGAL,
    ),
    // what does not happen to the object: a write without effect, and another object's calls
    (
        &[
            PUT,
            (2, b'a', Delete, 15, 20, NoQuorum),
            (3, b'a', Put(3), 21, 27, Contended),
            (4, b'a', Get, 28, 34, Read(1, 1, 1)),
        ],
        LEGAL,
    ),
    (&[PUT, (2, b'b', Delete, 15, 27, Placed(1))], LEGAL),
];

const AGREEMENT_AND_EFFECT: &[Case] = &[
    // two writes at one version, by their own answers or by what is read
    (&[PUT, (2, b'a', Put(2), 3, 15, Placed(1))], (1, 1, 2)),
    (&[PUT, (2, b'a', Delete, 3, 15, Placed(1))], (1, 1, 2)),
    (
        &[
            PUT,
            (2, b'a', Delete, 3, 0, Open),
            (3, b'a', Get, 4, 10, Gone(1, 2)),
        ],
        (1, 1, 3),
    ),
    // one write at two versions
    (&[PUT, (2, b'a', Get, 3, 9, Read(2, 1, 1))], (2, 1, 2)),
    (
        &[
            (1, b'a', Delete, 2, 14, Placed(1)),
            (2, b'a', Get, 3, 9, Gone(2, 1)),
        ],
        (2, 1, 2),
    ),
    (
        &[
            (1, b'a', Delete, 2, 0, Open),
            (2, b'a', Get, 3, 20, Gone(1, 1)),
            (3, b'a', Get, 4, 19, Gone(2, 1)),
        ],
        (2, 2, 3),
    ),
];

const ORDER: &[Case] = &[
    (&[PUT, (2, b'a', Get, 15, 21, Absent)], (3, 1, 2)),
    // a read of what a delete took away
    (
        &[PUT, DELETE, (3, b'a', Get, 28, 34, Read(1, 1, 1))],
        (3, 2, 3),
    ),
    (
        &[
            (1, b'a', Delete, 2, 14, Placed(1)),
            (2, b'a', Get, 15, 19, Absent),
        ],
        (3, 1, 2),
    ),
    // a write below one that had ended
    (
        &[
            (1, b'a', Put(1), 2, 14, Placed(2)),
            (2, b'a', Delete, 15, 27, Placed(1)),
        ],
        (3, 1, 2),
    ),
    // a write at what was read before it began
    (
        &[
            (1, b'a', Get, 2, 6, Absent),
            (2, b'a', Put(2), 7, 19, Placed(0)),
        ],
        (3, 1, 2),
    ),
    (
        &[
            (1, b'a', Get, 2, 6, Absent),
            (2, b'a', Delete, 7, 19, Placed(0)),
        ],
        (3, 1, 2),
    ),
    (
        &[
            (1, b'a', Get, 2, 8, Gone(1, 2)),
            (2, b'a', Delete, 9, 20, Placed(1)),
        ],
        (3, 1, 2),
    ),
];

const SOURCES_AND_VALUES: &[Case] = &[
    // no such call, the read itself, a call of another object
    (&[(1, b'a', Get, 2, 8, Read(1, 9, 1))], (4, 1, 9)),
    (&[(1, b'a', Get, 2, 8, Gone(1, 9))], (4, 1, 9)),
    (&[(1, b'a', Get, 2, 8, Read(1, 1, 1))], (4, 1, 1)),
    (&[PUT, (2, b'b', Get, 15, 21, Read(1, 1, 1))], (4, 2, 1)),
    // bytes of a delete, and a put by which the object is gone
    (
        &[PUT, DELETE, (3, b'a', Get, 28, 34, Read(2, 2, 1))],
        (4, 3, 2),
    ),
    (&[PUT, (2, b'a', Get, 15, 21, Gone(1, 1))], (4, 2, 1)),
    // a write that began after the read had ended
    (
        &[
            (1, b'a', Get, 2, 8, Read(2, 2, 2)),
            (2, b'a', Put(2), 9, 0, Open),
        ],
        (4, 1, 2),
    ),
    (
        &[
            (1, b'a', Get, 2, 8, Gone(2, 2)),
            (2, b'a', Delete, 9, 0, Open),
        ],
        (4, 1, 2),
    ),
    // a write that took no effect
    (
        &[
            (1, b'a', Put(1), 2, 8, NoQuorum),
            (2, b'a', Get, 9, 15, Read(1, 1, 1)),
        ],
        (4, 2, 1),
    ),
    (
        &[
            (1, b'a', Delete, 2, 8, Contended),
            (2, b'a', Get, 9, 15, Gone(1, 1)),
        ],
        (4, 2, 1),
    ),
    (&[PUT, (2, b'a', Get, 15, 21, Read(1, 1, 3))], (5, 2, 1)),
];

const FIRST_RULES: &[Case] = &[
    // agreement, though an earlier call has a write at two versions
    (
        &[
            (1, b'a', Put(1), 2, 40, Placed(1)),
            (2, b'a', Get, 3, 39, Read(2, 1, 1)),
            (3, b'a', Put(3), 4, 38, Placed(3)),
            (4, b'a', Delete, 5, 37, Placed(3)),
        ],
        (1, 3, 4),
    ),
    // effect at most once, though earlier calls break the order
    (
        &[
            PUT,
            (2, b'a', Get, 15, 19, Absent),
            (3, b'a', Delete, 20, 40, Placed(2)),
            (4, b'a', Get, 21, 39, Gone(3, 3)),
        ],
        (2, 3, 4),
    ),
    // the order, though an earlier call reads from nowhere
    (
        &[
            (1, b'a', Get, 2, 6, Gone(1, 9)),
            (2, b'a', Delete, 7, 19, Placed(2)),
            (3, b'a', Get, 20, 24, Absent),
        ],
        (3, 1, 3),
    ),
    // the sources, though an earlier call returns other bytes
    (
        &[
            PUT,
            (2, b'a', Get, 15, 21, Read(1, 1, 3)),
            (3, b'a', Get, 22, 28, Gone(2, 9)),
        ],
        (4, 3, 9),
    ),
];

const FIRST_CALLS: &[Case] = &[
    // the first call, then the first one with it
    (
        &[
            PUT,
            (2, b'a', Get, 15, 19, Absent),
            (3, b'a', Get, 20, 24, Absent),
        ],
        (3, 1, 2),
    ),
    (
        &[
            (1, b'a', Get, 2, 6, Absent),
            (2, b'a', Delete, 7, 19, Placed(1)),
            (3, b'a', Get, 20, 26, Gone(1, 2)),
            (4, b'a', Get, 27, 31, Absent),
            (5, b'a', Get, 32, 36, Absent),
        ],
        (3, 2, 4),
    ),
    (
        &[
            PUT,
            (2, b'a', Put(2), 3, 15, Placed(2)),
            (3, b'a', Put(3), 4, 16, Placed(2)),
            (4, b'a', Delete, 5, 17, Placed(1)),
        ],
        (1, 1, 4),
    ),
    // the first read
    (
        &[
            PUT,
            (2, b'a', Get, 15, 21, Gone(1, 1)),
            (3, b'a', Get, 22, 28, Read(2, 9, 1)),
        ],
        (4, 2, 1),
    ),
    (
        &[
            PUT,
            (2, b'a', Get, 15, 21, Read(1, 1, 3)),
            (3, b'a', Get, 22, 28, Read(1, 1, 4)),
        ],
        (5, 2, 1),
    ),
];

const TABLES: &[(&str, &[Case])] = &[
    ("legal", LEGAL_ONES),
    ("agreement and effect", AGREEMENT_AND_EFFECT),
    ("order", ORDER),
    ("sources and values", SOURCES_AND_VALUES),
    ("first rules", FIRST_RULES),
    ("first calls", FIRST_CALLS),
];

/// Judges each history of each table.
fn judge_all(alloc: Global) -> Result<(), Otherwise> {
    for (table, cases) in TABLES {
        judge(alloc, table, cases)?;
    }
    Ok(())
}

#[test]
fn histories_are_judged(rt: HostRuntime) -> Result<(), Fail> {
    judge_all(rt.alloc())?;
    Ok(())
}
