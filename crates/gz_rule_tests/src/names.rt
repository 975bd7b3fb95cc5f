//! Numbers and names, and their order.
use crate::samples::{FAST, HIGH, LOW, ONE, TWO};
use gz_core::{Ballot, Etag, PutName, Session, SiteId, Version};

/// The later of two puts of session 1.
const LATER: PutName = PutName {
    session: Session(1),
    seq: 2,
};

/// The numbers of a site, a session, a name, of no version, a version and the one after it, and of a tag.
fn numbers() -> (usize, [u32; 3], [u64; 4]) {
    let narrow = [
        Session(3).number(),
        LATER.session_number(),
        LATER.seq_number(),
    ];
    let wide = [
        Version::none().number(),
        Version(7).number(),
        Version(7).next().number(),
        Etag(9).number(),
    ];
    (SiteId(15).index(), narrow, wide)
}

/// The fast ballot and two classic ones as they are made, and which of them are fast.
fn ballots() -> ([Ballot; 3], [bool; 3]) {
    let made = [
        Ballot::fast(),
        Ballot::classic(1, Session(1)),
        Ballot::classic(2, Session(2)),
    ];
    (made, [FAST.is_fast(), LOW.is_fast(), HIGH.is_fast()])
}

/// Whether versions and names stand below one another.
fn orders() -> [bool; 5] {
    [
        Version(2) < Version(10),
        Version(10) < Version(2),
        ONE < LATER,
        LATER < TWO,
        TWO < LATER,
    ]
}

#[test]
fn numbers_names_and_ballots(rt: HostRuntime) {
    assert!(rt; numbers() == (15, [3, 1, 2], [0, 7, 8, 9]));
    assert!(rt; ballots() == ([FAST, LOW, HIGH], [true, false, false]));
    assert!(rt; orders() == [true, false, true, true, false]);
}

/// Ballots by their round and then their session, and whether the first stands below the second.
const BALLOTS: [(Ballot, Ballot, bool); 6] = [
    (FAST, LOW, true),
    (LOW, FAST, false),
    (LOW, LOW, false),
    (LOW, HIGH, true),
    (LATE, HIGH, true),
    (HIGH, LATE, false),
];

/// A ballot of the first round, of a session above those of the others.
const LATE: Ballot = Ballot {
    round: 1,
    session: 9,
};

#[test]
fn ballots_in_their_order(rt: HostRuntime) {
    for (a, b, below) in BALLOTS {
        assert!(rt; [a.is_below(b), a < b] == [below, below]);
    }
}
