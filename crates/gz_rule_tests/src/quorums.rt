//! Sites that quorums have in common, and the values that they choose.
use crate::samples::{FAST, HIGH, LOW, ONE, TWO, key_of};
use gz_core::{Ballot, Config, PutName, SiteId, Version};
use gz_model::{Cast, chosen, meet, meet3};
use std::alloc::Global;

const LEFT: SiteId = SiteId(0);

const MIDDLE: SiteId = SiteId(1);

const RIGHT: SiteId = SiteId(2);

/// The least sites in common of two lists, and of three.
fn met() -> ([Option<SiteId>; 3], [Option<SiteId>; 3]) {
    let of_two = [
        meet(&[RIGHT, LEFT, MIDDLE], &[MIDDLE, RIGHT]),
        meet(&[LEFT], &[MIDDLE, RIGHT]),
        meet(&[], &[MIDDLE]),
    ];
    let of_three = [
        meet3(&[RIGHT, MIDDLE, LEFT], &[LEFT, RIGHT], &[RIGHT, MIDDLE]),
        meet3(
            &[RIGHT, MIDDLE, LEFT],
            &[LEFT, MIDDLE, RIGHT],
            &[RIGHT, MIDDLE],
        ),
        meet3(&[LEFT, MIDDLE], &[MIDDLE, RIGHT], &[LEFT, RIGHT]),
    ];
    (of_two, of_three)
}

#[test]
fn sites_in_common(rt: HostRuntime) {
    let of_two = [Some(MIDDLE), None, None];
    let of_three = [Some(RIGHT), Some(MIDDLE), None];
    assert!(rt; met() == (of_two, of_three));
}

/// A vote: its site, its version, the round of its ballot, and the session whose first put it is for.
type Vote = (u8, u8, u8, u8);

/// Votes of one object at three sites, where a classic quorum has two and a fast one three, and the session whose put is
/// chosen at the first version.
const CHOSEN: &[(&[Vote], Option<u32>)] = &[
    (&[], None),
    // two fast votes are too few, three choose
    (&[(0, 1, 0, 1), (1, 1, 0, 1)], None),
    (&[(0, 1, 0, 1), (1, 1, 0, 1), (2, 1, 0, 1)], Some(1)),
    // two classic votes choose, of two sites and at one version
    (&[(0, 1, 1, 2), (2, 1, 1, 2)], Some(2)),
    (&[(0, 1, 1, 2), (0, 1, 1, 2)], None),
    (&[(0, 1, 1, 2), (2, 2, 1, 2)], None),
    // two puts have votes at the version, and neither has a quorum
    (&[(0, 1, 1, 2), (2, 1, 1, 1)], None),
    (&[(0, 1, 0, 1), (1, 1, 0, 1), (2, 1, 0, 2)], None),
    // of two puts the one with the lower name is answered
    (
        &[(0, 1, 1, 2), (1, 1, 1, 2), (0, 1, 2, 1), (1, 1, 2, 1)],
        Some(1),
    ),
];

fn site_of(site: u8) -> SiteId {
    match site {
        0 => LEFT,
        1 => MIDDLE,
        _ => RIGHT,
    }
}

/// The fast ballot, or the classic one that the tests have of this round.
fn ballot_of(round: u8) -> Ballot {
    match round {
        0 => FAST,
        1 => LOW,
        _ => HIGH,
    }
}

fn name_of(session: u8) -> PutName {
    match session {
        1 => ONE,
        _ => TWO,
    }
}

/// A vote for the object of the key `a`.
fn cast_of(alloc: Global, vote: Vote) -> Option<Cast> {
    let (site, version, round, session) = vote;
    let key = key_of(alloc, b"a")?;
    Some(Cast {
        site: site_of(site),
        key,
        version: Version(version as u64),
        ballot: ballot_of(round),
        name: name_of(session),
    })
}

fn casts_of(alloc: Global, votes: &[Vote]) -> Option<Vec<Cast>> {
    let mut casts = Vec::new(alloc);
    for vote in votes {
        casts.push(cast_of(alloc, *vote)?).ok()?;
    }
    Some(casts)
}

/// The session whose put is chosen by these votes at the first version of an object; no answer where memory runs out.
fn told(alloc: Global, votes: &[Vote], key: &[u8]) -> Option<Option<u32>> {
    let key = key_of(alloc, key)?;
    let casts = casts_of(alloc, votes)?;
    match chosen(&Config::DEFAULT, casts.as_slice(), &key, Version(1)) {
        None => Some(None),
        Some(name) => Some(Some(name.session.number())),
    }
}

#[test]
fn values_chosen_of_the_object_alone(rt: HostRuntime) {
    for (votes, session) in CHOSEN {
        assert!(rt; told(rt.alloc(), votes, b"a") == Some(*session));
        assert!(rt; told(rt.alloc(), votes, b"b") == Some(None));
    }
}
