//! What a coordinator may propose.
use crate::samples::{FAST, FIVE, HIGH, LOW, ONE, TWO};
use gz_core::{Config, SiteId};
use gz_pick::heard::{Heard, Pick};
use gz_pick::pick;

const MOST: [Heard; 3] = [
    Heard {
        site: SiteId(0),
        vote: Some((FAST, ONE)),
    },
    Heard {
        site: SiteId(1),
        vote: Some((FAST, ONE)),
    },
    Heard {
        site: SiteId(2),
        vote: Some((FAST, TWO)),
    },
];

const SPLIT: [Heard; 3] = [
    Heard {
        site: SiteId(0),
        vote: Some((FAST, ONE)),
    },
    Heard {
        site: SiteId(1),
        vote: Some((FAST, TWO)),
    },
    Heard {
        site: SiteId(2),
        vote: None,
    },
];

const HALVES: [Heard; 4] = [
    Heard {
        site: SiteId(0),
        vote: Some((FAST, ONE)),
    },
    Heard {
        site: SiteId(1),
        vote: Some((FAST, ONE)),
    },
    Heard {
        site: SiteId(2),
        vote: Some((FAST, TWO)),
    },
    Heard {
        site: SiteId(3),
        vote: Some((FAST, TWO)),
    },
];

const SINGLE: [Heard; 2] = [
    Heard {
        site: SiteId(0),
        vote: Some((FAST, ONE)),
    },
    Heard {
        site: SiteId(1),
        vote: None,
    },
];

const CLASSIC: [Heard; 2] = [
    Heard {
        site: SiteId(0),
        vote: Some((LOW, ONE)),
    },
    Heard {
        site: SiteId(2),
        vote: Some((HIGH, TWO)),
    },
];

fn picks() -> [Pick; 5] {
    [
        pick(&FIVE, MOST.as_slice()),
        pick(&FIVE, SPLIT.as_slice()),
        pick(&FIVE, HALVES.as_slice()),
        pick(&Config::DEFAULT, SINGLE.as_slice()),
        pick(&Config::DEFAULT, CLASSIC.as_slice()),
    ]
}

const PICKS: [Pick; 5] = [
    Pick::Forced { at: 0 },
    Pick::Free,
    Pick::Free,
    Pick::Free,
    Pick::Forced { at: 1 },
];

#[test]
fn picks_what_may_be_chosen(rt: HostRuntime) {
    assert!(rt; picks() == PICKS);
}
