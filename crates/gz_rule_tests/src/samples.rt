//! The names, ballots and values that the tests speak of.
use gz_core::{Ballot, Config, Key, PutName, Session, Value};
use std::alloc::Global;

pub const ONE: PutName = PutName {
    session: Session(1),
    seq: 1,
};

pub const TWO: PutName = PutName {
    session: Session(2),
    seq: 1,
};

pub const FAST: Ballot = Ballot {
    round: 0,
    session: 0,
};

pub const LOW: Ballot = Ballot {
    round: 1,
    session: 1,
};

pub const HIGH: Ballot = Ballot {
    round: 2,
    session: 2,
};

/// Five sites, of which a classic quorum has three and a fast one four.
pub const FIVE: Config = Config {
    n: 5,
    qc: 3,
    qf: 4,
    ..Config::DEFAULT
};

/// The tombstone of a delete.
pub fn tomb(name: PutName) -> Value {
    Value::Tomb { name }
}

/// The key of these bytes, where they are one.
pub fn key_of(alloc: Global, bytes: &[u8]) -> Option<Key> {
    Key::new(Vec::from_slice(alloc, bytes).ok()?)
}
