//! Numbers and names: sites, sessions, versions, puts, ballots and entity tags.
ghost use Rattle.std.specs.Prelude.{◌≡◌, ℕ, ◌+◌, ◌^◌, ◌<◌, ◌≤◌, ◌⊎◌, ◌↔◌, IsTrue, SomeIff};
ghost use Rattle.gz_core.specs.Names.{Name, BallotAt, fast, IsClassic, is_below};

use std::marker::Model;

/// The number of a site, below 16.
#[derive(Clone, Copy, Debug, PartialEq, Eq, PartialOrd, Ord)]
pub struct SiteId(pub u8);

impl Model for SiteId {
    ghost Value = { ℕ };

    ghost view = { λ s. s.0 };

    ghost invariant = { λ s. s.0 < 16 };

    ghost inverse = { λ n. record { 0 = n } };
}

impl SiteId {
    /// The most sites that a store has.
    pub const MOST: u8 = 16;

    /// The site's place in a list of all sites.
    pub fn index(self) -> usize
        ensures same { result ≡ self }
        ensures within { result < 16 }
    {
        self.0 as usize
    }
}

/// The number of a client's session, counted from 1.
#[derive(Clone, Copy, Debug, PartialEq, Eq, PartialOrd, Ord)]
pub struct Session(pub u32);

impl Model for Session {
    ghost Value = { ℕ };

    ghost view = { λ s. s.0 };

    ghost invariant = { λ s. 1 ≤ s.0 };

    ghost inverse = { λ n. record { 0 = n } };
}

impl Session {
    /// The number, at least 1.
    pub fn number(self) -> u32
        ensures same { result ≡ self }
        ensures positive { 1 ≤ result }
    {
        self.0
    }
}

/// The version of an object: 1, 2, 3, .., and 0 where it means none.
#[derive(Clone, Copy, Debug, PartialEq, Eq, PartialOrd, Ord)]
pub struct Version(pub u64);

impl Model for Version {
    ghost Value = { ℕ };

    ghost view = { λ v. v.0 };

    ghost invariant = { λ v. v.0 < 2 ^ 63 };

    ghost inverse = { λ n. record { 0 = n } };
}

impl Version {
    /// No version: what stands below the first one.
    pub fn none() -> Version
        ensures { result ≡ 0 }
    {
        Version(0)
    }

    /// The number, below 2^63.
    pub fn number(self) -> u64
        ensures same { result ≡ self }
        ensures bounded { result < 2 ^ 63 }
    {
        self.0
    }

    /// The version after this one.
    pub fn next(self) -> Version
        requires { self + 1 < 2 ^ 63 }
        ensures { result ≡ self + 1 }
    {
        Version(self.0 + 1)
    }
}

/// The name of a call, and of the value that a put or a delete writes: the session, and the number of the
/// call within it, counted from 1.
#[derive(Clone, Copy, Debug, PartialEq, Eq, PartialOrd, Ord)]
pub struct PutName {
    pub session: Session,
    pub seq: u32,
}

impl Model for PutName {
    ghost Value = { Name };

    ghost view = { λ n. record { session = n.session; seq = n.seq } };

    ghost invariant = { λ n. 1 ≤ n.seq };

    ghost inverse = { λ n. record { session = n.session; seq = n.seq } };
}

impl PutName {
    /// The number of the session, at least 1.
    pub fn session_number(self) -> u32
        ensures same { result ≡ self.session }
        ensures positive { 1 ≤ result }
    {
        self.session.number()
    }

    /// The number of the call within its session, at least 1.
    pub fn seq_number(self) -> u32
        ensures same { result ≡ self.seq }
        ensures positive { 1 ≤ result }
    {
        self.seq
    }
}

/// A ballot, ordered by its round and then its session. (0,0) is the one fast ballot; a classic ballot has
/// both parts at least 1. (Lamport 2006, "Fast Paxos".)
#[derive(Clone, Copy, Debug, PartialEq, Eq, PartialOrd, Ord)]
pub struct Ballot {
    pub round: u32,
    pub session: u32,
}

impl Model for Ballot {
    ghost Value = { BallotAt };

    ghost view = { λ b. record { round = b.round; session = b.session } };

    ghost invariant = { λ b. ((b.round ≡ 0) × (b.session ≡ 0)) ⊎ ((1 ≤ b.round) × (1 ≤ b.session)) };

    ghost inverse = { λ b. record { round = b.round; session = b.session } };
}

impl Ballot {
    /// The fast ballot, which is open in every version from the start.
    pub fn fast() -> Ballot
        ensures { result ≡ fast }
    {
        Ballot {
            round: 0,
            session: 0,
        }
    }

    /// The classic ballot of a round and a session.
    pub fn classic(round: u32, session: Session) -> Ballot
        requires { 1 ≤ round }
        ensures round { result.round ≡ round }
        ensures session { result.session ≡ session }
    {
        Ballot {
            round,
            session: session.number(),
        }
    }

    /// Whether this is the fast ballot.
    pub fn is_fast(self) -> bool
        ensures { IsTrue result ↔ (self ≡ fast) }
    {
        self == Ballot::fast()
    }

    /// Whether this ballot stands before `other`.
    pub fn is_below(self, other: Ballot) -> bool
        ensures { result ≡ is_below self other }
    {
        self.round < other.round || (self.round == other.round && self.session < other.session)
    }
}

/// The entity tag under which a site keeps a row. A site uses none twice.
#[derive(Clone, Copy, Debug, PartialEq, Eq)]
pub struct Etag(pub u64);

impl Model for Etag {
    ghost Value = { ℕ };

    ghost view = { λ e. e.0 };

    ghost inverse = { λ n. record { 0 = n } };
}

impl Etag {
    /// The tag as a number.
    pub fn number(self) -> u64
        ensures { result ≡ self }
    {
        self.0
    }
}
