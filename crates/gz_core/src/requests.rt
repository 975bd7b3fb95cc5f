//! What a client asks of sites, and what it is answered.
use crate::blobs::BlobName;
use crate::calls::Answer;
use crate::keys::Key;
use crate::lists::Items;
use crate::names::{Ballot, Etag, SiteId, Version};
use crate::rows::Row;
use crate::values::Value;

/// The step of an acceptor that made a row out of the one that was heard. (Lamport 2006, "Fast Paxos".)
#[derive(Clone, Debug)]
pub enum RowStep {
    /// A vote in the fast ballot.
    FastVote {
        version: Version,
        value: Value,
    },
    /// A promise of a classic ballot.
    Promise {
        version: Version,
        ballot: Ballot,
    },
    /// A vote in a classic ballot.
    ClassicVote {
        version: Version,
        ballot: Ballot,
        value: Value,
    },
    /// The value that is known to be chosen.
    Decide {
        version: Version,
        value: Value,
    },
    /// The versions up to `to` are collected; `value` is chosen at the one after.
    Trim {
        to: Version,
        value: Value,
    },
}

impl Drop for RowStep {
    fn drop(self) {
        match self {
            RowStep::FastVote {
                version: _,
                value: _,
            } => {},
            RowStep::Promise {
                version: _,
                ballot: _,
            } => {},
            RowStep::ClassicVote {
                version: _,
                ballot: _,
                value: _,
            } => {},
            RowStep::Decide {
                version: _,
                value: _,
            } => {},
            RowStep::Trim { to: _, value: _ } => {},
        }
    }
}

/// An operation that is asked of a site.
#[derive(Debug)]
pub enum Op {
    /// Reads the row of a key.
    ReadRow {
        key: Key,
    },
    /// Writes a row where the one stored stands under `expect` (none: where there is no row). `step` made it.
    WriteRow {
        key: Key,
        expect: Option<Etag>,
        step: RowStep,
        row: Row,
    },
    /// Stores the record of a fragment.
    PutBlob {
        name: BlobName,
        bytes: Items<u8>,
    },
    /// Reads the record of a fragment.
    GetBlob {
        name: BlobName,
    },
    /// Removes the record of a fragment.
    DropBlob {
        name: BlobName,
    },
}

impl Drop for Op {
    fn drop(self) {
        match self {
            Op::ReadRow { key: _ } => {},
            Op::WriteRow {
                key: _,
                expect: _,
                step: _,
                row: _,
            } => {},
            Op::PutBlob { name: _, bytes: _ } => {},
            Op::GetBlob { name: _ } => {},
            Op::DropBlob { name: _ } => {},
        }
    }
}

/// A request to send. A notice is one that nobody awaits.
#[derive(Drop)]
pub struct Out {
    pub site: SiteId,
    pub op: Op,
    pub awaited: bool,
}

/// What a site answered to a request.
#[derive(Clone, Debug)]
pub enum Reply {
    Row { etag: Etag, row: Row },
    NoRow,
    Written { etag: Etag },
    Changed,
    Stored,
    Blob { bytes: Items<u8> },
    NoBlob,
    Dropped,
    Failed,
}

impl Drop for Reply {
    fn drop(self) {
        match self {
            Reply::Row { etag: _, row: _ } => {},
            Reply::NoRow => {},
            Reply::Written { etag: _ } => {},
            Reply::Changed => {},
            Reply::Stored => {},
            Reply::Blob { bytes: _ } => {},
            Reply::NoBlob => {},
            Reply::Dropped => {},
            Reply::Failed => {},
        }
    }
}

/// What a client does at one event: the requests that it sends, and the answer of its call where it ends.
#[derive(Drop)]
pub struct Turn {
    pub send: Items<Out>,
    pub answer: Option<Answer>,
}
