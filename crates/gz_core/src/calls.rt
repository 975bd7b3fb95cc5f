//! The calls that a session makes, and their answers.
ghost use Rattle.std.specs.Prelude.{◌≡◌};
ghost use Rattle.gz_core.specs.Calls.{key_of};

use crate::fates::Fates;
use crate::keys::Key;
use crate::lists::Items;
use crate::names::{PutName, Version};

/// A call of a session.
#[derive(Clone, Debug, PartialEq, Eq, Drop)]
pub enum Call {
    /// Writes the bytes as a new version of the object. At most 1,048,576 bytes.
    Put { key: Key, bytes: Items<u8> },
    /// Writes a tombstone as a new version of the object.
    Delete { key: Key },
    /// Reads the latest version.
    Get { key: Key },
    /// Reads this version, at least 1.
    GetAt { key: Key, version: Version },
    /// Drops all versions but the latest one and the `keep` before it. `keep` is 1 to 1000.
    Collect { key: Key, keep: u32 },
}

impl Call {
    /// The key of the object that the call is about.
    pub fn key(&self) -> &Key
        ensures { result.now ≡ key_of self.now }
    {
        match self {
            Call::Put { key, .. } | Call::Delete { key } | Call::Get { key } => key,
            Call::GetAt { key, .. } | Call::Collect { key, .. } => key,
        }
    }
}

/// The part of a call that sent its last row write, or `Look` where it sent none.
#[derive(Clone, Copy, Debug, PartialEq, Eq)]
pub enum Phase {
    Look,
    Fast,
    Prepare,
    Accept,
    Trim,
}

/// Why a put or delete that may have taken effect ended without knowing.
#[derive(Clone, Copy, Debug, PartialEq, Eq)]
pub enum UnsureWhy {
    /// Too few sites were left. `heard` counts the sites that were heard and are not given up.
    NoQuorum { phase: Phase, heard: u32 },
    /// Other writes came between too often: `met` times.
    Contended { met: u32 },
    /// The versions up to `floor` were collected, among them the one that the call voted in.
    Trimmed { floor: Version },
}

/// Why a collection dropped nothing.
#[derive(Clone, Debug, PartialEq, Eq, Drop)]
pub enum HeldWhy {
    /// No version is old enough.
    NoOlder,
    /// Too few fragments of the latest version are whole. There is one fate for each of its fragments.
    NotWhole { fates: Fates },
}

/// The answer of a call.
#[derive(Clone, Debug, PartialEq, Eq)]
pub enum Answer {
    /// The put or delete is chosen at this version.
    Ok {
        version: Version,
    },
    /// The put is chosen at this version, but too few of its fragments were stored: `stored` of them.
    Thin {
        version: Version,
        stored: u32,
    },
    /// The put was not begun, since too few of its fragments could be stored: `stored` of them were.
    Short {
        stored: u32,
    },
    /// The value of the version: that of the put with this name.
    Bytes {
        version: Version,
        name: PutName,
        bytes: Items<u8>,
    },
    /// Too few fragments of the version are whole, which the put with this name wrote. There is one fate for each
    /// fragment, in their order.
    Incomplete {
        version: Version,
        name: PutName,
        fates: Fates,
    },
    /// The version is a tombstone: that of the delete with this name.
    Gone {
        version: Version,
        name: PutName,
    },
    /// The object was never written.
    Absent,
    /// The version that was asked for has not begun: `latest` is the latest one.
    Unborn {
        latest: Version,
    },
    /// The versions up to `floor` were collected, the one that was asked for among them.
    Collected {
        floor: Version,
    },
    /// The versions up to `floor` are collected now, and `dropped` fragments of them were dropped.
    Swept {
        floor: Version,
        dropped: u32,
    },
    /// Nothing was collected.
    Held {
        why: HeldWhy,
    },
    /// Too few sites were left. `heard` counts the sites that were heard and are not given up.
    NoQuorum {
        phase: Phase,
        heard: u32,
    },
    /// Other writes came between too often: `met` times.
    Contended {
        met: u32,
    },
    /// The put or delete may have taken effect or may yet take it.
    Unsure {
        why: UnsureWhy,
    },
}

impl Drop for Answer {
    fn drop(self) {
        match self {
            Answer::Ok { version: _ } => {},
            Answer::Thin {
                version: _,
                stored: _,
            } => {},
            Answer::Short { stored: _ } => {},
            Answer::Bytes {
                version: _,
                name: _,
                bytes: _,
            } => {},
            Answer::Incomplete {
                version: _,
                name: _,
                fates: _,
            } => {},
            Answer::Gone {
                version: _,
                name: _,
            } => {},
            Answer::Absent => {},
            Answer::Unborn { latest: _ } => {},
            Answer::Collected { floor: _ } => {},
            Answer::Swept {
                floor: _,
                dropped: _,
            } => {},
            Answer::Held { why: _ } => {},
            Answer::NoQuorum { phase: _, heard: _ } => {},
            Answer::Contended { met: _ } => {},
            Answer::Unsure { why: _ } => {},
        }
    }
}
