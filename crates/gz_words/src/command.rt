//! What the words of the command line ask for.

/// The records that can be shown.
#[derive(Clone, Copy, Debug, PartialEq, Eq)]
pub enum Record {
    /// The row of an object at a site.
    Row,
    /// A fragment of an object.
    Fragment,
}

/// What the words ask for.
#[derive(Drop)]
pub enum Command<'a> {
    /// The schedule of this name is replayed, under the configuration of this name, where one is named.
    Replay {
        schedule: &'a str,
        config: Option<&'a str>,
    },
    /// The log of this name is judged.
    Check {
        log: &'a str,
    },
    /// The record in the file of this name is shown.
    Show {
        kind: Record,
        file: &'a str,
    },
    /// The bytes that these digits spell are cut into k pieces, and m more are added.
    Code {
        k: usize,
        m: usize,
        digits: &'a [u8],
    },
}
