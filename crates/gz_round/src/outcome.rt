//! What the rows of a call come to at one event.
use gz_core::{Answer, Items, Out, Value, Version};

/// What the rows that are known come to at an event.
#[derive(Drop)]
pub enum Outcome {
    /// The call goes on.
    Goes,
    /// The call's own value is chosen at this version, and each site that can take it was told.
    Placed { version: Version },
    /// The call reads, and this is the value of the latest version.
    Learnt { version: Version, value: Value },
    /// The call ends with this answer: `Absent`, `NoQuorum`, `Contended` or `Unsure`.
    Ends { answer: Answer },
}

/// What a call does about rows at one event: the requests that it sends, and what the rows come to.
#[derive(Drop)]
pub struct RowTurn {
    pub send: Items<Out>,
    pub outcome: Outcome,
}
