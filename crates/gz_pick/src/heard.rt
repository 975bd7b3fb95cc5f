//! What a coordinator hears and may propose.
use gz_core::{Ballot, PutName, SiteId};

/// A site that promised a ballot at a version, and the vote that its row has there: the vote's ballot and the
/// name of its value.
#[derive(Clone, Copy, Debug, PartialEq, Eq)]
pub struct Heard {
    pub site: SiteId,
    pub vote: Option<(Ballot, PutName)>,
}

/// What the coordinator may propose.
#[derive(Clone, Copy, Debug, PartialEq, Eq)]
pub enum Pick {
    /// Only the value of the vote at this place of the heard ones.
    Forced { at: usize },
    /// Any value.
    Free,
}
