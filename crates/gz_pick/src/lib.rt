//! What the rows of an object show: which value is chosen at a version, and what a coordinator may propose.
//! Nothing here takes memory. (Lamport 2006, "Fast Paxos", section 2.2.)
#![tactic(auto)]

pub mod choices;
pub mod evidences;
pub mod heard;
pub mod looks;
pub mod tops;
mod votes;

pub use choices::pick;
pub use evidences::evidence;
pub use looks::{decided_at, named_at, top_of, vote_at};
pub use tops::highest;
