//! The laws of Fast Paxos for one version of an object: quorums meet, what the choice rule allows is safe, and
//! at most one value is chosen. (Lamport 2006, "Fast Paxos".)
#![tactic(auto)]

pub mod casts;
pub mod laws;
pub mod sites;

pub use casts::{Cast, chosen};
pub use laws::{allowed_is_safe, one_chosen, one_forced, quorums_meet};
pub use sites::{meet, meet3};
