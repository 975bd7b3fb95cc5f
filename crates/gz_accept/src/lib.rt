//! The acceptor of Fast Paxos over a row: the steps by which a site votes, promises, decides and collects.
//! (Lamport 2006, "Fast Paxos", section 2.)
#![tactic(auto)]

pub mod answers;
mod columns;
mod laws;
mod steps;

pub use answers::{Step, classic_step, decide_step, fast_step, promise_step, trim_step};
pub use laws::acceptor_laws;
pub use steps::{classic_vote, decide, fast_vote, promise, trim};
