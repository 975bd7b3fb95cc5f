//! Logs, read back exactly by their grammar.
#![tactic(auto)]

mod answers;
mod bytes;
mod calls;
mod kinds;
pub mod laws;
mod lines;
mod named;
mod reader;

pub use reader::parse_log;
