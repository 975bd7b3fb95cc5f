//! The lines of schedules, and how they are read.
#![tactic(auto)]

pub mod bytes;
mod counts;
pub mod fields;
mod grammar;
pub mod line;
mod numbers;
pub mod schedule;
mod verbs;

pub use gz_text::Fault;
pub use line::Line;
pub use schedule::read_schedule;
