//! One phase of a call: what it asks of the sites, what it learns, and when it reaches its goal.
#![tactic(auto)]

mod acting;
pub mod asking;
pub mod awaiting;
pub mod choosing;
pub mod counts;
pub mod floors;
pub mod following;
pub mod hearing;
mod looking_back;
pub mod making;
mod noting;
pub mod outcome;
mod passing;
mod preparing;
mod rounds;
pub mod run;
mod starting;
mod voting;

pub use following::Next;
pub use hearing::Seen;
pub use outcome::{Outcome, RowTurn};
pub use run::{Awaited, Mark, Run, Stage, Target};
