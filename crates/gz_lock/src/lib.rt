//! A ticket lock round a value that takes turns. The turns of all threads make one history, and each seat has seen a beginning of it.
#![tactic(auto)]

mod lock;
mod plays;
mod rule;
mod steps;
mod tally;
mod turned;
mod views;

pub use lock::{Lock, NewRefused, Seat};
pub use tally::Tally;
pub use turned::Turned;
pub use views::{Joined, SeatState, SeatView, TakenTurn};
