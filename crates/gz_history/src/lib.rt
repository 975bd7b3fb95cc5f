//! The history of a run: its calls with their answers, the text of its log, and when a history is legal.
#![tactic(auto)]

mod agreement;
mod groups;
mod heads;
mod judging;
pub mod legality;
pub mod log;
mod order;
pub mod record;
mod repeats;
pub mod serial;
mod sources;
mod text;

pub use judging::judge;
pub use legality::{Broken, is_history, legal};
pub use log::log_text;
pub use record::CallRec;
pub use serial::serialise;
