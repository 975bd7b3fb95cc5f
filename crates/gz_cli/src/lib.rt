//! What the program does: it reads a configuration and replays a schedule in a world of sites, and writes the log of its calls,
//! it judges a log, it shows a record, or it cuts bytes into the pieces of a code. The program itself is the crate `giza`.
#![tactic(auto)]

pub mod bench;
mod check;
pub mod edge;
mod load;
mod output;
mod pieces;
mod replay;
pub mod run;
mod show;
pub mod status;

pub use bench::Bench;
pub use edge::{FileShelf, StdSink};
pub use status::Status;
