//! The words of the command line: `clap` splits them, and the program's own grammar decides.
#![tactic(auto)]

pub mod command;
mod grammar;
mod parser;
pub mod read;

pub use command::{Command, Record};
pub use read::{command_of, texts_of};
