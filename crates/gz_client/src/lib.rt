//! The calls of a session, as a machine that is handed the replies of its requests one at a time.
#![tactic(auto)]

pub mod client;
mod law;
pub mod running;

pub use client::Client;
pub use law::ends_exactly;
pub use running::{Change, Running};
