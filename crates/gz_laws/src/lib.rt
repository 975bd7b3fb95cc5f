//! The laws of the worlds that events reach.
#![tactic(auto)]

pub mod data_laws;
pub mod laws;
pub mod log_laws;
