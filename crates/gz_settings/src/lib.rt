//! The configuration of a store, read from a text in TOML.
#![tactic(auto)]

pub mod read;
pub mod refusal;
pub mod setting;

pub use read::read_config;
pub use refusal::ConfigText;
pub use setting::Setting;
