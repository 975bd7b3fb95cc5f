//! The fields that records have. Records are read from left to right: each reader answers its field and the bytes after it, or
//! what is wrong there and the place.
#![tactic(auto)]

mod faults;
mod fields;
mod numbers;

pub use faults::Fault;
pub use fields::{data_of, length_of, name_of, parity_of};
pub use numbers::{byte_of, bytes_of, u32_of, u64_of};
