//! Texts as lines, lines as fields, the forms that fields have, and what is wrong with a line.
#![tactic(auto)]

pub mod cut;
pub mod faults;
pub mod fields;
pub mod names;
pub mod objects;
pub mod places;

pub use faults::{Fault, number_at};
