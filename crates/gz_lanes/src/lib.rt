//! Sums of products over whole slices of bytes, in the field with 256 elements.
#![tactic(auto)]

mod lanes;
mod pieces;
pub mod plain;
mod quads;
mod rows;
mod vector;

pub use pieces::{combine_rows, copy_and_combine};
pub use rows::CoefficientRow;
