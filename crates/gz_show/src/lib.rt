//! The lines of row records and fragment records, which a reader can read: what is decoded, field by field, or the first fault.
#![tactic(auto)]

mod errors;
mod fragments;
mod names;
mod rows;

pub use errors::{RecordWhy, ShowError};
pub use fragments::{fragment_text, show_fragment};
pub use rows::{row_text, show_row};
