//! Row records: what a site keeps of an object's versions, as bytes with one spelling.
#![tactic(auto)]

ghost use Rattle.gz_rowfmt.specs.Laws.{IsReadBack, IsItsSpelling, AreSpelledApart};

mod errors;
mod reading;
mod writing;

pub use errors::RowError;
pub use reading::decode_row;
pub use writing::encode_row;

/// Law: what is written of a row is read as that row.
pub fn is_read_back()
    ensures { IsReadBack }
{}

/// Law: bytes that are read as a row are what is written of it.
pub fn is_its_spelling()
    ensures { IsItsSpelling }
{}

/// Law: no two rows are spelled alike.
pub fn are_spelled_apart()
    ensures { AreSpelledApart }
{}
