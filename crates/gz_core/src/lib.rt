//! The values that every part of the store speaks of: names, ballots, keys, values, rows of acceptor
//! columns, and calls with their answers.
#![tactic(auto)]

pub mod blobs;
pub mod calls;
pub mod fates;
pub mod fragments;
pub mod keys;
pub mod lists;
pub mod names;
pub mod requests;
pub mod rows;
pub mod slots;
pub mod texts;
pub mod values;

pub use blobs::BlobName;
pub use calls::{Answer, Call, HeldWhy, Phase, UnsureWhy};
pub use fates::{Fate, Fates};
pub use fragments::FragRef;
pub use gz_config::{Config, ConfigError, Order};
pub use keys::Key;
pub use lists::Items;
pub use names::{Ballot, Etag, PutName, Session, SiteId, Version};
pub use requests::{Op, Out, Reply, RowStep, Turn};
pub use rows::{Column, Row, Vote};
pub use slots::Slot;
pub use texts::{TextError, Why, Word};
pub use values::{PutValue, Value};
