//! What lies outside the store: sites that hold rows and blobs, shelves of files, and sinks of bytes, each as a trait with
//! an implementation in memory.
#![tactic(auto)]

pub mod boxed;
pub mod counted;
pub mod many;
pub mod memory;
pub mod memory_files;
pub mod shelves;
pub mod sinks;
pub mod sites;

pub use boxed::BoxedSite;
pub use counted::CountedSite;
pub use many::{drop_blob_at, get_blob_at, put_blob_at, read_at, write_at};
pub use memory::{Failing, MemSite};
pub use memory_files::{MemShelf, MemSink};
pub use shelves::{Shelf, ShelfError};
pub use sinks::{Sink, SinkError, write_all};
pub use sites::{RowRead, RowWrite, Site, SiteFault};
