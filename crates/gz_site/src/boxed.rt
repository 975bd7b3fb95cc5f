//! A site in a box, so that sites of several kinds stand in one list.
ghost use Rattle.std.specs.Prelude.{ℕ, Option};

use crate::sites::{RowRead, RowWrite, Site, SiteFault};
use gz_core::{BlobName, Etag, Key, Row};
use std::alloc::Global;

/// A box with a site of any kind. It tells what the site in it tells, counts what that one counts, and passes each call
/// on.
#[derive(Drop)]
pub struct BoxedSite(pub Box<dyn Site + Send>);

impl Site for BoxedSite {
    ghost told = { λ s. (Site-box s.0).told s.0.value };

    ghost faults = { λ s. (Site-box s.0).faults s.0.value };

    fn read_row(&mut self, alloc: Global, key: &Key) -> Result<RowRead, SiteFault> {
        self.0.read_row(alloc, key)
    }

    fn write_row_if(
        &mut self,
        alloc: Global,
        key: &Key,
        expect: Option<Etag>,
        row: &Row,
    ) -> Result<RowWrite, SiteFault> {
        self.0.write_row_if(alloc, key, expect, row)
    }

    fn put_blob(&mut self, alloc: Global, name: &BlobName, bytes: &[u8]) -> Result<(), SiteFault> {
        self.0.put_blob(alloc, name, bytes)
    }

    fn get_blob(&mut self, alloc: Global, name: &BlobName) -> Result<Option<Vec<u8>>, SiteFault> {
        self.0.get_blob(alloc, name)
    }

    fn drop_blob(&mut self, alloc: Global, name: &BlobName) -> Result<bool, SiteFault> {
        self.0.drop_blob(alloc, name)
    }
}
