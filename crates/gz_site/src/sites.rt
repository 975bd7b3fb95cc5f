//! A site: a table of rows with a read that gives an entity tag, and a write that is conditional on one, and a table of
//! blobs.
ghost use Rattle.std.specs.Prelude.{ℕ, Option};
ghost use Rattle.gz_core.specs.Causes.{HasCountedFault};
ghost use Rattle.gz_site.specs.Told.{Told, Tells};
ghost use Rattle.gz_site.specs.Steps.{ReadRowStep, WriteRowStep, PutBlobStep, GetBlobStep, DropBlobStep};

use gz_core::{BlobName, Etag, Key, Row};
use std::alloc::Global;

/// What a read of a row gives.
#[derive(Drop)]
pub enum RowRead {
    /// The stored row and its tag.
    Row { etag: Etag, row: Row },
    /// The key has no row.
    NoRow,
}

/// What a conditional write of a row gives.
#[derive(Clone, Copy, Debug, PartialEq, Eq)]
pub enum RowWrite {
    /// The row stands under this new tag.
    Written { etag: Etag },
    /// The stored tag was another than the expected one. Nothing changed.
    Changed,
}

/// Why a site gave no answer.
#[derive(Clone, Copy, Debug, PartialEq, Eq)]
pub enum SiteFault {
    /// The site failed: the call had no effect, or its whole effect.
    Failed,
    /// Memory ran out, and nothing changed.
    NoMemory,
}

/// A site that holds one row for each object, and blobs by their names. A site that tells its state tells the rows with
/// their tags, the bytes of the blobs and the greatest tag that it has used; one that does not is bound by its count of
/// faults alone. No call removes a row.
pub trait Site: Drop {
    ghost told: { Self → Option Told };

    ghost faults: { Self → ℕ };

    /// Reads the row of a key with its tag.
    fn read_row(&mut self, alloc: Global, key: &Key) -> Result<RowRead, SiteFault>
        ensures step { Tells (told self.old) (told self.new) (λ old new. ReadRowStep old key.now result new) }
        ensures cause { HasCountedFault SiteFault.Failed (faults self.old) (faults self.new) result };

    /// Writes the row of a key where the stored tag is `expect`, none standing for no row.
    fn write_row_if(
        &mut self,
        alloc: Global,
        key: &Key,
        expect: Option<Etag>,
        row: &Row,
    ) -> Result<RowWrite, SiteFault>
        ensures step { Tells (told self.old) (told self.new) (λ old new. WriteRowStep old key.now expect row.now result new) }
        ensures cause { HasCountedFault SiteFault.Failed (faults self.old) (faults self.new) result };

    /// Stores bytes under a blob's name, in place of those that stood there.
    fn put_blob(&mut self, alloc: Global, name: &BlobName, bytes: &[u8]) -> Result<(), SiteFault>
        ensures step { Tells (told self.old) (told self.new) (λ old new. PutBlobStep old name.now bytes.now result new) }
        ensures cause { HasCountedFault SiteFault.Failed (faults self.old) (faults self.new) result };

    /// The bytes of a blob, if there is one of this name.
    fn get_blob(&mut self, alloc: Global, name: &BlobName) -> Result<Option<Vec<u8>>, SiteFault>
        ensures step { Tells (told self.old) (told self.new) (λ old new. GetBlobStep old name.now result new) }
        ensures cause { HasCountedFault SiteFault.Failed (faults self.old) (faults self.new) result };

    /// Takes a blob away, and tells whether there was one of this name.
    fn drop_blob(&mut self, alloc: Global, name: &BlobName) -> Result<bool, SiteFault>
        ensures step { Tells (told self.old) (told self.new) (λ old new. DropBlobStep old name.now result new) }
        ensures cause { HasCountedFault SiteFault.Failed (faults self.old) (faults self.new) result };
}
