//! Calls at one site of a list.
ghost use Rattle.std.specs.Prelude.{◌≡◌, ◌<◌, length};
ghost use Rattle.gz_site.specs.Steps.{ReadRowStep, WriteRowStep, PutBlobStep, GetBlobStep, DropBlobStep};
ghost use Rattle.gz_site.specs.Many.{TellsAt, CauseAt, OthersStay};

use crate::sites::{RowRead, RowWrite, Site, SiteFault};
use gz_core::{BlobName, Etag, Key, Row};
use std::alloc::Global;

/// Reads the row of a key at the site at this place. The other sites stay as they were.
pub fn read_at<S: Site>(
    alloc: Global,
    sites: &mut Vec<S>,
    at: usize,
    key: &Key,
) -> Result<RowRead, SiteFault>
    requires { at < length sites.old.items }
    ensures len { length sites.new.items ≡ length sites.old.items }
    ensures step { TellsAt S.told sites.old.items at sites.new.items (λ old new. ReadRowStep old key.now result new) }
    ensures cause { CauseAt S.faults SiteFault.Failed sites.old.items at sites.new.items result }
    ensures others { OthersStay sites.old.items at sites.new.items }
{
    sites[at].read_row(alloc, key)
}

/// Writes the row of a key at the site at this place, where the stored tag is `expect`. The other sites stay as
/// they were.
pub fn write_at<S: Site>(
    alloc: Global,
    sites: &mut Vec<S>,
    at: usize,
    key: &Key,
    expect: Option<Etag>,
    row: &Row,
) -> Result<RowWrite, SiteFault>
    requires { at < length sites.old.items }
    ensures len { length sites.new.items ≡ length sites.old.items }
    ensures step { TellsAt S.told sites.old.items at sites.new.items (λ old new. WriteRowStep old key.now expect row.now result new) }
    ensures cause { CauseAt S.faults SiteFault.Failed sites.old.items at sites.new.items result }
    ensures others { OthersStay sites.old.items at sites.new.items }
{
    sites[at].write_row_if(alloc, key, expect, row)
}

/// Stores a blob at the site at this place. The other sites stay as they were.
pub fn put_blob_at<S: Site>(
    alloc: Global,
    sites: &mut Vec<S>,
    at: usize,
    name: &BlobName,
    bytes: &[u8],
) -> Result<(), SiteFault>
    requires { at < length sites.old.items }
    ensures len { length sites.new.items ≡ length sites.old.items }
    ensures step { TellsAt S.told sites.old.items at sites.new.items (λ old new. PutBlobStep old name.now bytes.now result new) }
    ensures cause { CauseAt S.faults SiteFault.Failed sites.old.items at sites.new.items result }
    ensures others { OthersStay sites.old.items at sites.new.items }
{
    sites[at].put_blob(alloc, name, bytes)
}

/// Gets a blob from the site at this place. The other sites stay as they were.
pub fn get_blob_at<S: Site>(
    alloc: Global,
    sites: &mut Vec<S>,
    at: usize,
    name: &BlobName,
) -> Result<Option<Vec<u8>>, SiteFault>
    requires { at < length sites.old.items }
    ensures len { length sites.new.items ≡ length sites.old.items }
    ensures step { TellsAt S.told sites.old.items at sites.new.items (λ old new. GetBlobStep old name.now result new) }
    ensures cause { CauseAt S.faults SiteFault.Failed sites.old.items at sites.new.items result }
    ensures others { OthersStay sites.old.items at sites.new.items }
{
    sites[at].get_blob(alloc, name)
}

/// Takes a blob away at the site at this place, and tells whether there was one. The other sites stay as they were.
pub fn drop_blob_at<S: Site>(
    alloc: Global,
    sites: &mut Vec<S>,
    at: usize,
    name: &BlobName,
) -> Result<bool, SiteFault>
    requires { at < length sites.old.items }
    ensures len { length sites.new.items ≡ length sites.old.items }
    ensures step { TellsAt S.told sites.old.items at sites.new.items (λ old new. DropBlobStep old name.now result new) }
    ensures cause { CauseAt S.faults SiteFault.Failed sites.old.items at sites.new.items result }
    ensures others { OthersStay sites.old.items at sites.new.items }
{
    sites[at].drop_blob(alloc, name)
}
