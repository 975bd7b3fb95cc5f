//! A site in memory that counts its calls.
ghost use Rattle.std.specs.Prelude.{ℕ, ◌≡◌, ◌+◌, ◌-◌, ◌^◌, Some, min};
ghost use Rattle.gz_core.specs.Causes.{HasCountedFault};
ghost use Rattle.gz_site.specs.Told.{Told, Tells};
ghost use Rattle.gz_site.specs.Steps.{ReadRowStep, WriteRowStep, PutBlobStep, GetBlobStep, DropBlobStep};
ghost use Rattle.gz_site.specs.Memory.{memory, listed, asked, fate_of, ReadNext, WriteNext, PutBlobNext, GetBlobNext, DropBlobNext, Fated};

use crate::memory::MemSite;
use crate::sites::{RowRead, RowWrite, Site, SiteFault};
use gz_core::{BlobName, Etag, Key, Row};
use std::alloc::Global;

/// A site in memory with the number of the calls that went through here, which stays at 2^64 - 1. It tells what the site
/// in it tells.
#[derive(Drop)]
pub struct CountedSite {
    pub inner: MemSite,
    pub calls: u64,
}

impl CountedSite {
    /// No call went through yet. Takes no memory.
    pub fn new(inner: MemSite) -> CountedSite
        ensures inner { result.inner ≡ inner }
        ensures calls { result.calls ≡ 0 }
        ensures told { ⟦<CountedSite as Site>⟧.told result ≡ ⟦<MemSite as Site>⟧.told inner }
        ensures faults { ⟦<CountedSite as Site>⟧.faults result ≡ ⟦<MemSite as Site>⟧.faults inner }
    {
        CountedSite { inner, calls: 0 }
    }

    /// Counts a call.
    fn count(&mut self)
        ensures counted { self.new.calls ≡ min (self.old.calls + 1) (2 ^ 64 - 1) }
        ensures rest { self.new.inner ≡ self.old.inner }
    {
        self.calls = self.calls.saturating_add(1);
    }
}

impl Site for CountedSite {
    ghost told = { λ s. ⟦<MemSite as Site>⟧.told s.inner };

    ghost faults = { λ s. ⟦<MemSite as Site>⟧.faults s.inner };

    fn read_row(&mut self, alloc: Global, key: &Key) -> Result<RowRead, SiteFault>
        ensures step { Tells (⟦<MemSite as Site>⟧.told self.old.inner) (⟦<MemSite as Site>⟧.told self.new.inner) (λ old new. ReadRowStep old key.now result new) }
        ensures cause { HasCountedFault SiteFault.Failed (⟦<MemSite as Site>⟧.faults self.old.inner) (⟦<MemSite as Site>⟧.faults self.new.inner) result }
        ensures counted { self.new.calls ≡ min (self.old.calls + 1) (2 ^ 64 - 1) }
        ensures listed { listed self.new.inner ≡ listed self.old.inner }
        ensures asked { asked self.new.inner ≡ min (asked self.old.inner + 1) (2 ^ 64 - 1) }
        ensures same { memory self.new.inner ≡ memory self.old.inner }
        ensures fated { Fated (fate_of (listed self.old.inner) (asked self.new.inner)) (memory self.old.inner) (ReadNext (memory self.old.inner) key.now) result (memory self.new.inner) }
    {
        self.count();
        self.inner.read_row(alloc, key)
    }

    fn write_row_if(
        &mut self,
        alloc: Global,
        key: &Key,
        expect: Option<Etag>,
        row: &Row,
    ) -> Result<RowWrite, SiteFault>
        ensures step { Tells (⟦<MemSite as Site>⟧.told self.old.inner) (⟦<MemSite as Site>⟧.told self.new.inner) (λ old new. WriteRowStep old key.now expect row.now result new) }
        ensures cause { HasCountedFault SiteFault.Failed (⟦<MemSite as Site>⟧.faults self.old.inner) (⟦<MemSite as Site>⟧.faults self.new.inner) result }
        ensures counted { self.new.calls ≡ min (self.old.calls + 1) (2 ^ 64 - 1) }
        ensures listed { listed self.new.inner ≡ listed self.old.inner }
        ensures asked { asked self.new.inner ≡ min (asked self.old.inner + 1) (2 ^ 64 - 1) }
        ensures fated { Fated (fate_of (listed self.old.inner) (asked self.new.inner)) (memory self.old.inner) (WriteNext (memory self.old.inner) key.now expect row.now) result (memory self.new.inner) }
    {
        self.count();
        self.inner.write_row_if(alloc, key, expect, row)
    }

    fn put_blob(&mut self, alloc: Global, name: &BlobName, bytes: &[u8]) -> Result<(), SiteFault>
        ensures step { Tells (⟦<MemSite as Site>⟧.told self.old.inner) (⟦<MemSite as Site>⟧.told self.new.inner) (λ old new. PutBlobStep old name.now bytes.now result new) }
        ensures cause { HasCountedFault SiteFault.Failed (⟦<MemSite as Site>⟧.faults self.old.inner) (⟦<MemSite as Site>⟧.faults self.new.inner) result }
        ensures counted { self.new.calls ≡ min (self.old.calls + 1) (2 ^ 64 - 1) }
        ensures listed { listed self.new.inner ≡ listed self.old.inner }
        ensures asked { asked self.new.inner ≡ min (asked self.old.inner + 1) (2 ^ 64 - 1) }
        ensures fated { Fated (fate_of (listed self.old.inner) (asked self.new.inner)) (memory self.old.inner) (PutBlobNext (memory self.old.inner) name.now bytes.now) result (memory self.new.inner) }
    {
        self.count();
        self.inner.put_blob(alloc, name, bytes)
    }

    fn get_blob(&mut self, alloc: Global, name: &BlobName) -> Result<Option<Vec<u8>>, SiteFault>
        ensures step { Tells (⟦<MemSite as Site>⟧.told self.old.inner) (⟦<MemSite as Site>⟧.told self.new.inner) (λ old new. GetBlobStep old name.now result new) }
        ensures cause { HasCountedFault SiteFault.Failed (⟦<MemSite as Site>⟧.faults self.old.inner) (⟦<MemSite as Site>⟧.faults self.new.inner) result }
        ensures counted { self.new.calls ≡ min (self.old.calls + 1) (2 ^ 64 - 1) }
        ensures listed { listed self.new.inner ≡ listed self.old.inner }
        ensures asked { asked self.new.inner ≡ min (asked self.old.inner + 1) (2 ^ 64 - 1) }
        ensures same { memory self.new.inner ≡ memory self.old.inner }
        ensures fated { Fated (fate_of (listed self.old.inner) (asked self.new.inner)) (memory self.old.inner) (GetBlobNext (memory self.old.inner) name.now) result (memory self.new.inner) }
    {
        self.count();
        self.inner.get_blob(alloc, name)
    }

    fn drop_blob(&mut self, alloc: Global, name: &BlobName) -> Result<bool, SiteFault>
        ensures step { Tells (⟦<MemSite as Site>⟧.told self.old.inner) (⟦<MemSite as Site>⟧.told self.new.inner) (λ old new. DropBlobStep old name.now result new) }
        ensures cause { HasCountedFault SiteFault.Failed (⟦<MemSite as Site>⟧.faults self.old.inner) (⟦<MemSite as Site>⟧.faults self.new.inner) result }
        ensures counted { self.new.calls ≡ min (self.old.calls + 1) (2 ^ 64 - 1) }
        ensures listed { listed self.new.inner ≡ listed self.old.inner }
        ensures asked { asked self.new.inner ≡ min (asked self.old.inner + 1) (2 ^ 64 - 1) }
        ensures fated { Fated (fate_of (listed self.old.inner) (asked self.new.inner)) (memory self.old.inner) (DropBlobNext (memory self.old.inner) name.now) result (memory self.new.inner) }
    {
        self.count();
        self.inner.drop_blob(alloc, name)
    }
}
