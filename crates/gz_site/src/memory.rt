//! A site in memory, which can be made to fail.
ghost use Rattle.std.specs.Prelude.{ℕ, ◌≡◌, ◌≢◌, ◌+◌, ◌-◌, ◌^◌, ◌<◌, ◌≤◌, Some, None, Ok, Err, All, min};
ghost use Rattle.gz_core.specs.Causes.{Rose, HasCountedFault};
ghost use Rattle.gz_site.specs.Told.{Told, Tells, nothing, etag_of};
ghost use Rattle.gz_site.specs.Steps.{ReadRowStep, WriteRowStep, PutBlobStep, GetBlobStep, DropBlobStep};
ghost use Rattle.gz_site.specs.Memory.{told_of, memory, listed, asked, fate_of, Stores, ReadNext, WriteNext, PutBlobNext, GetBlobNext, DropBlobNext, Fated};

use crate::sites::{RowRead, RowWrite, Site, SiteFault};
use gz_core::{BlobName, Etag, Items, Key, Row};
use std::alloc::Global;
use std::collections::BTreeMap;

/// A call that a site is made to fail: its number, counted from 1, and whether it has its effect all the same.
#[derive(Clone, Copy)]
pub struct Failing {
    pub call: u64,
    pub effect: bool,
}

#[derive(Drop)]
struct Contents {
    rows: BTreeMap<Key, (Etag, Row)>,
    blobs: BTreeMap<BlobName, Items<u8>>,
    top: u64,
}

impl Contents {
    fn new(alloc: Global) -> Contents
        ensures { told_of result ≡ nothing }
    {
        Contents {
            rows: BTreeMap::new(alloc),
            blobs: BTreeMap::new(alloc),
            top: 0,
        }
    }

    fn etag_at(&self, key: &Key) -> Option<Etag>
        ensures { result ≡ etag_of ((told_of self.now).rows key.now) }
    {
        match self.rows.get(key) {
            Some(stored) => Some(stored.0),
            None => None,
        }
    }

    fn read(&self, key: &Key) -> Result<RowRead, SiteFault>
        ensures step { ReadRowStep (told_of self.now) key.now result (told_of self.now) }
        ensures answers { result ≢ Err SiteFault.Failed }
    {
        match self.rows.get(key) {
            None => Ok(RowRead::NoRow),
            Some(stored) => match stored.1.clone() {
                Ok(row) => Ok(RowRead::Row {
                    etag: stored.0,
                    row,
                }),
                Err(_) => Err(SiteFault::NoMemory),
            },
        }
    }

    fn write(&mut self, key: &Key, expect: Option<Etag>, row: &Row) -> Result<RowWrite, SiteFault>
        ensures { WriteNext (told_of self.old) key.now expect row.now result (told_of self.new) }
    {
        if self.etag_at(key) != expect {
            return Ok(RowWrite::Changed);
        }
        if self.top == u64::MAX {
            return Err(SiteFault::Failed);
        }
        self.store(key, Etag(self.top + 1), row)
    }

    fn store(&mut self, key: &Key, etag: Etag, row: &Row) -> Result<RowWrite, SiteFault>
        requires { etag ≡ self.old.top + 1 }
        ensures { Stores (told_of self.old) key.now etag row.now result (told_of self.new) }
    {
        let Ok(key) = key.clone() else {
            return Err(SiteFault::NoMemory);
        };
        let Ok(row) = row.clone() else {
            return Err(SiteFault::NoMemory);
        };
        self.insert(key, etag, row)
    }

    fn insert(&mut self, key: Key, etag: Etag, row: Row) -> Result<RowWrite, SiteFault>
        requires { etag ≡ self.old.top + 1 }
        ensures { Stores (told_of self.old) key etag row result (told_of self.new) }
    {
        if self.rows.insert(key, (etag, row)).is_err() {
            return Err(SiteFault::NoMemory);
        }
        self.top = etag.number();
        Ok(RowWrite::Written { etag })
    }

    fn put_blob(&mut self, alloc: Global, name: &BlobName, bytes: &[u8]) -> Result<(), SiteFault>
        ensures { PutBlobNext (told_of self.old) name.now bytes.now result (told_of self.new) }
    {
        let Ok(name) = name.clone() else {
            return Err(SiteFault::NoMemory);
        };
        let Ok(bytes) = Items::from_slice(alloc, bytes) else {
            return Err(SiteFault::NoMemory);
        };
        match self.blobs.insert(name, bytes) {
            Ok(_) => Ok(()),
            Err(_) => Err(SiteFault::NoMemory),
        }
    }

    fn get_blob(&self, alloc: Global, name: &BlobName) -> Result<Option<Vec<u8>>, SiteFault>
        ensures { GetBlobNext (told_of self.now) name.now result (told_of self.now) }
    {
        match self.blobs.get(name) {
            None => Ok(None),
            Some(bytes) => match Vec::from_slice(alloc, bytes.as_slice()) {
                Ok(bytes) => Ok(Some(bytes)),
                Err(_) => Err(SiteFault::NoMemory),
            },
        }
    }

    fn drop_blob(&mut self, name: &BlobName) -> Result<bool, SiteFault>
        ensures { DropBlobNext (told_of self.old) name.now result (told_of self.new) }
    {
        Ok(self.blobs.remove(name).is_some())
    }
}

/// A site in memory. It starts empty, gives tags 1, 2, 3, .., and answers Failed exactly at the calls that it is
/// made to fail, which are counted over all its calls together, and at a write that would need a tag above 2^64 - 1. Its
/// counts stay at 2^64 - 1.
#[derive(Drop)]
pub struct MemSite {
    contents: Contents,
    failing: Vec<Failing>,
    calls: u64,
    faults: u64,
}

impl MemSite {
    /// An empty site that fails the calls in the list. Where several entries list one call, the first counts.
    /// Takes no memory.
    pub fn new(alloc: Global, failing: Vec<Failing>) -> MemSite
        requires { All (λ f. f.call < 2 ^ 64 - 1) failing.items }
        ensures empty { memory result ≡ nothing }
        ensures fails { listed result ≡ failing.items }
        ensures calls { asked result ≡ 0 }
        ensures faults { ⟦<MemSite as Site>⟧.faults result ≡ 0 }
    {
        MemSite {
            contents: Contents::new(alloc),
            failing,
            calls: 0,
            faults: 0,
        }
    }

    /// Counts a call, and returns whether it is made to fail.
    fn turn(&mut self) -> Option<bool>
        ensures fate { result ≡ fate_of (listed self.old) (asked self.new) }
        ensures counted { asked self.new ≡ min (asked self.old + 1) (2 ^ 64 - 1) }
        ensures rest { (self.new.contents ≡ self.old.contents) × ((self.new.failing ≡ self.old.failing) × (self.new.faults ≡ self.old.faults)) }
    {
        self.calls = self.calls.saturating_add(1);
        let calls = self.calls;
        match self.failing.iter().find(|f| f.call == calls) {
            Some(failing) => Some(failing.effect),
            None => None,
        }
    }

    /// Counts a fault.
    fn fail(&mut self) -> SiteFault
        ensures fault { result ≡ SiteFault.Failed }
        ensures rose { Rose self.old.faults self.new.faults × (self.old.faults ≤ self.new.faults) }
        ensures rest { (self.new.contents ≡ self.old.contents) × ((self.new.failing ≡ self.old.failing) × (self.new.calls ≡ self.old.calls)) }
    {
        self.faults = self.faults.saturating_add(1);
        SiteFault::Failed
    }

    /// A fault of the table itself is counted too.
    fn told_fault(&mut self, fault: SiteFault) -> SiteFault
        ensures fault { result ≡ fault }
        ensures rose { fault ≡ SiteFault.Failed → Rose self.old.faults self.new.faults }
        ensures later { self.old.faults ≤ self.new.faults }
        ensures rest { (self.new.contents ≡ self.old.contents) × ((self.new.failing ≡ self.old.failing) × (self.new.calls ≡ self.old.calls)) }
    {
        match fault {
            SiteFault::Failed => self.fail(),
            SiteFault::NoMemory => SiteFault::NoMemory,
        }
    }
}

impl Site for MemSite {
    ghost told = { λ s. Some (told_of s.contents) };

    ghost faults = { λ s. s.faults };

    fn read_row(&mut self, _alloc: Global, key: &Key) -> Result<RowRead, SiteFault>
        ensures step { Tells (Some (told_of self.old.contents)) (Some (told_of self.new.contents)) (λ old new. ReadRowStep old key.now result new) }
        ensures cause { HasCountedFault SiteFault.Failed self.old.faults self.new.faults result }
        ensures listed { listed self.new ≡ listed self.old }
        ensures asked { asked self.new ≡ min (asked self.old + 1) (2 ^ 64 - 1) }
        ensures same { memory self.new ≡ memory self.old }
        ensures fated { Fated (fate_of (listed self.old) (asked self.new)) (memory self.old) (ReadNext (memory self.old) key.now) result (memory self.new) }
    {
        match self.turn() {
            None => self.contents.read(key),
            Some(false) => Err(self.fail()),
            Some(true) => match self.contents.read(key) {
                Ok(_) => Err(self.fail()),
                Err(SiteFault::Failed) => Err(self.fail()),
                Err(SiteFault::NoMemory) => Err(SiteFault::NoMemory),
            },
        }
    }

    fn write_row_if(
        &mut self,
        _alloc: Global,
        key: &Key,
        expect: Option<Etag>,
        row: &Row,
    ) -> Result<RowWrite, SiteFault>
        ensures step { Tells (Some (told_of self.old.contents)) (Some (told_of self.new.contents)) (λ old new. WriteRowStep old key.now expect row.now result new) }
        ensures cause { HasCountedFault SiteFault.Failed self.old.faults self.new.faults result }
        ensures listed { listed self.new ≡ listed self.old }
        ensures asked { asked self.new ≡ min (asked self.old + 1) (2 ^ 64 - 1) }
        ensures fated { Fated (fate_of (listed self.old) (asked self.new)) (memory self.old) (WriteNext (memory self.old) key.now expect row.now) result (memory self.new) }
    {
        match self.turn() {
            None => match self.contents.write(key, expect, row) {
                Ok(answer) => Ok(answer),
                Err(fault) => Err(self.told_fault(fault)),
            },
            Some(false) => Err(self.fail()),
            Some(true) => match self.contents.write(key, expect, row) {
                Ok(_) => Err(self.fail()),
                Err(SiteFault::Failed) => Err(self.fail()),
                Err(SiteFault::NoMemory) => Err(SiteFault::NoMemory),
            },
        }
    }

    fn put_blob(&mut self, alloc: Global, name: &BlobName, bytes: &[u8]) -> Result<(), SiteFault>
        ensures step { Tells (Some (told_of self.old.contents)) (Some (told_of self.new.contents)) (λ old new. PutBlobStep old name.now bytes.now result new) }
        ensures cause { HasCountedFault SiteFault.Failed self.old.faults self.new.faults result }
        ensures listed { listed self.new ≡ listed self.old }
        ensures asked { asked self.new ≡ min (asked self.old + 1) (2 ^ 64 - 1) }
        ensures fated { Fated (fate_of (listed self.old) (asked self.new)) (memory self.old) (PutBlobNext (memory self.old) name.now bytes.now) result (memory self.new) }
    {
        match self.turn() {
            None => self.contents.put_blob(alloc, name, bytes),
            Some(false) => Err(self.fail()),
            Some(true) => match self.contents.put_blob(alloc, name, bytes) {
                Err(SiteFault::NoMemory) => Err(SiteFault::NoMemory),
                _ => Err(self.fail()),
            },
        }
    }

    fn get_blob(&mut self, alloc: Global, name: &BlobName) -> Result<Option<Vec<u8>>, SiteFault>
        ensures step { Tells (Some (told_of self.old.contents)) (Some (told_of self.new.contents)) (λ old new. GetBlobStep old name.now result new) }
        ensures cause { HasCountedFault SiteFault.Failed self.old.faults self.new.faults result }
        ensures listed { listed self.new ≡ listed self.old }
        ensures asked { asked self.new ≡ min (asked self.old + 1) (2 ^ 64 - 1) }
        ensures same { memory self.new ≡ memory self.old }
        ensures fated { Fated (fate_of (listed self.old) (asked self.new)) (memory self.old) (GetBlobNext (memory self.old) name.now) result (memory self.new) }
    {
        match self.turn() {
            None => self.contents.get_blob(alloc, name),
            Some(false) => Err(self.fail()),
            Some(true) => match self.contents.get_blob(alloc, name) {
                Err(SiteFault::NoMemory) => Err(SiteFault::NoMemory),
                _ => Err(self.fail()),
            },
        }
    }

    fn drop_blob(&mut self, _alloc: Global, name: &BlobName) -> Result<bool, SiteFault>
        ensures step { Tells (Some (told_of self.old.contents)) (Some (told_of self.new.contents)) (λ old new. DropBlobStep old name.now result new) }
        ensures cause { HasCountedFault SiteFault.Failed self.old.faults self.new.faults result }
        ensures listed { listed self.new ≡ listed self.old }
        ensures asked { asked self.new ≡ min (asked self.old + 1) (2 ^ 64 - 1) }
        ensures fated { Fated (fate_of (listed self.old) (asked self.new)) (memory self.old) (DropBlobNext (memory self.old) name.now) result (memory self.new) }
    {
        match self.turn() {
            None => self.contents.drop_blob(name),
            Some(false) => Err(self.fail()),
            Some(true) => match self.contents.drop_blob(name) {
                Err(SiteFault::NoMemory) => Err(SiteFault::NoMemory),
                _ => Err(self.fail()),
            },
        }
    }
}
