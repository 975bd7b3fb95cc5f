//! Sites, shelves and sinks in memory.
use crate::records::key_of;
use gz_core::{Etag, Key, Row};
use gz_site::{
    Failing, MemShelf, MemSink, MemSite, RowRead, RowWrite, Shelf, ShelfError, Sink, SinkError,
    Site, SiteFault, read_at, write_all, write_at,
};
use std::alloc::Global;
use std::collections::BTreeMap;

/// What a read shows: the tag of the row, and whether the row is the empty one; none where there is no row.
pub type Shown = Option<(Etag, bool)>;

pub const FIRST: Shown = Some((Etag(1), true));

const SECOND: Shown = Some((Etag(2), true));

/// What a read shows.
pub fn shown(read: &RowRead) -> Shown {
    match read {
        RowRead::NoRow => None,
        RowRead::Row { etag, row } => {
            let is_empty = row.floor().number() == 0 && row.columns().is_empty();
            Some((*etag, is_empty))
        },
    }
}

fn read(alloc: Global, site: &mut MemSite, key: &Key) -> Result<Shown, SiteFault> {
    Ok(shown(&site.read_row(alloc, key)?))
}

/// What came of writing the empty row.
pub type Written = Result<RowWrite, SiteFault>;

pub const WRITTEN_FIRST: Written = Ok(RowWrite::Written { etag: Etag(1) });

const WRITTEN_SECOND: Written = Ok(RowWrite::Written { etag: Etag(2) });

const FAILED: Written = Err(SiteFault::Failed);

fn write(alloc: Global, site: &mut MemSite, key: &Key, expect: Option<Etag>) -> Written {
    let row = Row::empty(alloc);
    site.write_row_if(alloc, key, expect, &row)
}

/// Two writes that expect no row and one that expects tag 1.
fn three_writes(alloc: Global, site: &mut MemSite, key: &Key) -> [Written; 3] {
    [
        write(alloc, site, key, None),
        write(alloc, site, key, None),
        write(alloc, site, key, Some(Etag(1))),
    ]
}

/// What comes of three writes at an empty site, and what a read shows before them and after.
fn written_by_tags(alloc: Global) -> Option<([Result<Shown, SiteFault>; 2], [Written; 3])> {
    let key = key_of(alloc, b'a')?;
    let mut site = MemSite::new(alloc, Vec::new(alloc));
    let before = read(alloc, &mut site, &key);
    let writes = three_writes(alloc, &mut site, &key);
    let after = read(alloc, &mut site, &key);
    Some(([before, after], writes))
}

/// What comes of the first write of a site that is to fail it, and what the read after it shows.
fn failed_first(alloc: Global, effect: bool) -> Option<(Written, Result<Shown, SiteFault>)> {
    let key = key_of(alloc, b'a')?;
    let failing = vec![in alloc; Failing { call: 1, effect }].ok()?;
    let mut site = MemSite::new(alloc, failing);
    let failed = write(alloc, &mut site, &key, None);
    Some((failed, read(alloc, &mut site, &key)))
}

#[test]
fn rows_are_written_by_their_tags(rt: HostRuntime) {
    let writes = [WRITTEN_FIRST, Ok(RowWrite::Changed), WRITTEN_SECOND];
    assert!(rt; written_by_tags(rt.alloc()) == Some(([Ok(None), Ok(SECOND)], writes)));
    assert!(rt; failed_first(rt.alloc(), false) == Some((FAILED, Ok(None))));
    assert!(rt; failed_first(rt.alloc(), true) == Some((FAILED, Ok(FIRST))));
}

fn two_sites(alloc: Global) -> Option<Vec<MemSite>> {
    let mut sites = Vec::new(alloc);
    for _ in 0..2 {
        sites.push(MemSite::new(alloc, Vec::new(alloc))).ok()?;
    }
    Some(sites)
}

/// What a read of one of two sites shows.
fn read_one(
    alloc: Global,
    sites: &mut Vec<MemSite>,
    at: usize,
    key: &Key,
) -> Result<Shown, SiteFault> {
    if at >= sites.len() {
        return Err(SiteFault::Failed);
    }
    Ok(shown(&read_at(alloc, sites, at, key)?))
}

/// What comes of a write at the second of two sites.
fn write_second(alloc: Global, sites: &mut Vec<MemSite>, key: &Key) -> Written {
    if sites.len() < 2 {
        return Err(SiteFault::Failed);
    }
    let row = Row::empty(alloc);
    write_at(alloc, sites, 1, key, None, &row)
}

/// What comes of a write at the second of two sites, and what reads of both show after it.
fn written_at_second(alloc: Global) -> Option<(Written, [Result<Shown, SiteFault>; 2])> {
    let key = key_of(alloc, b'a')?;
    let mut sites = two_sites(alloc)?;
    let written = write_second(alloc, &mut sites, &key);
    let first = read_one(alloc, &mut sites, 0, &key);
    let second = read_one(alloc, &mut sites, 1, &key);
    Some((written, [first, second]))
}

#[test]
fn sites_by_their_places(rt: HostRuntime) {
    assert!(rt; written_at_second(rt.alloc()) == Some((WRITTEN_FIRST, [Ok(None), Ok(FIRST)])));
}

/// A shelf with one file, that fails its last call of the test.
fn shelf(alloc: Global) -> Option<MemShelf> {
    let mut files = BTreeMap::new(alloc);
    let name = String::from_str(alloc, "file").ok()?;
    let bytes = Vec::from_slice(alloc, &[1, 2, 3]).ok()?;
    files.insert(name, bytes).ok()?;
    Some(MemShelf::new(files, Vec::from_slice(alloc, &[4]).ok()?))
}

/// Files with the most bytes that they may have, and what is read of them.
const READS: [(&'static str, usize, Result<&'static [u8], ShelfError>); 4] = [
    ("file", 3, Ok(&[1, 2, 3])),
    ("none", 3, Err(ShelfError::NoSuch)),
    ("file", 2, Err(ShelfError::TooLarge)),
    ("file", 3, Err(ShelfError::Failed)),
];

/// Whether a file is read as it is to be.
fn is_read(
    alloc: Global,
    shelf: &mut MemShelf,
    name: &str,
    limit: usize,
    wanted: Result<&[u8], ShelfError>,
) -> bool {
    match shelf.read(alloc, name, limit) {
        Ok(bytes) => wanted == Ok(bytes.as_slice()),
        Err(error) => wanted == Err(error),
    }
}

fn are_read(alloc: Global, shelf: &mut MemShelf) -> bool {
    for (name, limit, wanted) in READS {
        if !is_read(alloc, shelf, name, limit, wanted) {
            return false;
        }
    }
    true
}

fn gives_its_files(alloc: Global) -> Option<bool> {
    let mut shelf = shelf(alloc)?;
    Some(are_read(alloc, &mut shelf))
}

/// What a sink answers to two writes, and to a flush between them and a write of all bytes after them.
fn told(sink: &mut MemSink) -> ([Result<usize, SinkError>; 2], [Result<(), SinkError>; 2]) {
    let first = sink.write(&[1, 2]);
    let flushed = sink.flush();
    let failed = sink.write(&[9]);
    let rest = write_all(sink, &[3, 4]);
    ([first, failed], [flushed, rest])
}

/// Whether a sink that fails its third call says so, and keeps what it took.
fn keeps_what_is_written(alloc: Global) -> Option<bool> {
    let mut sink = MemSink::new(alloc, Vec::from_slice(alloc, &[3]).ok()?);
    let wanted = ([Ok(2), Err(SinkError::Failed)], [Ok(()), Ok(())]);
    Some(told(&mut sink) == wanted && sink.written() == [1, 2, 3, 4].as_slice())
}

#[test]
fn shelves_and_sinks(rt: HostRuntime) {
    assert!(rt; gives_its_files(rt.alloc()) == Some(true));
    assert!(rt; keeps_what_is_written(rt.alloc()) == Some(true));
}
