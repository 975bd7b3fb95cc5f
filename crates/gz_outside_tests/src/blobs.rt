//! Blobs at sites in memory.
use crate::records::key_of;
use gz_core::{BlobName, PutName, Session};
use gz_site::{Failing, MemSite, Site, SiteFault, drop_blob_at, get_blob_at, put_blob_at};
use std::alloc::Global;

/// The fragment of this index that the first put of session 1 stored under the key `a`.
fn blob(alloc: Global, index: u8) -> Option<BlobName> {
    let key = key_of(alloc, b'a')?;
    let name = PutName {
        session: Session(1),
        seq: 1,
    };
    Some(BlobName { key, name, index })
}

/// The first byte of what a get found, none where it found nothing; 0 is told of no bytes.
fn shown(found: Result<Option<Vec<u8>>, SiteFault>) -> Result<Option<u8>, SiteFault> {
    match found? {
        None => Ok(None),
        Some(bytes) => Ok(Some(bytes.first().copied().unwrap_or(0))),
    }
}

fn get(alloc: Global, site: &mut MemSite, name: &BlobName) -> Result<Option<u8>, SiteFault> {
    shown(site.get_blob(alloc, name))
}

/// What two puts under one name answer, and what gets of that name and of another one show then.
fn put_twice(
    alloc: Global,
    site: &mut MemSite,
    name: &BlobName,
    other: &BlobName,
) -> (
    [Result<(), SiteFault>; 2],
    [Result<Option<u8>, SiteFault>; 2],
) {
    let first = site.put_blob(alloc, name, &[5, 6]);
    let second = site.put_blob(alloc, name, &[7]);
    let found = get(alloc, site, name);
    ([first, second], [found, get(alloc, site, other)])
}

/// What two drops of a blob answer, and what a get shows after them.
fn drop_twice(
    alloc: Global,
    site: &mut MemSite,
    name: &BlobName,
) -> ([Result<bool, SiteFault>; 2], Result<Option<u8>, SiteFault>) {
    let first = site.drop_blob(alloc, name);
    let second = site.drop_blob(alloc, name);
    ([first, second], get(alloc, site, name))
}

/// Whether a site keeps the bytes that were put last, and none after they were dropped.
fn keeps_blobs(alloc: Global) -> Option<bool> {
    let name = blob(alloc, 1)?;
    let other = blob(alloc, 2)?;
    let mut site = MemSite::new(alloc, Vec::new(alloc));
    let put = put_twice(alloc, &mut site, &name, &other);
    let dropped = drop_twice(alloc, &mut site, &name);
    Some(
        put == ([Ok(()), Ok(())], [Ok(Some(7)), Ok(None)])
            && dropped == ([Ok(true), Ok(false)], Ok(None)),
    )
}

#[test]
fn blobs_are_kept(rt: HostRuntime) {
    assert!(rt; keeps_blobs(rt.alloc()) == Some(true));
}

/// A site that fails its second call.
fn failing(alloc: Global, effect: bool) -> Option<MemSite> {
    let failing = vec![in alloc; Failing { call: 2, effect }].ok()?;
    Some(MemSite::new(alloc, failing))
}

/// What comes of a put that fails after a row was read, and what a get shows then.
fn failed_put(
    alloc: Global,
    effect: bool,
) -> Option<(Result<(), SiteFault>, Result<Option<u8>, SiteFault>)> {
    let name = blob(alloc, 1)?;
    let mut site = failing(alloc, effect)?;
    let _ = site.read_row(alloc, &name.key);
    let put = site.put_blob(alloc, &name, &[7]);
    Some((put, get(alloc, &mut site, &name)))
}

/// What comes of a drop that fails after a put, and what a get shows then.
fn failed_drop(
    alloc: Global,
    effect: bool,
) -> Option<(Result<bool, SiteFault>, Result<Option<u8>, SiteFault>)> {
    let name = blob(alloc, 1)?;
    let mut site = failing(alloc, effect)?;
    let _ = site.put_blob(alloc, &name, &[7]);
    let dropped = site.drop_blob(alloc, &name);
    Some((dropped, get(alloc, &mut site, &name)))
}

#[test]
fn calls_for_rows_and_blobs_count_together(rt: HostRuntime) {
    assert!(rt; failed_put(rt.alloc(), true) == Some((Err(SiteFault::Failed), Ok(Some(7)))));
    assert!(rt; failed_put(rt.alloc(), false) == Some((Err(SiteFault::Failed), Ok(None))));
    assert!(rt; failed_drop(rt.alloc(), true) == Some((Err(SiteFault::Failed), Ok(None))));
    assert!(rt; failed_drop(rt.alloc(), false) == Some((Err(SiteFault::Failed), Ok(Some(7)))));
}

/// What a put, two gets and a drop answer at two sites, the put and the drop at the second.
fn at_second(alloc: Global, sites: &mut Vec<MemSite>, name: &BlobName) -> bool {
    if sites.len() < 2 {
        return false;
    }
    let put = put_blob_at(alloc, sites, 1, name, &[7]);
    let first = shown(get_blob_at(alloc, sites, 0, name));
    let second = shown(get_blob_at(alloc, sites, 1, name));
    let dropped = drop_blob_at(alloc, sites, 1, name);
    put == Ok(()) && first == Ok(None) && second == Ok(Some(7)) && dropped == Ok(true)
}

fn stays_at_its_place(alloc: Global) -> Option<bool> {
    let name = blob(alloc, 1)?;
    let mut sites = Vec::new(alloc);
    for _ in 0..2 {
        sites.push(MemSite::new(alloc, Vec::new(alloc))).ok()?;
    }
    Some(at_second(alloc, &mut sites, &name))
}

#[test]
fn blobs_by_their_places(rt: HostRuntime) {
    assert!(rt; stays_at_its_place(rt.alloc()) == Some(true));
}
