//! Worlds over boxes with sites of several kinds: what is played in them, and how they give the boxes back.
ghost use Rattle.std.specs.Prelude.{ℕ, Option, None};
ghost use Rattle.gz_site.specs.Told.{Told};

use crate::opened::opened_over;
use crate::played::{lines, log_after};
use gz_core::{BlobName, Config, Etag, Key, PutName, Row, Session};
use gz_rowfmt::encode_row;
use gz_site::{BoxedSite, CountedSite, Failing, MemSite, RowRead, RowWrite, Site, SiteFault};
use std::alloc::Global;

const PUT_GET: &str = "session\nput 1 a x:0102\nsettle 1\nget 1 a\nsettle 1\n";

/// The log of `PUT_GET` over sites that tell what they hold.
const PUT_GET_LOG: &str =
    "1.1 put a 0102 2 20 ok 1\n1.2 get a - 21 31 bytes 1 1.1 0102\nend 2 31 0\n";

/// The log of `PUT_GET` over sites that keep nothing: no such history is legal.
const LOST_LOG: &str = "1.1 put a 0102 2 20 ok 1\n1.2 get a - 21 25 absent\nend 2 25 0\n";

/// The log of `PUT_GET` over these sites, and the sites that the world gives back.
fn put_get_over<S: Site>(alloc: Global, sites: Vec<S>) -> Option<(Vec<u8>, Vec<S>)> {
    let lines = lines(alloc, PUT_GET)?;
    let mut world = opened_over(alloc, Config::DEFAULT, sites)?;
    let log = log_after(&mut world, lines.as_slice())?;
    Some((log, world.into_sites()))
}

/// Whether this is the log of `PUT_GET` over these sites.
fn has_log<S: Site>(alloc: Global, sites: Vec<S>, expected: &str) -> Option<bool> {
    let (log, _sites) = put_get_over(alloc, sites)?;
    Some(log.as_slice() == expected.as_bytes())
}

/// A site in memory that holds nothing.
fn site(alloc: Global) -> MemSite {
    MemSite::new(alloc, Vec::new(alloc))
}

/// Whether a schedule has its log over boxes of two kinds.
fn is_played_over_two_kinds(alloc: Global) -> Option<bool> {
    let mut sites = Vec::new(alloc);
    sites
        .push(BoxedSite(Box::new(alloc, site(alloc)).ok()?))
        .ok()?;
    let counted = CountedSite::new(site(alloc));
    sites.push(BoxedSite(Box::new(alloc, counted).ok()?)).ok()?;
    sites
        .push(BoxedSite(Box::new(alloc, site(alloc)).ok()?))
        .ok()?;
    has_log(alloc, sites, PUT_GET_LOG)
}

/// A site that doesn't tell: it says that all is stored, and keeps nothing.
#[derive(Drop)]
struct Forgetful {}

impl Site for Forgetful {
    ghost told = { λ s. None };

    ghost faults = { λ s. 0 };

    fn read_row(&mut self, _alloc: Global, _key: &Key) -> Result<RowRead, SiteFault> {
        Ok(RowRead::NoRow)
    }

    fn write_row_if(
        &mut self,
        _alloc: Global,
        _key: &Key,
        _expect: Option<Etag>,
        _row: &Row,
    ) -> Result<RowWrite, SiteFault> {
        Ok(RowWrite::Written { etag: Etag(1) })
    }

    fn put_blob(
        &mut self,
        _alloc: Global,
        _name: &BlobName,
        _bytes: &[u8],
    ) -> Result<(), SiteFault> {
        Ok(())
    }

    fn get_blob(&mut self, _alloc: Global, _name: &BlobName) -> Result<Option<Vec<u8>>, SiteFault> {
        Ok(None)
    }

    fn drop_blob(&mut self, _alloc: Global, _name: &BlobName) -> Result<bool, SiteFault> {
        Ok(false)
    }
}

/// Whether a schedule has its log over boxes of sites that keep nothing.
fn is_played_over_forgetful(alloc: Global) -> Option<bool> {
    let mut sites = Vec::new(alloc);
    sites
        .push(BoxedSite(Box::new(alloc, Forgetful {}).ok()?))
        .ok()?;
    sites
        .push(BoxedSite(Box::new(alloc, Forgetful {}).ok()?))
        .ok()?;
    sites
        .push(BoxedSite(Box::new(alloc, Forgetful {}).ok()?))
        .ok()?;
    has_log(alloc, sites, LOST_LOG)
}

#[test]
fn schedules_are_played_over_boxes(rt: HostRuntime) {
    assert!(rt; is_played_over_two_kinds(rt.alloc()) == Some(true));
    assert!(rt; is_played_over_forgetful(rt.alloc()) == Some(true));
}

fn key(alloc: Global) -> Option<Key> {
    Key::new(Vec::from_slice(alloc, b"a").ok()?)
}

/// The name of a blob that no call of a schedule stores.
fn mark(alloc: Global) -> Option<BlobName> {
    Some(BlobName {
        key: key(alloc)?,
        name: PutName {
            session: Session(99),
            seq: 1,
        },
        index: 0,
    })
}

/// Marks a site with a blob of these bytes.
fn put_mark(alloc: Global, mut site: MemSite, bytes: &[u8]) -> Option<MemSite> {
    let name = mark(alloc)?;
    site.put_blob(alloc, &name, bytes).ok()?;
    Some(site)
}

/// A site in memory that counts its calls, with a mark.
fn marked(alloc: Global, bytes: &[u8]) -> Option<CountedSite> {
    Some(CountedSite::new(put_mark(alloc, site(alloc), bytes)?))
}

/// A site in memory with a mark, that fails its second call, which is the first one after that.
fn spare(alloc: Global, bytes: &[u8]) -> Option<MemSite> {
    let failing = vec![in alloc;
        Failing {
            call: 2,
            effect: false
        },
    ]
    .ok()?;
    put_mark(alloc, MemSite::new(alloc, failing), bytes)
}

/// How long the record of the row is that a site has of the key, if it has one, and how long its mark is.
type Found = (Result<Option<usize>, SiteFault>, Option<usize>);

/// How long the record of a row is.
fn record_len(alloc: Global, row: &Row) -> Result<Option<usize>, SiteFault> {
    if row.columns().len() > 9 {
        return Ok(None);
    }
    match encode_row(alloc, row) {
        Ok(record) => Ok(Some(record.len())),
        Err(_) => Err(SiteFault::NoMemory),
    }
}

fn row_at<S: Site>(alloc: Global, site: &mut S, key: &Key) -> Result<Option<usize>, SiteFault> {
    match site.read_row(alloc, key)? {
        RowRead::NoRow => Ok(None),
        RowRead::Row { row, .. } => record_len(alloc, &row),
    }
}

fn mark_at<S: Site>(alloc: Global, site: &mut S) -> Option<usize> {
    let name = mark(alloc)?;
    match site.get_blob(alloc, &name) {
        Ok(Some(bytes)) => Some(bytes.len()),
        _ => None,
    }
}

/// What is found at each site of a list.
fn found_in<S: Site>(alloc: Global, sites: Vec<S>) -> Option<Vec<Found>> {
    let key = key(alloc)?;
    let mut all = Vec::new(alloc);
    for mut site in sites {
        let row = row_at(alloc, &mut site, &key);
        all.push((row, mark_at(alloc, &mut site))).ok()?;
    }
    Some(all)
}

/// What is found at the boxes that a world gives back after `PUT_GET`.
fn found_after<S: Site>(alloc: Global, sites: Vec<S>) -> Option<Vec<Found>> {
    let (_log, sites) = put_get_over(alloc, sites)?;
    found_in(alloc, sites)
}

/// Three sites have the row of the put. The others were not called: so their first call since fails.
const FOUND: [Found; 5] = [
    (Ok(Some(155)), Some(1)),
    (Ok(Some(155)), Some(2)),
    (Ok(Some(155)), Some(3)),
    (Err(SiteFault::Failed), Some(4)),
    (Err(SiteFault::Failed), Some(5)),
];

/// What is found at boxes of two kinds, two more than are used, that a world gives back.
fn found_in_boxes(alloc: Global) -> Option<Vec<Found>> {
    let mut sites = Vec::new(alloc);
    sites
        .push(BoxedSite(Box::new(alloc, marked(alloc, &[0])?).ok()?))
        .ok()?;
    sites
        .push(BoxedSite(Box::new(alloc, marked(alloc, &[0, 0])?).ok()?))
        .ok()?;
    sites
        .push(BoxedSite(Box::new(alloc, marked(alloc, &[0, 0, 0])?).ok()?))
        .ok()?;
    sites
        .push(BoxedSite(Box::new(alloc, spare(alloc, &[0, 0, 0, 0])?).ok()?))
        .ok()?;
    sites
        .push(BoxedSite(Box::new(alloc, spare(alloc, &[0, 0, 0, 0, 0])?).ok()?))
        .ok()?;
    found_after(alloc, sites)
}

#[test]
fn boxes_come_back_in_their_order(rt: HostRuntime) {
    match found_in_boxes(rt.alloc()) {
        Some(found) => assert!(rt; found.as_slice() == FOUND.as_slice()),
        None => assert!(rt; false),
    }
}
