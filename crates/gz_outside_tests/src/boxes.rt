//! Sites in boxes of several kinds, and a site in memory that counts its calls.
ghost use Rattle.std.specs.Prelude.{ℕ, Option, None};
ghost use Rattle.gz_site.specs.Told.{Told};

use crate::records::key_of;
use crate::sites::{FIRST, Shown, WRITTEN_FIRST, Written, shown};
use gz_core::{BlobName, Etag, Key, PutName, Row, Session};
use gz_site::{BoxedSite, CountedSite, Failing, MemSite, RowRead, RowWrite, Site, SiteFault};
use std::alloc::Global;

/// A site that doesn't tell: rows are never kept, and each blob is said to have one byte.
#[derive(Drop)]
struct Forgetful {
    faults: u64,
}

impl Site for Forgetful {
    ghost told = { λ s. None };

    ghost faults = { λ s. s.faults };

    fn read_row(&mut self, _alloc: Global, _key: &Key) -> Result<RowRead, SiteFault> {
        Ok(RowRead::NoRow)
    }

    fn write_row_if(
        &mut self,
        _alloc: Global,
        _key: &Key,
        _expect: Option<Etag>,
        _row: &Row,
    ) -> Result<RowWrite, SiteFault> {
        Ok(RowWrite::Written { etag: Etag(9) })
    }

    fn put_blob(
        &mut self,
        _alloc: Global,
        _name: &BlobName,
        _bytes: &[u8],
    ) -> Result<(), SiteFault> {
        self.faults = self.faults.saturating_add(1);
        Err(SiteFault::Failed)
    }

    fn get_blob(&mut self, alloc: Global, _name: &BlobName) -> Result<Option<Vec<u8>>, SiteFault> {
        match Vec::from_slice(alloc, &[7]) {
            Ok(bytes) => Ok(Some(bytes)),
            Err(_) => Err(SiteFault::NoMemory),
        }
    }

    fn drop_blob(&mut self, _alloc: Global, _name: &BlobName) -> Result<bool, SiteFault> {
        Ok(true)
    }
}

/// What a site answers to a write of a row and a read of it, and to a put, a get and a drop of a blob; of the bytes that it
/// gives, how many there are.
type Answers = (
    (Written, Result<Shown, SiteFault>),
    (
        Result<(), SiteFault>,
        Result<Option<usize>, SiteFault>,
        Result<bool, SiteFault>,
    ),
);

fn shown_at<S: Site>(alloc: Global, site: &mut S, key: &Key) -> Result<Shown, SiteFault> {
    Ok(shown(&site.read_row(alloc, key)?))
}

fn blob_len<S: Site>(
    alloc: Global,
    site: &mut S,
    name: &BlobName,
) -> Result<Option<usize>, SiteFault> {
    match site.get_blob(alloc, name)? {
        Some(bytes) => Ok(Some(bytes.len())),
        None => Ok(None),
    }
}

fn answers<S: Site>(alloc: Global, site: &mut S) -> Option<Answers> {
    let key = key_of(alloc, b'a')?;
    let name = BlobName {
        key: key_of(alloc, b'a')?,
        name: PutName {
            session: Session(1),
            seq: 1,
        },
        index: 0,
    };
    let written = site.write_row_if(alloc, &key, None, &Row::empty(alloc));
    let read = shown_at(alloc, site, &key);
    let put = site.put_blob(alloc, &name, &[5, 6]);
    let got = blob_len(alloc, site, &name);
    let dropped = site.drop_blob(alloc, &name);
    Some(((written, read), (put, got, dropped)))
}

/// What a site in memory answers.
const IN_MEMORY: Answers = ((WRITTEN_FIRST, Ok(FIRST)), (Ok(()), Ok(Some(2)), Ok(true)));

/// What one answers that fails its second call.
const FAILING_ONCE: Answers = (
    (WRITTEN_FIRST, Err(SiteFault::Failed)),
    (Ok(()), Ok(Some(2)), Ok(true)),
);

/// What a site answers that keeps nothing.
const KEEPING_NOTHING: Answers = (
    (Ok(RowWrite::Written { etag: Etag(9) }), Ok(None)),
    (Err(SiteFault::Failed), Ok(Some(1)), Ok(true)),
);

/// A site in memory that fails its second call.
fn failing_once(alloc: Global) -> Option<MemSite> {
    let failing = vec![in alloc;
        Failing {
            call: 2,
            effect: false
        },
    ]
    .ok()?;
    Some(MemSite::new(alloc, failing))
}

/// What a site answers that counts its calls, and how many it counts then, before and after.
fn counted(alloc: Global) -> Option<(u64, Answers, u64)> {
    let mut site = CountedSite::new(failing_once(alloc)?);
    let before = site.calls;
    let answers = answers(alloc, &mut site)?;
    Some((before, answers, site.calls))
}

/// What each box of a list answers, in their order.
fn each_answers<S: Site>(alloc: Global, sites: &mut Vec<S>) -> Option<Vec<Answers>> {
    let mut all = Vec::new(alloc);
    for site in sites {
        all.push(answers(alloc, site)?).ok()?;
    }
    Some(all)
}

/// Whether boxes of three kinds answer as the sites in them do.
fn answers_through_boxes(alloc: Global) -> Option<bool> {
    let mut sites = Vec::new(alloc);
    let first = MemSite::new(alloc, Vec::new(alloc));
    sites.push(BoxedSite(Box::new(alloc, first).ok()?)).ok()?;
    let second = CountedSite::new(failing_once(alloc)?);
    sites.push(BoxedSite(Box::new(alloc, second).ok()?)).ok()?;
    let third = Forgetful { faults: 0 };
    sites.push(BoxedSite(Box::new(alloc, third).ok()?)).ok()?;
    let all = each_answers(alloc, &mut sites)?;
    Some(all.as_slice() == [IN_MEMORY, FAILING_ONCE, KEEPING_NOTHING].as_slice())
}

#[test]
fn calls_are_counted_and_passed_on(rt: HostRuntime) {
    assert!(rt; counted(rt.alloc()) == Some((0, FAILING_ONCE, 5)));
}

#[test]
fn boxes_answer_as_the_sites_in_them(rt: HostRuntime) {
    assert!(rt; answers_through_boxes(rt.alloc()) == Some(true));
}
