//! Three sites, of which each stores a row and the records of fragments, and the requests that were sent to them.
ghost use Rattle.std.specs.Prelude.{◌+◌, ◌<◌, ◌≤◌, ◌≡◌, length, IfOk};

use crate::answers::{Answered, answered_of};
use gz_accept::{fast_vote, promise, trim};
use gz_core::{
    Ballot, BlobName, Config, Etag, Items, Key, Op, Out, PutName, PutValue, Reply, Row, Session,
    Turn, Value, Version,
};
use gz_data::{Made, make};
use std::alloc::{AllocError, Global};

/// Why a scene can't go on.
#[derive(Clone, Copy)]
pub struct Stuck(pub &'static str);

impl From<AllocError> for Stuck {
    fn from(_error: AllocError) -> Stuck {
        Stuck("out of memory")
    }
}

/// What happens next: a request is delivered to its site, a reply of one is handed to the client, both, the client
/// learns that one failed, one is given up, or another session votes, promises a ballot, or collects at a site.
#[derive(Clone, Copy)]
pub enum Move {
    Deliver(u32),
    Reply(u32, usize),
    Take(u32),
    Fail(u32),
    GiveUp(u32),
    Vote(usize),
    Promise(usize),
    Collect(usize),
}

/// What the client learns of a request: a reply, or that none comes.
#[derive(Drop)]
pub struct Told {
    pub number: u32,
    pub reply: Option<Reply>,
}

/// A row that a site stores, and its tag.
#[derive(Drop)]
struct Stored {
    etag: Etag,
    row: Row,
}

/// A request that was sent, and its replies.
#[derive(Drop)]
struct Sent {
    out: Out,
    replies: Vec<Reply>,
}

/// The record of a fragment that a site stores.
#[derive(Drop)]
struct Blob {
    name: BlobName,
    bytes: Items<u8>,
}

/// What a site stores.
#[derive(Drop)]
struct Place {
    row: Option<Stored>,
    blobs: Vec<Blob>,
}

/// What the sites store, and what was sent to them. The fragments of another session's put lie at the sites from the start.
#[derive(Drop)]
pub struct Network {
    another: PutValue,
    sites: Vec<Place>,
    sent: Vec<Sent>,
}

impl Network {
    /// Three sites without a row.
    pub fn new(alloc: Global) -> Result<Network, Stuck> {
        let Some(key) = Key::new(Vec::from_slice(alloc, b"a")?) else {
            return Err(Stuck("no key"));
        };
        let name = name_of_another();
        let Made { put, records } = make(alloc, &Config::DEFAULT, name, &key, &[7])?;
        Ok(Network {
            another: put,
            sites: places_with(alloc, &key, records)?,
            sent: Vec::new(alloc),
        })
    }

    /// How many requests were sent.
    pub fn count(&self) -> usize {
        self.sent.len()
    }

    /// Sends the requests of an event, and returns how its call is answered at it.
    pub fn send(&mut self, alloc: Global, turn: Turn) -> Result<Answered, AllocError> {
        let Turn { send, answer } = turn;
        let answered = answered_of(&answer);
        for out in send.into_vec() {
            self.sent.push(Sent {
                out,
                replies: Vec::new(alloc),
            })?;
        }
        Ok(answered)
    }

    /// Makes a move, and says what the client learns at it.
    pub fn make(&mut self, alloc: Global, next: Move) -> Result<Option<Told>, Stuck> {
        match next {
            Move::Deliver(number) => self.deliver(number)?,
            Move::Reply(number, which) => return self.replied(number, which),
            Move::Take(number) => {
                self.deliver(number)?;
                return self.replied(number, 1);
            },
            Move::Fail(number) => {
                let reply = Some(Reply::Failed);
                return Ok(Some(Told { number, reply }));
            },
            Move::GiveUp(number) => {
                let reply = None;
                return Ok(Some(Told { number, reply }));
            },
            Move::Vote(site) => self.vote(alloc, site)?,
            Move::Promise(site) => self.promise(site)?,
            Move::Collect(site) => self.collect(alloc, site)?,
        }
        Ok(None)
    }

    /// The place of a request.
    fn place(&self, number: u32) -> Result<usize, Stuck>
        ensures { IfOk result (λ at. at < length self.now.sent.items) }
    {
        let at = (number as usize).wrapping_sub(1);
        if at < self.sent.len() {
            Ok(at)
        } else {
            Err(Stuck("no request"))
        }
    }

    /// Delivers a request to its site.
    fn deliver(&mut self, number: u32) -> Result<(), Stuck> {
        let at = self.place(number)?;
        let site = self.sent[at].out.site.index();
        if site >= self.sites.len() {
            return Err(Stuck("no site"));
        }
        let reply = perform(&mut self.sites[site], &self.sent[at].out.op)?;
        if self.sent[at].replies.push(reply).is_err() {
            return Err(Stuck("out of memory"));
        }
        Ok(())
    }

    /// A reply of a request, counted from 1.
    fn replied(&self, number: u32, which: usize) -> Result<Option<Told>, Stuck> {
        let at = self.place(number)?;
        if which == 0 || which > self.sent[at].replies.len() {
            return Err(Stuck("no reply"));
        }
        let reply = self.sent[at].replies[which - 1].clone()?;
        Ok(Some(Told {
            number,
            reply: Some(reply),
        }))
    }

    /// Has another session's put vote at a site that has no row.
    fn vote(&mut self, alloc: Global, site: usize) -> Result<(), Stuck> {
        if site >= self.sites.len() {
            return Err(Stuck("no site"));
        }
        let row = voted_row(alloc, &self.another)?;
        let etag = Etag(1);
        self.sites[site].row = Some(Stored { etag, row });
        Ok(())
    }

    /// Has another session's put promise its ballot at a site that has a row.
    fn promise(&mut self, site: usize) -> Result<(), Stuck> {
        if site >= self.sites.len() {
            return Err(Stuck("no site"));
        }
        match &mut self.sites[site].row {
            None => Err(Stuck("no row")),
            Some(stored) => Ok(promise_in(stored)?),
        }
    }

    /// Has another session's collection, which keeps its delete at version 2 alone, reach a site.
    fn collect(&mut self, alloc: Global, site: usize) -> Result<(), Stuck> {
        if site >= self.sites.len() {
            return Err(Stuck("no site"));
        }
        let etag = tag_after(tag_of(&self.sites[site].row));
        let row = collected_row(alloc)?;
        self.sites[site].row = Some(Stored { etag, row });
        Ok(())
    }
}

/// The name of the delete of that session that comes after it.
fn name_of_deletion() -> PutName {
    PutName {
        session: Session(2),
        seq: 2,
    }
}

/// The name of the first put of another session, which votes for the byte 7.
fn name_of_another() -> PutName {
    PutName {
        session: Session(2),
        seq: 1,
    }
}

/// Sites without a row, which store the fragments of another session's put.
fn places_with(
    alloc: Global,
    key: &Key,
    records: Vec<Items<u8>>,
) -> Result<Vec<Place>, AllocError> {
    let mut sites = Vec::new(alloc);
    let mut index = 0u8;
    for bytes in records {
        sites.push(place_with(alloc, key, index, bytes)?)?;
        index = index.wrapping_add(1);
    }
    Ok(sites)
}

/// A site without a row, which stores a fragment of another session's put.
fn place_with(alloc: Global, key: &Key, index: u8, bytes: Items<u8>) -> Result<Place, AllocError> {
    let key = key.clone()?;
    let name = name_of_another();
    let mut blobs = Vec::new(alloc);
    blobs.push(Blob {
        name: BlobName { key, name, index },
        bytes,
    })?;
    Ok(Place { row: None, blobs })
}

/// A row in which another session's put has voted at version 1.
fn voted_row(alloc: Global, put: &PutValue) -> Result<Row, AllocError> {
    let value = Value::Put(put.clone()?);
    let mut row = Row::empty(alloc);
    fast_vote(&mut row, Version(1), &value)?;
    Ok(row)
}

/// A row whose version 1 was collected, and whose version 2 is a delete.
fn collected_row(alloc: Global) -> Result<Row, AllocError> {
    let value = Value::Tomb {
        name: name_of_deletion(),
    };
    let mut row = Row::empty(alloc);
    trim(&mut row, Version(1), &value)?;
    Ok(row)
}

/// Has another session promise its first ballot at version 1 of a row.
fn promise_in(stored: &mut Stored) -> Result<(), AllocError> {
    let ballot = Ballot {
        round: 1,
        session: 2,
    };
    promise(&mut stored.row, Version(1), ballot)?;
    stored.etag = tag_after(Some(stored.etag));
    Ok(())
}

/// What a site does.
fn perform(site: &mut Place, op: &Op) -> Result<Reply, AllocError> {
    match op {
        Op::ReadRow { .. } => read(&site.row),
        Op::WriteRow { expect, row, .. } => write(&mut site.row, *expect, row),
        Op::PutBlob { name, bytes } => put_blob(&mut site.blobs, name, bytes),
        Op::GetBlob { name } => get_blob(site.blobs.as_slice(), name),
        Op::DropBlob { .. } => Ok(Reply::Failed),
    }
}

fn put_blob(
    blobs: &mut Vec<Blob>,
    name: &BlobName,
    bytes: &Items<u8>,
) -> Result<Reply, AllocError> {
    let name = name.clone()?;
    let bytes = bytes.clone()?;
    blobs.push(Blob { name, bytes })?;
    Ok(Reply::Stored)
}

fn get_blob(blobs: &[Blob], name: &BlobName) -> Result<Reply, AllocError> {
    for blob in blobs {
        if blob.name == *name {
            let bytes = blob.bytes.clone()?;
            return Ok(Reply::Blob { bytes });
        }
    }
    Ok(Reply::NoBlob)
}

fn read(stored: &Option<Stored>) -> Result<Reply, AllocError> {
    match stored {
        None => Ok(Reply::NoRow),
        Some(stored) => {
            let row = stored.row.clone()?;
            Ok(Reply::Row {
                etag: stored.etag,
                row,
            })
        },
    }
}

fn write(
    stored: &mut Option<Stored>,
    expect: Option<Etag>,
    row: &Row,
) -> Result<Reply, AllocError> {
    let tag = tag_of(stored);
    if tag != expect {
        return Ok(Reply::Changed);
    }
    let etag = tag_after(tag);
    let row = row.clone()?;
    *stored = Some(Stored { etag, row });
    Ok(Reply::Written { etag })
}

fn tag_of(stored: &Option<Stored>) -> Option<Etag> {
    match stored {
        None => None,
        Some(stored) => Some(stored.etag),
    }
}

fn tag_after(tag: Option<Etag>) -> Etag {
    match tag {
        None => Etag(1),
        Some(etag) => Etag(etag.number().wrapping_add(1)),
    }
}
