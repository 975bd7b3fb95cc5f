//! A request reaches its site, and the reply is kept.
ghost use Rattle.std.specs.Prelude.{◌≡◌, ℕ, ◌+◌, ◌-◌, ◌<◌, ◌≤◌, List, [], length, map, IfOk, OnErr, OnOk, IsSome, Some, None, All, true, vec_len, vec_capacity, slice_get, slice_set};
ghost use Rattle.gz_core.specs.declared.requests.RowStep.{RowStep};
ghost use Rattle.gz_site.specs.Many.{told_at, TellsAt, CauseAt, OthersStay};
ghost use Rattle.gz_model.specs.declared.casts.Cast.{Cast};
ghost use Rattle.gz_world.specs.Audit.{casts_of, with_casts, is_known};
ghost use Rattle.gz_world.specs.States.{RequestAt, request_of, numbered, with_reply};
ghost use Rattle.gz_world.specs.Steps.{Answers, IsReplyTo, casts_in, quiet};
ghost use Rattle.gz_world.specs.Deliveries.{IsCounted, IsCountedFor, HasRoomAt, casts_written, blob_reply, read_reply, write_reply, AreTheSame, WasDelivered, IsSameTold, LeavesOthers};
ghost use Rattle.gz_world.specs.Fits.{Fits, IsFitting};
ghost use Rattle.gz_world.specs.Turns.{IsSmall};
ghost use Rattle.gz_world.specs.Weights.{capped, reply_weight};

use crate::audit::Casts;
use crate::events::{Effect, Outcome};
use crate::lookups::item_at;
use crate::requests::Request;
use crate::weights::reply_weight;
use crate::world::World;
use gz_core::{BlobName, Etag, Items, Key, Op, Reply, Row, Session, SiteId};
use gz_model::Cast;
use gz_site::{
    RowRead, RowWrite, Site, SiteFault, drop_blob_at, get_blob_at, put_blob_at, read_at, write_at,
};
use std::alloc::{AllocError, Global};

/// The reply to a read.
fn read_reply(read: RowRead) -> Reply
    ensures { result ≡ read_reply read }
{
    match read {
        RowRead::Row { etag, row } => Reply::Row { etag, row },
        RowRead::NoRow => Reply::NoRow,
    }
}

/// Keeps the votes that the reply to a read shows.
fn audit_read(
    alloc: Global,
    casts: &mut Casts,
    site: SiteId,
    key: &Key,
    reply: Reply,
) -> Result<Reply, AllocError>
    ensures reply { IfOk result (λ r. r ≡ reply) }
    ensures ok { OnOk result (casts.new.list.items ≡ with_casts casts.old.list.items (casts_in site (Op.ReadRow key.now) reply)) }
    ensures err { OnErr result (casts.new.list.items ≡ casts.old.list.items) }
{
    if let Reply::Row { row, .. } = &reply {
        audit_row(alloc, casts, site, key, row)?;
    }
    Ok(reply)
}

/// Keeps the votes that stand in the row of a site.
fn audit_row(
    alloc: Global,
    casts: &mut Casts,
    site: SiteId,
    key: &Key,
    row: &Row,
) -> Result<(), AllocError>
    ensures ok { OnOk result (casts.new.list.items ≡ with_casts casts.old.list.items (casts_of site key.now row.now)) }
    ensures err { OnErr result (casts.new.list.items ≡ casts.old.list.items) }
{
    let fresh = casts.prepare(alloc, site, key, row)?;
    casts.extend(fresh);
    Ok(())
}

/// Reads a row at a site.
fn read<S: Site>(
    alloc: Global,
    sites: &mut Vec<S>,
    casts: &mut Casts,
    site: SiteId,
    key: &Key,
) -> Result<Reply, AllocError>
    requires { site < length sites.old.items }
    ensures kind { IfOk result (λ reply. IsReplyTo (Op.ReadRow key.now) reply) }
    ensures step { IfOk result (λ reply. TellsAt S.told sites.old.items site sites.new.items (λ old new. Answers old (Op.ReadRow key.now) reply new)) }
    ensures audit { IfOk result (λ reply. casts.new.list.items ≡ with_casts casts.old.list.items (casts_in site (Op.ReadRow key.now) reply)) }
    ensures same { TellsAt S.told sites.old.items site sites.new.items (λ old new. new ≡ old) }
    ensures err { OnErr result (casts.new.list.items ≡ casts.old.list.items) }
    ensures len { length sites.new.items ≡ length sites.old.items }
    ensures others { OthersStay sites.old.items site sites.new.items }
    ensures fault { IfOk result (λ reply. IsCounted S.faults sites.old.items site sites.new.items reply) }
{
    match read_at(alloc, sites, site.index(), key) {
        Ok(read) => audit_read(alloc, casts, site, key, read_reply(read)),
        Err(SiteFault::Failed) => Ok(Reply::Failed),
        Err(SiteFault::NoMemory) => Err(AllocError),
    }
}

/// Keeps the votes that a write shows, which were prepared.
fn audit_write(casts: &mut Casts, fresh: Vec<Cast>, written: RowWrite) -> Reply
    requires room { vec_len casts.old.list + length fresh.items ≤ vec_capacity casts.old.list }
    requires known { All (λ c. is_known casts.old.index.entries c ≡ true) fresh.items }
    ensures reply { result ≡ write_reply written }
    ensures casts { casts.new.list.items ≡ with_casts casts.old.list.items (casts_written written fresh.items) }
{
    match written {
        RowWrite::Written { etag } => {
            casts.extend(fresh);
            Reply::Written { etag }
        }
        RowWrite::Changed => Reply::Changed,
    }
}

/// Writes a row at a site.
fn write<S: Site>(
    alloc: Global,
    sites: &mut Vec<S>,
    casts: &mut Casts,
    site: SiteId,
    key: &Key,
    expect: Option<Etag>,
    row: &Row,
) -> Result<Reply, AllocError>
    requires { site < length sites.old.items }
    ensures kind { IfOk result (λ reply. (step : RowStep) → IsReplyTo (Op.WriteRow key.now expect step row.now) reply) }
    ensures step { IfOk result (λ reply. (step : RowStep) → TellsAt S.told sites.old.items site sites.new.items (λ old new. Answers old (Op.WriteRow key.now expect step row.now) reply new)) }
    ensures audit { IfOk result (λ reply. (step : RowStep) → casts.new.list.items ≡ with_casts casts.old.list.items (casts_in site (Op.WriteRow key.now expect step row.now) reply)) }
    ensures same { OnErr result (TellsAt S.told sites.old.items site sites.new.items (λ old new. new ≡ old)) }
    ensures err { OnErr result (casts.new.list.items ≡ casts.old.list.items) }
    ensures len { length sites.new.items ≡ length sites.old.items }
    ensures others { OthersStay sites.old.items site sites.new.items }
    ensures fault { IfOk result (λ reply. IsCounted S.faults sites.old.items site sites.new.items reply) }
{
    let fresh = casts.prepare(alloc, site, key, row)?;
    match write_at(alloc, sites, site.index(), key, expect, row) {
        Ok(written) => Ok(audit_write(casts, fresh, written)),
        Err(SiteFault::Failed) => Ok(Reply::Failed),
        Err(SiteFault::NoMemory) => Err(AllocError),
    }
}

/// Stores a blob at a site.
fn put_blob<S: Site>(
    alloc: Global,
    sites: &mut Vec<S>,
    site: SiteId,
    name: &BlobName,
    bytes: &[u8],
) -> Result<Reply, AllocError>
    requires { site < length sites.old.items }
    ensures kind { IfOk result (λ reply. IsReplyTo (Op.PutBlob name.now bytes.now) reply) }
    ensures step { IfOk result (λ reply. TellsAt S.told sites.old.items site sites.new.items (λ old new. Answers old (Op.PutBlob name.now bytes.now) reply new)) }
    ensures same { OnErr result (TellsAt S.told sites.old.items site sites.new.items (λ old new. new ≡ old)) }
    ensures len { length sites.new.items ≡ length sites.old.items }
    ensures others { OthersStay sites.old.items site sites.new.items }
    ensures fault { IfOk result (λ reply. IsCounted S.faults sites.old.items site sites.new.items reply) }
{
    match put_blob_at(alloc, sites, site.index(), name, bytes) {
        Ok(()) => Ok(Reply::Stored),
        Err(SiteFault::Failed) => Ok(Reply::Failed),
        Err(SiteFault::NoMemory) => Err(AllocError),
    }
}

/// The reply to a read of a blob.
fn blob_reply(found: Option<Vec<u8>>) -> Reply
    ensures { result ≡ blob_reply found }
{
    match found {
        Some(bytes) => Reply::Blob {
            bytes: Items::from_vec(bytes),
        },
        None => Reply::NoBlob,
    }
}

/// Reads a blob at a site.
fn get_blob<S: Site>(
    alloc: Global,
    sites: &mut Vec<S>,
    site: SiteId,
    name: &BlobName,
) -> Result<Reply, AllocError>
    requires { site < length sites.old.items }
    ensures kind { IfOk result (λ reply. IsReplyTo (Op.GetBlob name.now) reply) }
    ensures step { IfOk result (λ reply. TellsAt S.told sites.old.items site sites.new.items (λ old new. Answers old (Op.GetBlob name.now) reply new)) }
    ensures same { OnErr result (TellsAt S.told sites.old.items site sites.new.items (λ old new. new ≡ old)) }
    ensures len { length sites.new.items ≡ length sites.old.items }
    ensures others { OthersStay sites.old.items site sites.new.items }
    ensures fault { IfOk result (λ reply. IsCounted S.faults sites.old.items site sites.new.items reply) }
{
    match get_blob_at(alloc, sites, site.index(), name) {
        Ok(found) => Ok(blob_reply(found)),
        Err(SiteFault::Failed) => Ok(Reply::Failed),
        Err(SiteFault::NoMemory) => Err(AllocError),
    }
}

/// Takes a blob away at a site.
fn drop_blob<S: Site>(
    alloc: Global,
    sites: &mut Vec<S>,
    site: SiteId,
    name: &BlobName,
) -> Result<Reply, AllocError>
    requires { site < length sites.old.items }
    ensures kind { IfOk result (λ reply. IsReplyTo (Op.DropBlob name.now) reply) }
    ensures step { IfOk result (λ reply. TellsAt S.told sites.old.items site sites.new.items (λ old new. Answers old (Op.DropBlob name.now) reply new)) }
    ensures same { OnErr result (TellsAt S.told sites.old.items site sites.new.items (λ old new. new ≡ old)) }
    ensures len { length sites.new.items ≡ length sites.old.items }
    ensures others { OthersStay sites.old.items site sites.new.items }
    ensures fault { IfOk result (λ reply. IsCounted S.faults sites.old.items site sites.new.items reply) }
{
    match drop_blob_at(alloc, sites, site.index(), name) {
        Ok(true) => Ok(Reply::Dropped),
        Ok(false) => Ok(Reply::NoBlob),
        Err(SiteFault::Failed) => Ok(Reply::Failed),
        Err(SiteFault::NoMemory) => Err(AllocError),
    }
}

/// Performs an operation at a site. Memory is taken before the site is changed.
fn perform<S: Site>(
    alloc: Global,
    sites: &mut Vec<S>,
    casts: &mut Casts,
    site: SiteId,
    op: &Op,
) -> Result<Reply, AllocError>
    requires { site < length sites.old.items }
    ensures kind { IfOk result (λ reply. IsReplyTo op.now reply) }
    ensures step { IfOk result (λ reply. TellsAt S.told sites.old.items site sites.new.items (λ old new. Answers old op.now reply new)) }
    ensures audit { IfOk result (λ reply. casts.new.list.items ≡ with_casts casts.old.list.items (casts_in site op.now reply)) }
    ensures same { OnErr result (TellsAt S.told sites.old.items site sites.new.items (λ old new. new ≡ old)) }
    ensures err { OnErr result (casts.new.list.items ≡ casts.old.list.items) }
    ensures len { length sites.new.items ≡ length sites.old.items }
    ensures others { OthersStay sites.old.items site sites.new.items }
    ensures fault { IfOk result (λ reply. IsCounted S.faults sites.old.items site sites.new.items reply) }
{
    match op {
        Op::ReadRow { key } => read(alloc, sites, casts, site, key),
        Op::WriteRow {
            key,
            expect,
            row,
            ..
        } => write(alloc, sites, casts, site, key, *expect, row),
        Op::PutBlob { name, bytes } => put_blob(alloc, sites, site, name, bytes.as_slice()),
        Op::GetBlob { name } => get_blob(alloc, sites, site, name),
        Op::DropBlob { name } => drop_blob(alloc, sites, site, name),
    }
}

/// Makes room for one more reply of a request.
fn make_room_at(net: &mut Vec<Request>, at: usize) -> Result<(), AllocError>
    requires { at < length net.old.items }
    ensures same { map request_of net.new.items ≡ map request_of net.old.items }
    ensures len { length net.new.items ≡ length net.old.items }
    ensures room { OnOk result (HasRoomAt net.new.items at) }
{
    net[at].make_room()
}

/// Keeps a reply of a request, for which there is room.
fn keep_at(net: &mut Vec<Request>, at: usize, tick: u32, reply: Reply)
    requires at { at < length net.old.items }
    requires room { HasRoomAt net.old.items at }
    ensures { (r : RequestAt) → slice_get (map request_of net.old.items) at ≡ Some r
        → map request_of net.new.items ≡ slice_set (map request_of net.old.items) at (with_reply tick reply r) }
{
    net[at].keep(tick, reply);
}

/// An event that sends nothing and ends no call.
pub fn quiet(outcome: Outcome, session: Option<Session>) -> Effect
    ensures { result ≡ quiet outcome session }
{
    Effect {
        outcome,
        session,
        sent: (0, 0),
        answer: None,
    }
}

impl<S: Site> World<S> {
    /// Performs a request at its site, and keeps the reply. Memory is taken before the site is changed.
    pub fn deliver(&mut self, n: u32) -> Result<Effect, AllocError>
        requires fits { IsFitting self.old }
        requires small { IsSmall self.old }
        requires there { IsSome (numbered (map request_of self.old.net.items) n) }
        ensures ok { IfOk result (λ effect. WasDelivered S.told self.old self.new n effect) }
        ensures err { OnErr result (IsSameTold S.told self.old self.new) }
        ensures fault { IfOk result (λ effect. IsCountedFor S.faults self.old n self.new) }
        ensures others { LeavesOthers self.old n self.new }
    {
        let tick = self.next_tick();
        let at = n as usize - 1;
        make_room_at(&mut self.net, at)?;
        let request = item_at(self.net.as_slice(), at);
        let session = request.asker();
        let reply = perform(
            self.alloc,
            &mut self.sites,
            &mut self.casts,
            request.site,
            &request.op,
        )?;
        self.held = self.held.saturating_add(reply_weight(&reply));
        keep_at(&mut self.net, at, tick, reply);
        Ok(quiet(Outcome::Done, Some(session)))
    }
}
