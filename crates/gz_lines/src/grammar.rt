//! What a line of a schedule reads as. The first fault from the left is told: first that of the word, then that of the
//! number of fields, then that of a field.
ghost use Rattle.std.specs.Prelude.{◌≡◌, IfOk, map};
ghost use Rattle.gz_lines.specs.Grammar.{open_line, put_line, delete_line, get_line, get_at_line, reply_line, settle_without, settle_line, line_from, reading_of, read_line, key_in, list_in};
ghost use Rattle.gz_lines.specs.Counts.{three_of};

use crate::bytes::bytes;
use crate::counts::{first, one, three, two};
use crate::fields;
use crate::line::{Line, Reading};
use crate::numbers::{crash, deliver, drain, give_up, number, session, settle_all, take, version};
use crate::verbs::{Verb, verb_of};
use gz_core::{Call, Items, Key, SiteId, Why};
use gz_text::{Fault, cut};
use std::alloc::{AllocError, Global};

/// The reading of a line.
pub fn read_line(alloc: Global, line: &[u8]) -> Result<Reading, AllocError>
    ensures { IfOk result (λ reading. reading ≡ read_line line.now) }
{
    let fields = cut::fields_of(alloc, line)?;
    reading(alloc, fields.as_slice())
}

/// The reading of a line's fields.
fn reading(alloc: Global, fields: &[&[u8]]) -> Result<Reading, AllocError>
    ensures { IfOk result (λ reading. reading ≡ reading_of (map (λ x. x.now) fields.now)) }
{
    let Some(word) = first(fields) else {
        return Ok(Reading::Skipped);
    };
    let Some(verb) = verb_of(word) else {
        return Ok(Reading::Faulty(Fault::Bad(Why::Word)));
    };
    match line(alloc, verb, fields)? {
        Ok(line) => Ok(Reading::Is(line)),
        Err(fault) => Ok(Reading::Faulty(fault)),
    }
}

/// The line of these fields, of which the first asks for it.
fn line(alloc: Global, verb: Verb, fields: &[&[u8]]) -> Result<Result<Line, Fault>, AllocError>
    ensures { IfOk result (λ line. line ≡ line_from verb (map (λ x. x.now) fields.now)) }
{
    match verb {
        Verb::Session => Ok(open_session(fields)),
        Verb::Put => put(alloc, fields),
        Verb::Delete => delete(alloc, fields),
        Verb::Get => get(alloc, fields),
        Verb::GetAt => get_at(alloc, fields),
        Verb::Deliver => Ok(deliver(fields)),
        Verb::Reply => Ok(reply(fields)),
        Verb::GiveUp => Ok(give_up(fields)),
        Verb::Take => Ok(take(fields)),
        Verb::Crash => Ok(crash(fields)),
        Verb::Settle => settle(alloc, fields),
        Verb::Drain => Ok(drain(fields)),
        Verb::Unbuilt => Ok(Err(Fault::Bad(Why::Unbuilt))),
    }
}

fn open_session(fields: &[&[u8]]) -> Result<Line, Fault>
    ensures { result ≡ open_line (map (λ x. x.now) fields.now) }
{
    if fields.len() == 1 {
        Ok(Line::OpenSession)
    } else {
        Err(Fault::Bad(Why::Count))
    }
}

fn put(alloc: Global, fields: &[&[u8]]) -> Result<Result<Line, Fault>, AllocError>
    ensures { IfOk result (λ line. line ≡ put_line (map (λ x. x.now) fields.now)) }
{
    let Some((owner, key, bytes_field)) = three(fields) else {
        return Ok(Err(Fault::Bad(Why::Count)));
    };
    let session = match session(owner) {
        Ok(session) => session,
        Err(fault) => return Ok(Err(fault)),
    };
    let key = match key_in(alloc, key)? {
        Ok(key) => key,
        Err(fault) => return Ok(Err(fault)),
    };
    let bytes = match bytes(alloc, bytes_field)? {
        Ok(bytes) => bytes,
        Err(fault) => return Ok(Err(fault)),
    };
    let call = Call::Put { key, bytes };
    Ok(Ok(Line::Begin { session, call }))
}

fn delete(alloc: Global, fields: &[&[u8]]) -> Result<Result<Line, Fault>, AllocError>
    ensures { IfOk result (λ line. line ≡ delete_line (map (λ x. x.now) fields.now)) }
{
    let Some((owner, key)) = two(fields) else {
        return Ok(Err(Fault::Bad(Why::Count)));
    };
    let session = match session(owner) {
        Ok(session) => session,
        Err(fault) => return Ok(Err(fault)),
    };
    let key = match key_in(alloc, key)? {
        Ok(key) => key,
        Err(fault) => return Ok(Err(fault)),
    };
    let call = Call::Delete { key };
    Ok(Ok(Line::Begin { session, call }))
}

fn get(alloc: Global, fields: &[&[u8]]) -> Result<Result<Line, Fault>, AllocError>
    ensures { IfOk result (λ line. line ≡ get_line (map (λ x. x.now) fields.now)) }
{
    let Some((owner, key)) = two(fields) else {
        return Ok(Err(Fault::Bad(Why::Count)));
    };
    let session = match session(owner) {
        Ok(session) => session,
        Err(fault) => return Ok(Err(fault)),
    };
    let key = match key_in(alloc, key)? {
        Ok(key) => key,
        Err(fault) => return Ok(Err(fault)),
    };
    let call = Call::Get { key };
    Ok(Ok(Line::Begin { session, call }))
}

fn get_at(alloc: Global, fields: &[&[u8]]) -> Result<Result<Line, Fault>, AllocError>
    ensures { IfOk result (λ line. line ≡ get_at_line (map (λ x. x.now) fields.now)) }
{
    let Some((owner, key, version_field)) = three(fields) else {
        return Ok(Err(Fault::Bad(Why::Count)));
    };
    let session = match session(owner) {
        Ok(session) => session,
        Err(fault) => return Ok(Err(fault)),
    };
    let key = match key_in(alloc, key)? {
        Ok(key) => key,
        Err(fault) => return Ok(Err(fault)),
    };
    let version = match version(version_field) {
        Ok(version) => version,
        Err(fault) => return Ok(Err(fault)),
    };
    let call = Call::GetAt { key, version };
    Ok(Ok(Line::Begin { session, call }))
}

fn reply(fields: &[&[u8]]) -> Result<Line, Fault>
    ensures { result ≡ reply_line (map (λ x. x.now) fields.now) }
{
    let Some((n, which)) = two(fields) else {
        return Err(Fault::Bad(Why::Count));
    };
    let n = number(n)?;
    let which = number(which)?;
    Ok(Line::Reply { n, which })
}

/// A call that is carried to its end, perhaps without some sites.
fn settle(alloc: Global, fields: &[&[u8]]) -> Result<Result<Line, Fault>, AllocError>
    ensures { IfOk result (λ line. line ≡ settle_line (map (λ x. x.now) fields.now)) }
{
    match one(fields) {
        Some(owner) => Ok(settle_all(alloc, owner)),
        None => settle_without(alloc, fields),
    }
}

/// A call that is carried to its end without some sites.
fn settle_without(alloc: Global, fields: &[&[u8]]) -> Result<Result<Line, Fault>, AllocError>
    ensures { IfOk result (λ line. line ≡ settle_without (three_of (map (λ x. x.now) fields.now))) }
{
    let Some((owner, word, sites)) = three(fields) else {
        return Ok(Err(Fault::Bad(Why::Count)));
    };
    let session = match session(owner) {
        Ok(session) => session,
        Err(fault) => return Ok(Err(fault)),
    };
    if word != b"without".as_slice() {
        return Ok(Err(Fault::Bad(Why::Word)));
    }
    let without = match list_in(alloc, sites)? {
        Ok(without) => without,
        Err(fault) => return Ok(Err(fault)),
    };
    Ok(Ok(Line::Settle { session, without }))
}

/// A key.
fn key_in(alloc: Global, field: &[u8]) -> Result<Result<Key, Fault>, AllocError>
    ensures { IfOk result (λ key. key ≡ key_in field.now) }
{
    match fields::key(alloc, field)? {
        Some(key) => Ok(Ok(key)),
        None => Ok(Err(Fault::Bad(Why::Key))),
    }
}

/// A list of sites.
fn list_in(alloc: Global, field: &[u8]) -> Result<Result<Items<SiteId>, Fault>, AllocError>
    ensures { IfOk result (λ sites. sites ≡ list_in field.now) }
{
    match fields::sites(alloc, field)? {
        Some(sites) => Ok(Ok(sites)),
        None => Ok(Err(Fault::Bad(Why::List))),
    }
}
