//! What a line of a log says of a call before its answer.
ghost use Rattle.std.specs.Prelude.{◌≡◌, IfOk, map};
ghost use Rattle.gz_core.specs.declared.texts.Why.TheVariants as whys;
ghost use Rattle.gz_text.specs.Faults.{or_bad};
ghost use Rattle.gz_text.specs.Fields.{number_field};
ghost use Rattle.gz_logs.specs.declared.kinds.Kind.TheVariants as kinds;
ghost use Rattle.gz_logs.specs.Calls.{bare_in, call_in, asked_in, end_in, timed_in};

use crate::answers::version;
use crate::bytes::bytes;
use crate::kinds::{Kind, kind_in};
use gz_core::{Call, Key, Why};
use gz_text::Fault;
use gz_text::fields::{is_dash, key, number, positive_below};
use gz_text::places::field_at;
use std::alloc::{AllocError, Global};

/// A call, and when it began and ended.
#[derive(Drop)]
pub struct Timed {
    pub call: Call,
    pub begin: u32,
    pub end: Option<u32>,
}

/// What was asked, the beginning and the end: the first fault from the left is told.
pub fn timing(alloc: Global, fields: &[&[u8]]) -> Result<Result<Timed, Fault>, AllocError>
    ensures { IfOk result (λ timed. timed ≡ timed_in (map (λ x. x.now) fields.now)) }
{
    let call = match asked(alloc, fields)? {
        Ok(call) => call,
        Err(fault) => return Ok(Err(fault)),
    };
    let begin = match tick(field_at(fields, 4)) {
        Ok(begin) => begin,
        Err(fault) => return Ok(Err(fault)),
    };
    match end(field_at(fields, 5)) {
        Ok(end) => Ok(Ok(Timed { call, begin, end })),
        Err(fault) => Ok(Err(fault)),
    }
}

/// A kind, a key and an argument.
fn asked(alloc: Global, fields: &[&[u8]]) -> Result<Result<Call, Fault>, AllocError>
    ensures { IfOk result (λ call. call ≡ asked_in (map (λ x. x.now) fields.now)) }
{
    let Some(kind) = kind_in(field_at(fields, 1)) else {
        return Ok(Err(Fault::Bad(Why::Word)));
    };
    let Some(key) = key(alloc, field_at(fields, 2))? else {
        return Ok(Err(Fault::Bad(Why::Key)));
    };
    call(alloc, kind, key, field_at(fields, 3))
}

/// A call of a kind, with its argument.
fn call(
    alloc: Global,
    kind: Kind,
    key: Key,
    argument: &[u8],
) -> Result<Result<Call, Fault>, AllocError>
    ensures { IfOk result (λ call. call ≡ call_in kind key argument.now) }
{
    match kind {
        Kind::Put => put(alloc, key, argument),
        Kind::Delete => Ok(bare(argument, Call::Delete { key })),
        Kind::Get => Ok(bare(argument, Call::Get { key })),
        Kind::GetAt => Ok(get_at(key, argument)),
        Kind::Collect => Ok(collect(key, argument)),
    }
}

fn put(alloc: Global, key: Key, argument: &[u8]) -> Result<Result<Call, Fault>, AllocError>
    ensures { IfOk result (λ call. call ≡ call_in kinds.Put key argument.now) }
{
    match bytes(alloc, Why::Bytes, argument)? {
        Ok(bytes) => Ok(Ok(Call::Put { key, bytes })),
        Err(fault) => Ok(Err(fault)),
    }
}

/// A call without an argument.
fn bare(argument: &[u8], call: Call) -> Result<Call, Fault>
    ensures { result ≡ bare_in argument.now call }
{
    if is_dash(argument) {
        Ok(call)
    } else {
        Err(Fault::Bad(Why::Number))
    }
}

fn get_at(key: Key, argument: &[u8]) -> Result<Call, Fault>
    ensures { result ≡ call_in kinds.GetAt key argument.now }
{
    match version(argument) {
        Some(version) => Ok(Call::GetAt { key, version }),
        None => Err(Fault::Bad(Why::Number)),
    }
}

fn collect(key: Key, argument: &[u8]) -> Result<Call, Fault>
    ensures { result ≡ call_in kinds.Collect key argument.now }
{
    match positive_below(argument, 1001) {
        Some(keep) => Ok(Call::Collect {
            key,
            keep: keep as u32,
        }),
        None => Err(Fault::Bad(Why::Number)),
    }
}

fn tick(field: &[u8]) -> Result<u32, Fault>
    ensures { result ≡ or_bad whys.Number (number_field field.now) }
{
    match number(field) {
        Some(tick) => Ok(tick),
        None => Err(Fault::Bad(Why::Number)),
    }
}

/// A tick, a dash where there is none.
fn end(field: &[u8]) -> Result<Option<u32>, Fault>
    ensures { result ≡ end_in field.now }
{
    if is_dash(field) {
        return Ok(None);
    }
    match tick(field) {
        Ok(tick) => Ok(Some(tick)),
        Err(fault) => Err(fault),
    }
}
