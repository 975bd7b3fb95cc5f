//! How many first calls surely keep the rules of reads: what they read is in the history, and they return what was written.
ghost use Rattle.std.specs.Prelude.{◌≡◌, true, IfOk, IfSome, length, Contains};
ghost use Rattle.gz_history.specs.Broken.{IsHistory, HaveSources, ReturnedBefore, OfOneObject};
ghost use Rattle.gz_history.specs.Legal.{ReadsAWrite, ReturnWritten};
ghost use Rattle.gz_history.specs.declared.record.CallRec.{CallRec as CallOf};

use crate::legality::{is_returned, is_source, is_write, read};
use crate::record::CallRec;
use gz_core::{Answer, PutName};
use std::alloc::{AllocError, Global};

/// For each call the place of the write that it reads, if there is one of that name.
pub(crate) fn sources_of(alloc: Global, calls: &[CallRec]) -> Result<Vec<Option<usize>>, AllocError>
    ensures { IfOk result (λ sources. length sources.items ≡ length calls.now) }
{
    let writes = writes_of(alloc, calls)?;
    let mut sources = Vec::new(alloc);
    for place in 0..calls.len() {
        let source = source_of(writes.as_slice(), &calls[place]);
        sources.push(source)?;
    }
    Ok(sources)
}

/// The names of the writes with their places, in the order of the names.
fn writes_of(alloc: Global, calls: &[CallRec]) -> Result<Vec<(PutName, usize)>, AllocError> {
    let mut writes = Vec::new(alloc);
    for place in 0..calls.len() {
        if is_write(&calls[place].call) {
            writes.push((calls[place].name, place))?;
        }
    }
    writes.sort_unstable();
    Ok(writes)
}

/// The place of the write that a call reads.
fn source_of(writes: &[(PutName, usize)], call: &CallRec) -> Option<usize> {
    let name = read(call)?;
    match writes.binary_search_by_key(&name, |write| write.0) {
        Ok(at) => Some(writes[at].1),
        Err(_) => None,
    }
}

/// So many first calls read what is in the history: those before the first one whose source is not where it was found.
pub(crate) fn reading_writes(calls: &[CallRec], sources: &[Option<usize>]) -> usize
    requires { length sources.now ≡ length calls.now }
    ensures { HaveSources calls.now result }
{
    for i in 0..calls.len() {
        if !reads_a_write(calls, &calls[i], sources[i]) {
            return i;
        }
    }
    calls.len()
}

/// Whether what a call reads is found at a place of the history.
fn reads_a_write(calls: &[CallRec], a: &CallRec, source: Option<usize>) -> bool
    ensures { result ≡ true → ReadsAWrite calls.now a.now }
{
    match read(a) {
        None => true,
        Some(x) => match call_at(calls, source) {
            Some(b) => is_source(a, x, b),
            None => false,
        },
    }
}

/// The call at a place.
fn call_at(calls: &[CallRec], place: Option<usize>) -> Option<&CallRec>
    ensures { IfSome result (λ b. Contains calls.now b.now) }
{
    match place {
        Some(place) => calls.get(place),
        None => None,
    }
}

/// So many first calls return what was written: those before the first one that returns other bytes than the call has
/// where its source was found.
pub(crate) fn returning(calls: &[CallRec], sources: &[Option<usize>]) -> usize
    requires history { IsHistory calls.now }
    requires len { length sources.now ≡ length calls.now }
    ensures { ReturnedBefore calls.now result }
{
    for i in 0..calls.len() {
        if !returns_written(calls, &calls[i], sources[i]) {
            return i;
        }
    }
    calls.len()
}

/// Whether a call returns the bytes of the call that it names, if it returns any.
fn returns_written(calls: &[CallRec], a: &CallRec, source: Option<usize>) -> bool
    requires { IsHistory calls.now }
    ensures { result ≡ true → (b : CallOf) → Contains calls.now b → OfOneObject ReturnWritten a.now b }
{
    match &a.answer {
        Some(Answer::Bytes { name, .. }) => match call_at(calls, source) {
            Some(b) => b.name == *name && is_returned(a, b),
            None => false,
        },
        _ => true,
    }
}
