//! What a line of a log adds to what was read above it.
ghost use Rattle.std.specs.Prelude.{◌≡◌, IfOk, map, length};
ghost use Rattle.gz_core.specs.declared.texts.Why.TheVariants as whys;
ghost use Rattle.gz_text.specs.Faults.{or_bad};
ghost use Rattle.gz_text.specs.Fields.{number_field};
ghost use Rattle.gz_logs.specs.Lines.{begin_before, is_after, is_end, is_ordered, is_open, answer_or_open, answered, counts_in, counted_calls, end_line};

use crate::answers::answer_in;
use crate::calls::Timed;
use crate::kinds::{Kind, kind_of};
use gz_core::{Answer, PutName, Why};
use gz_history::CallRec;
use gz_text::Fault;
use gz_text::fields::number;
use gz_text::places::field_at;
use std::alloc::{AllocError, Global};

/// The counts of a last line: calls, events, and skipped events.
#[derive(Clone, Copy, Debug)]
pub struct Counts {
    pub calls: u32,
    pub events: u32,
    pub skipped: u32,
}

/// The last line, after so many calls.
pub fn end_line(calls: usize, fields: &[&[u8]]) -> Result<Counts, Fault>
    ensures { result ≡ end_line calls (map (λ x. x.now) fields.now) }
{
    if fields.len() != 4 {
        return Err(Fault::Bad(Why::Count));
    }
    let counts = counts_in(fields)?;
    counted_calls(calls, counts)
}

/// The counts, unless they count other calls.
fn counted_calls(calls: usize, counts: Counts) -> Result<Counts, Fault>
    ensures { result ≡ counted_calls calls counts }
{
    if counts.calls as usize == calls {
        Ok(counts)
    } else {
        Err(Fault::Bad(Why::End))
    }
}

fn counts_in(fields: &[&[u8]]) -> Result<Counts, Fault>
    ensures { result ≡ counts_in (map (λ x. x.now) fields.now) }
{
    let calls = count(field_at(fields, 1))?;
    let events = count(field_at(fields, 2))?;
    let skipped = count(field_at(fields, 3))?;
    Ok(Counts {
        calls,
        events,
        skipped,
    })
}

fn count(field: &[u8]) -> Result<u32, Fault>
    ensures { result ≡ or_bad whys.Number (number_field field.now) }
{
    match number(field) {
        Some(count) => Ok(count),
        None => Err(Fault::Bad(Why::Number)),
    }
}

/// A call with its answer.
pub fn answered(
    alloc: Global,
    name: PutName,
    timed: Timed,
    fields: &[&[u8]],
) -> Result<Result<CallRec, Fault>, AllocError>
    ensures { IfOk result (λ call. call ≡ answered name timed (map (λ x. x.now) fields.now)) }
{
    let answer = match answer_or_open(alloc, kind_of(&timed.call), fields)? {
        Ok(answer) => answer,
        Err(fault) => return Ok(Err(fault)),
    };
    let Timed { call, begin, end } = timed;
    Ok(Ok(CallRec {
        name,
        call,
        begin,
        end,
        answer,
    }))
}

fn answer_or_open(
    alloc: Global,
    kind: Kind,
    fields: &[&[u8]],
) -> Result<Result<Option<Answer>, Fault>, AllocError>
    ensures { IfOk result (λ answer. answer ≡ answer_or_open kind (map (λ x. x.now) fields.now)) }
{
    if is_open(fields) {
        return Ok(Ok(None));
    }
    match answer_in(alloc, kind, fields)? {
        Ok(answer) => Ok(Ok(Some(answer))),
        Err(fault) => Ok(Err(fault)),
    }
}

/// Whether there is the one field `open`, where there is no answer.
pub fn is_open(fields: &[&[u8]]) -> bool
    ensures { result ≡ is_open (map (λ x. x.now) fields.now) }
{
    fields.len() == 1 && field_at(fields, 0) == b"open".as_slice()
}

/// Whether the ticks of a call are in order.
pub fn is_ordered(before: Option<u32>, begin: u32, end: Option<u32>, is_open: bool) -> bool
    ensures { result ≡ is_ordered before begin end is_open }
{
    is_after(before, begin) && begin <= MOST_EVENTS && is_end(begin, end, is_open)
}

/// The most events of a run.
const MOST_EVENTS: u32 = 4_000_000;

/// Whether a tick is above another, if there is another.
fn is_after(before: Option<u32>, tick: u32) -> bool
    ensures { result ≡ is_after before tick }
{
    match before {
        Some(before) => before < tick,
        None => true,
    }
}

/// Whether a call ends after it began, and exactly where it has an answer.
fn is_end(begin: u32, end: Option<u32>, is_open: bool) -> bool
    ensures { result ≡ is_end begin end is_open }
{
    match end {
        Some(end) => begin < end && end <= MOST_EVENTS && !is_open,
        None => is_open,
    }
}

/// The beginning of the call of the line before.
pub fn begin_before(calls: &[CallRec]) -> Option<u32>
    ensures { result ≡ begin_before calls.now }
{
    match calls {
        [.., last] => Some(last.begin),
        [] => None,
    }
}
