//! Logs are read line by line.
ghost use Rattle.std.specs.Prelude.{◌≡◌, ◌+◌, [], None, map, length, IfOk, OnOk};
ghost use Rattle.gz_history.specs.Broken.{IsHistory};
ghost use Rattle.gz_text.specs.Texts.{fields_of};
ghost use Rattle.gz_logs.specs.Lines.{placed, call_from, call_line, end_line, with_end, line_after, after};
ghost use Rattle.gz_logs.specs.Parsed.{finished, read_from, unread, parsed, Parses};
ghost use Rattle.gz_logs.specs.Reading.{seen_of, Steps};

use crate::calls::{Timed, timing};
use crate::lines::{Counts, answered, begin_before, end_line, is_open, is_ordered};
use crate::named::Calls;
use gz_core::{PutName, TextError, Why};
use gz_history::CallRec;
use gz_text::names::name;
use gz_text::places::{field_at, fields_from};
use gz_text::{Fault, cut, number_at};
use std::alloc::{AllocError, Global};

/// The calls of a log, or the first line with a fault, counted from 1. Time and memory grow linearly with the text, but for
/// the names, each of which is looked for among those before it in logarithmic time.
pub fn parse_log(alloc: Global, bytes: &[u8]) -> Result<Vec<CallRec>, TextError>
    ensures exact { Parses (parsed bytes.now) result }
    ensures history { IfOk result (λ calls. IsHistory calls.items) }
{
    match read(alloc, bytes) {
        Ok(read) => read,
        Err(AllocError) => Err(TextError::NoMemory),
    }
}

/// The same; want of memory stands outside.
fn read(alloc: Global, bytes: &[u8]) -> Result<Result<Vec<CallRec>, TextError>, AllocError>
    ensures { IfOk result (Parses (parsed bytes.now)) }
{
    let texts = cut::lines(alloc, bytes)?;
    read_lines(alloc, texts.as_slice())
}

/// The calls of lines, up to the first one with a fault.
fn read_lines(alloc: Global, texts: &[&[u8]]) -> Result<Result<Vec<CallRec>, TextError>, AllocError>
    ensures { IfOk result (Parses (read_from 1 unread (map (λ text. text.now) texts.now))) }
{
    let mut reader = Reader::new(alloc);
    for i in 0..texts.len() {
        if let Err(fault) = reader.read(alloc, texts[i])? {
            return Ok(Err(fault.at(number_at(i))));
        }
    }
    Ok(reader.finish(texts.len()))
}

/// What was read of a log.
#[derive(Drop)]
pub struct Reader {
    calls: Calls,
    ends: Option<Counts>,
}

impl Reader {
    fn new(alloc: Global) -> Reader
        ensures { seen_of result ≡ unread }
    {
        Reader {
            calls: Calls::new(alloc),
            ends: None,
        }
    }

    /// Reads a line.
    fn read(&mut self, alloc: Global, line: &[u8]) -> Result<Result<(), Fault>, AllocError>
        ensures { IfOk result (Steps (after (seen_of self.old) (fields_of line.now)) (seen_of self.new)) }
    {
        let fields = cut::fields_of(alloc, line)?;
        if fields.is_empty() {
            return Ok(Ok(()));
        }
        self.read_fields(alloc, fields.as_slice())
    }

    /// Reads the fields of a line.
    fn read_fields(
        &mut self,
        alloc: Global,
        fields: &[&[u8]],
    ) -> Result<Result<(), Fault>, AllocError>
        ensures { IfOk result (Steps (line_after (seen_of self.old) (map (λ x. x.now) fields.now)) (seen_of self.new)) }
    {
        if self.ends.is_some() {
            return Ok(Err(Fault::Bad(Why::End)));
        }
        if field_at(fields, 0) == b"end".as_slice() {
            return Ok(self.read_end(fields));
        }
        match call_line(alloc, &self.calls, fields)? {
            Ok(call) => {
                self.calls.add(call)?;
                Ok(Ok(()))
            }
            Err(fault) => Ok(Err(fault)),
        }
    }

    /// Reads the fields of the last line.
    fn read_end(&mut self, fields: &[&[u8]]) -> Result<(), Fault>
        ensures { Steps (with_end self.old.calls.list.items (end_line (length self.old.calls.list.items) (map (λ x. x.now) fields.now))) (seen_of self.new) result }
    {
        let counts = end_line(self.calls.list.len(), fields)?;
        self.ends = Some(counts);
        Ok(())
    }

    /// The calls of all lines, so many.
    fn finish(self, lines: usize) -> Result<Vec<CallRec>, TextError>
        ensures { Parses (finished (lines + 1) self.calls.list.items self.ends) result }
    {
        let Reader { calls, ends } = self;
        match ends {
            Some(_) => Ok(calls.into_list()),
            None => Err(Fault::Bad(Why::End).at(number_at(lines))),
        }
    }
}

/// The call of a line.
fn call_line(
    alloc: Global,
    calls: &Calls,
    fields: &[&[u8]],
) -> Result<Result<CallRec, Fault>, AllocError>
    ensures { IfOk result (λ call. call ≡ call_line calls.now.list.items (map (λ x. x.now) fields.now)) }
{
    match name(alloc, field_at(fields, 0))? {
        Some(name) => call_from(alloc, calls, name, fields),
        None => Ok(Err(Fault::Bad(Why::Word))),
    }
}

/// The call of a line whose name was read.
fn call_from(
    alloc: Global,
    calls: &Calls,
    name: PutName,
    fields: &[&[u8]],
) -> Result<Result<CallRec, Fault>, AllocError>
    ensures { IfOk result (λ call. call ≡ call_from calls.now.list.items name (map (λ x. x.now) fields.now)) }
{
    if fields.len() < 7 {
        return Ok(Err(Fault::Bad(Why::Count)));
    }
    match timing(alloc, fields)? {
        Ok(timed) => placed(alloc, calls, name, timed, fields_from(fields, 6)),
        Err(fault) => Ok(Err(fault)),
    }
}

/// A call after the calls above it.
fn placed(
    alloc: Global,
    calls: &Calls,
    name: PutName,
    timed: Timed,
    fields: &[&[u8]],
) -> Result<Result<CallRec, Fault>, AllocError>
    ensures { IfOk result (λ call. call ≡ placed calls.now.list.items name timed (map (λ x. x.now) fields.now)) }
{
    if calls.has(name) {
        return Ok(Err(Fault::Bad(Why::Name)));
    }
    let before = begin_before(calls.list.as_slice());
    if is_ordered(before, timed.begin, timed.end, is_open(fields)) {
        answered(alloc, name, timed, fields)
    } else {
        Ok(Err(Fault::Bad(Why::Order)))
    }
}
