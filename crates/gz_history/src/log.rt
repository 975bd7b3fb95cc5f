//! The text of a log.
ghost use Rattle.std.specs.Prelude.{◌≡◌, ◌++◌, IfOk, OnOk, codes, decimal, flat_map};
ghost use Rattle.gz_history.specs.Log.{name_text, bytes_text, asked_text, versioned_text, kind_text, argument_text, tick_text, phase_text, no_quorum_text, unsure_text, fate_text, fates_text, held_text, told_text, answer_text, line_text, end_text, log_of};

use crate::record::CallRec;
use crate::text::Text;
use gz_core::{Answer, Call, Fate, Fates, HeldWhy, Phase, PutName, UnsureWhy, Version};
use std::alloc::{AllocError, Global};

/// The log of these calls, of which there were so many events, and so many of them skipped.
pub fn log_text(
    alloc: Global,
    calls: &[CallRec],
    events: u32,
    skipped: u32,
) -> Result<Vec<u8>, AllocError>
    ensures { IfOk result (λ text. text.items ≡ log_of calls.now events skipped) }
{
    let mut text = Text::new(alloc);
    put_lines(alloc, &mut text, calls)?;
    put_last_line(alloc, &mut text, calls.len() as u64, events, skipped)?;
    Ok(text.into_bytes())
}

/// The lines of the calls.
fn put_lines(alloc: Global, text: &mut Text, calls: &[CallRec]) -> Result<(), AllocError>
    ensures { OnOk result (text.new ≡ text.old ++ flat_map line_text calls.now) }
{
    for call in calls {
        put_line(alloc, text, call)?;
    }
    Ok(())
}

/// The last line, with the counts.
fn put_last_line(
    alloc: Global,
    text: &mut Text,
    calls: u64,
    events: u32,
    skipped: u32,
) -> Result<(), AllocError>
    ensures { OnOk result (text.new ≡ text.old ++ end_text calls events skipped) }
{
    text.counted(alloc, b"end ", calls)?;
    text.counted(alloc, b" ", events as u64)?;
    text.counted(alloc, b" ", skipped as u64)?;
    text.put(b"\n")
}

/// The line of a call.
fn put_line(alloc: Global, text: &mut Text, call: &CallRec) -> Result<(), AllocError>
    ensures { OnOk result (text.new ≡ text.old ++ line_text call.now) }
{
    put_asked(alloc, text, call.name, &call.call)?;
    text.counted(alloc, b" ", call.begin as u64)?;
    put_end(alloc, text, call.end)?;
    text.put(b" ")?;
    put_answer(alloc, text, &call.answer)?;
    text.put(b"\n")
}

/// What was asked: the name, the kind, the key and the argument of a call.
fn put_asked(alloc: Global, text: &mut Text, name: PutName, call: &Call) -> Result<(), AllocError>
    ensures { OnOk result (text.new ≡ text.old ++ asked_text name call.now) }
{
    put_name(alloc, text, name)?;
    text.word(kind(call))?;
    text.word(call.key().as_bytes())?;
    text.put(b" ")?;
    put_argument(alloc, text, call)
}

fn put_name(alloc: Global, text: &mut Text, name: PutName) -> Result<(), AllocError>
    ensures { OnOk result (text.new ≡ text.old ++ name_text name) }
{
    text.number(alloc, name.session_number() as u64)?;
    text.counted(alloc, b".", name.seq_number() as u64)
}

fn kind(call: &Call) -> &'static [u8]
    ensures { result.now ≡ kind_text call.now }
{
    match call {
        Call::Put { .. } => b"put",
        Call::Delete { .. } => b"delete",
        Call::Get { .. } => b"get",
        Call::GetAt { .. } => b"getat",
        Call::Collect { .. } => b"collect",
    }
}

fn put_argument(alloc: Global, text: &mut Text, call: &Call) -> Result<(), AllocError>
    ensures { OnOk result (text.new ≡ text.old ++ argument_text call.now) }
{
    match call {
        Call::Put { bytes, .. } => text.bytes(alloc, bytes.as_slice()),
        Call::Delete { .. } | Call::Get { .. } => text.put(b"-"),
        Call::GetAt { version, .. } => text.number(alloc, version.number()),
        Call::Collect { keep, .. } => text.number(alloc, *keep as u64),
    }
}

/// The tick of a call's end, after a space.
fn put_end(alloc: Global, text: &mut Text, end: Option<u32>) -> Result<(), AllocError>
    ensures { OnOk result (text.new ≡ text.old ++ (codes " " ++ tick_text end)) }
{
    match end {
        None => text.put(b" -"),
        Some(end) => text.counted(alloc, b" ", end as u64),
    }
}

fn put_answer(alloc: Global, text: &mut Text, answer: &Option<Answer>) -> Result<(), AllocError>
    ensures { OnOk result (text.new ≡ text.old ++ answer_text answer.now) }
{
    match answer {
        None => text.put(b"open"),
        Some(answer) => put_told(alloc, text, answer),
    }
}

fn put_told(alloc: Global, text: &mut Text, answer: &Answer) -> Result<(), AllocError>
    ensures { OnOk result (text.new ≡ text.old ++ told_text answer.now) }
{
    match answer {
        Answer::Ok { version } => text.counted(alloc, b"ok ", version.number()),
        Answer::Thin { version, stored } => text.counts(alloc, b"thin ", version.number(), *stored),
        Answer::Short { stored } => text.counted(alloc, b"short ", *stored as u64),
        Answer::Bytes {
            version,
            name,
            bytes,
        } => put_found(alloc, text, *version, *name, bytes.as_slice()),
        Answer::Incomplete {
            version,
            name,
            fates,
        } => put_incomplete(alloc, text, *version, *name, fates),
        Answer::Gone { version, name } => put_versioned(alloc, text, b"gone ", *version, *name),
        Answer::Absent => text.put(b"absent"),
        Answer::Unborn { latest } => text.counted(alloc, b"unborn ", latest.number()),
        Answer::Collected { floor } => text.counted(alloc, b"collected ", floor.number()),
        Answer::Swept { floor, dropped } => text.counts(alloc, b"swept ", floor.number(), *dropped),
        Answer::Held { why } => put_held(text, why),
        Answer::NoQuorum { phase, heard } => put_no_quorum(alloc, text, *phase, *heard),
        Answer::Contended { met } => text.counted(alloc, b"contended ", *met as u64),
        Answer::Unsure { why } => put_unsure(alloc, text, *why),
    }
}

fn put_found(
    alloc: Global,
    text: &mut Text,
    version: Version,
    name: PutName,
    bytes: &[u8],
) -> Result<(), AllocError>
    ensures { OnOk result (text.new ≡ text.old ++ (versioned_text (codes "bytes ") version name ++ codes " " ++ bytes_text bytes.now)) }
{
    put_versioned(alloc, text, b"bytes ", version, name)?;
    text.put(b" ")?;
    text.bytes(alloc, bytes)
}

fn put_incomplete(
    alloc: Global,
    text: &mut Text,
    version: Version,
    name: PutName,
    fates: &Fates,
) -> Result<(), AllocError>
    ensures { OnOk result (text.new ≡ text.old ++ (versioned_text (codes "incomplete ") version name ++ codes " " ++ fates_text fates.now)) }
{
    put_versioned(alloc, text, b"incomplete ", version, name)?;
    text.put(b" ")?;
    put_fates(text, fates)
}

/// A word, a version and a name.
fn put_versioned(
    alloc: Global,
    text: &mut Text,
    word: &[u8],
    version: Version,
    name: PutName,
) -> Result<(), AllocError>
    ensures { OnOk result (text.new ≡ text.old ++ versioned_text word.now version name) }
{
    text.counted(alloc, word, version.number())?;
    text.put(b" ")?;
    put_name(alloc, text, name)
}

/// A letter for each fate.
fn put_fates(text: &mut Text, fates: &Fates) -> Result<(), AllocError>
    ensures { OnOk result (text.new ≡ text.old ++ fates_text fates.now) }
{
    for fate in fates.as_slice() {
        text.put(fate_letter(*fate))?;
    }
    Ok(())
}

fn fate_letter(fate: Fate) -> &'static [u8]
    ensures { result.now ≡ fate_text fate }
{
    match fate {
        Fate::Whole => b"W",
        Fate::Damaged => b"D",
        Fate::Missing => b"M",
        Fate::GivenUp => b"G",
        Fate::Failed => b"F",
    }
}

fn put_unsure(alloc: Global, text: &mut Text, why: UnsureWhy) -> Result<(), AllocError>
    ensures { OnOk result (text.new ≡ text.old ++ (codes "unsure " ++ unsure_text why)) }
{
    text.put(b"unsure ")?;
    match why {
        UnsureWhy::NoQuorum { phase, heard } => put_no_quorum(alloc, text, phase, heard),
        UnsureWhy::Contended { met } => text.counted(alloc, b"contended ", met as u64),
        UnsureWhy::Trimmed { floor } => text.counted(alloc, b"trimmed ", floor.number()),
    }
}

fn put_held(text: &mut Text, why: &HeldWhy) -> Result<(), AllocError>
    ensures { OnOk result (text.new ≡ text.old ++ (codes "held " ++ held_text why.now)) }
{
    text.put(b"held ")?;
    match why {
        HeldWhy::NoOlder => text.put(b"noolder"),
        HeldWhy::NotWhole { fates } => {
            text.put(b"notwhole ")?;
            put_fates(text, fates)
        }
    }
}

fn put_no_quorum(alloc: Global, text: &mut Text, phase: Phase, heard: u32) -> Result<(), AllocError>
    ensures { OnOk result (text.new ≡ text.old ++ no_quorum_text phase heard) }
{
    text.put(b"noquorum ")?;
    text.put(phase_word(phase))?;
    text.counted(alloc, b" ", heard as u64)
}

fn phase_word(phase: Phase) -> &'static [u8]
    ensures { result.now ≡ phase_text phase }
{
    match phase {
        Phase::Look => b"look",
        Phase::Fast => b"fast",
        Phase::Prepare => b"prepare",
        Phase::Accept => b"accept",
        Phase::Trim => b"trim",
    }
}
