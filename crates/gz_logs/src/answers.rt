//! The answer that fields of a log stand for.
ghost use Rattle.std.specs.Prelude.{◌≡◌, ◌^◌, IfOk, map, filter_map};
ghost use Rattle.gz_core.specs.declared.texts.Why.TheVariants as whys;
ghost use Rattle.gz_text.specs.Faults.{or_bad};
ghost use Rattle.gz_logs.specs.Answers.{version_in, version_alone, latest_alone, count_alone, version_and_count, versioned, fate_in, fates_within, fates_in, incomplete_in, gone_in, found_in, held_in, phase_in, no_quorum_in, unsure_by, unsure_in, absent_in, plain_in, answer_by, answer_in};

use crate::bytes::bytes;
use crate::kinds::{Kind, Told, may_answer, told_in};
use gz_core::{Answer, Fate, Fates, HeldWhy, Phase, PutName, UnsureWhy, Version, Why};
use gz_text::Fault;
use gz_text::fields::{number, number_below, positive_below};
use gz_text::names::name;
use gz_text::places::{field_at, fields_from};
use std::alloc::{AllocError, Global};

/// One more than the greatest version.
const VERSIONS: u64 = 1 << 63;

/// The answer of a kind of call. Its kind is tried first, then the number of its fields, then they from left to right.
pub fn answer_in(
    alloc: Global,
    kind: Kind,
    fields: &[&[u8]],
) -> Result<Result<Answer, Fault>, AllocError>
    ensures { IfOk result (λ answer. answer ≡ answer_in kind (map (λ x. x.now) fields.now)) }
{
    let Some(told) = told_in(field_at(fields, 0)) else {
        return Ok(Err(Fault::Bad(Why::Answer)));
    };
    if may_answer(kind, told) {
        answer_by(alloc, told, fields)
    } else {
        Ok(Err(Fault::Bad(Why::Answer)))
    }
}

/// An answer of this kind.
fn answer_by(
    alloc: Global,
    told: Told,
    fields: &[&[u8]],
) -> Result<Result<Answer, Fault>, AllocError>
    ensures { IfOk result (λ answer. answer ≡ answer_by told (map (λ x. x.now) fields.now)) }
{
    match told {
        Told::Bytes => found(alloc, fields),
        Told::Incomplete => Ok(or_fault(incomplete(alloc, fields)?)),
        Told::Gone => Ok(or_fault(gone(alloc, fields)?)),
        Told::Held => Ok(or_fault(held(alloc, fields)?)),
        _ => Ok(or_fault(plain(told, fields))),
    }
}

/// The answer, or the fault of one that is none.
fn or_fault(answer: Option<Answer>) -> Result<Answer, Fault>
    ensures { result ≡ or_bad whys.Answer answer }
{
    match answer {
        Some(answer) => Ok(answer),
        None => Err(Fault::Bad(Why::Answer)),
    }
}

/// The answers of numbers and words alone.
fn plain(told: Told, fields: &[&[u8]]) -> Option<Answer>
    ensures { result ≡ plain_in told (map (λ x. x.now) fields.now) }
{
    match told {
        Told::Ok => version_alone(fields).map(|version| Answer::Ok { version }),
        Told::Thin => {
            let (version, stored) = version_and_count(fields)?;
            Some(Answer::Thin { version, stored })
        }
        Told::Short => count_alone(fields).map(|stored| Answer::Short { stored }),
        Told::Absent => absent(fields),
        Told::Unborn => latest_alone(fields).map(|latest| Answer::Unborn { latest }),
        Told::Collected => version_alone(fields).map(|floor| Answer::Collected { floor }),
        Told::Swept => {
            let (floor, dropped) = version_and_count(fields)?;
            Some(Answer::Swept { floor, dropped })
        }
        Told::NoQuorum => {
            let (phase, heard) = no_quorum(fields)?;
            Some(Answer::NoQuorum { phase, heard })
        }
        Told::Contended => count_alone(fields).map(|met| Answer::Contended { met }),
        Told::Unsure => unsure(fields).map(|why| Answer::Unsure { why }),
        _ => None,
    }
}

fn absent(fields: &[&[u8]]) -> Option<Answer>
    ensures { result ≡ absent_in (map (λ x. x.now) fields.now) }
{
    if fields.len() == 1 {
        Some(Answer::Absent)
    } else {
        None
    }
}

/// `bytes V NAME HEX`.
fn found(alloc: Global, fields: &[&[u8]]) -> Result<Result<Answer, Fault>, AllocError>
    ensures { IfOk result (λ answer. answer ≡ found_in (map (λ x. x.now) fields.now)) }
{
    if fields.len() != 4 {
        return Ok(Err(Fault::Bad(Why::Answer)));
    }
    let Some((version, name)) = versioned(alloc, fields)? else {
        return Ok(Err(Fault::Bad(Why::Answer)));
    };
    match bytes(alloc, Why::Answer, field_at(fields, 3))? {
        Ok(bytes) => Ok(Ok(Answer::Bytes {
            version,
            name,
            bytes,
        })),
        Err(fault) => Ok(Err(fault)),
    }
}

/// `incomplete V NAME FATES`.
fn incomplete(alloc: Global, fields: &[&[u8]]) -> Result<Option<Answer>, AllocError>
    ensures { IfOk result (λ answer. answer ≡ incomplete_in (map (λ x. x.now) fields.now)) }
{
    if fields.len() != 4 {
        return Ok(None);
    }
    let Some((version, name)) = versioned(alloc, fields)? else {
        return Ok(None);
    };
    match fates(alloc, field_at(fields, 3))? {
        Some(fates) => Ok(Some(Answer::Incomplete {
            version,
            name,
            fates,
        })),
        None => Ok(None),
    }
}

/// `gone V NAME`.
fn gone(alloc: Global, fields: &[&[u8]]) -> Result<Option<Answer>, AllocError>
    ensures { IfOk result (λ answer. answer ≡ gone_in (map (λ x. x.now) fields.now)) }
{
    if fields.len() != 3 {
        return Ok(None);
    }
    match versioned(alloc, fields)? {
        Some((version, name)) => Ok(Some(Answer::Gone { version, name })),
        None => Ok(None),
    }
}

/// `held noolder`, `held notwhole FATES`.
fn held(alloc: Global, fields: &[&[u8]]) -> Result<Option<Answer>, AllocError>
    ensures { IfOk result (λ answer. answer ≡ held_in (map (λ x. x.now) fields.now)) }
{
    if fields.len() == 2 && field_at(fields, 1) == b"noolder".as_slice() {
        return Ok(Some(Answer::Held {
            why: HeldWhy::NoOlder,
        }));
    }
    if fields.len() != 3 || field_at(fields, 1) != b"notwhole".as_slice() {
        return Ok(None);
    }
    match fates(alloc, field_at(fields, 2))? {
        Some(fates) => Ok(Some(Answer::Held {
            why: HeldWhy::NotWhole { fates },
        })),
        None => Ok(None),
    }
}

/// Why a put or delete ended without knowing.
fn unsure(fields: &[&[u8]]) -> Option<UnsureWhy>
    ensures { result ≡ unsure_in (map (λ x. x.now) fields.now) }
{
    unsure_by(field_at(fields, 1), fields_from(fields, 1))
}

/// The same, by the first of these fields.
fn unsure_by(word: &[u8], fields: &[&[u8]]) -> Option<UnsureWhy>
    ensures { result ≡ unsure_by word.now (map (λ x. x.now) fields.now) }
{
    if word == b"noquorum".as_slice() {
        let (phase, heard) = no_quorum(fields)?;
        Some(UnsureWhy::NoQuorum { phase, heard })
    } else if word == b"contended".as_slice() {
        let met = count_alone(fields)?;
        Some(UnsureWhy::Contended { met })
    } else if word == b"trimmed".as_slice() {
        let floor = version_alone(fields)?;
        Some(UnsureWhy::Trimmed { floor })
    } else {
        None
    }
}

/// `noquorum PHASE HEARD`.
fn no_quorum(fields: &[&[u8]]) -> Option<(Phase, u32)>
    ensures { result ≡ no_quorum_in (map (λ x. x.now) fields.now) }
{
    if fields.len() != 3 {
        return None;
    }
    let phase = phase(field_at(fields, 1))?;
    let heard = number(field_at(fields, 2))?;
    Some((phase, heard))
}

fn phase(word: &[u8]) -> Option<Phase>
    ensures { result ≡ phase_in word.now }
{
    if word == b"look".as_slice() {
        Some(Phase::Look)
    } else if word == b"fast".as_slice() {
        Some(Phase::Fast)
    } else if word == b"prepare".as_slice() {
        Some(Phase::Prepare)
    } else if word == b"accept".as_slice() {
        Some(Phase::Accept)
    } else if word == b"trim".as_slice() {
        Some(Phase::Trim)
    } else {
        None
    }
}

/// A version, from 1 on.
pub fn version(field: &[u8]) -> Option<Version>
    ensures { result ≡ version_in field.now }
{
    let version = positive_below(field, VERSIONS)?;
    Some(Version(version))
}

/// The one version of an answer.
fn version_alone(fields: &[&[u8]]) -> Option<Version>
    ensures { result ≡ version_alone (map (λ x. x.now) fields.now) }
{
    if fields.len() == 2 {
        version(field_at(fields, 1))
    } else {
        None
    }
}

/// The latest version, which may be none.
fn latest_alone(fields: &[&[u8]]) -> Option<Version>
    ensures { result ≡ latest_alone (map (λ x. x.now) fields.now) }
{
    if fields.len() != 2 {
        return None;
    }
    let latest = number_below(field_at(fields, 1), VERSIONS)?;
    Some(Version(latest))
}

/// The one count of an answer.
fn count_alone(fields: &[&[u8]]) -> Option<u32>
    ensures { result ≡ count_alone (map (λ x. x.now) fields.now) }
{
    if fields.len() == 2 {
        number(field_at(fields, 1))
    } else {
        None
    }
}

/// A version and a count.
fn version_and_count(fields: &[&[u8]]) -> Option<(Version, u32)>
    ensures { result ≡ version_and_count (map (λ x. x.now) fields.now) }
{
    if fields.len() != 3 {
        return None;
    }
    let version = version(field_at(fields, 1))?;
    let count = number(field_at(fields, 2))?;
    Some((version, count))
}

/// A version and the name of its value.
fn versioned(alloc: Global, fields: &[&[u8]]) -> Result<Option<(Version, PutName)>, AllocError>
    ensures { IfOk result (λ read. read ≡ versioned (map (λ x. x.now) fields.now)) }
{
    let Some(version) = version(field_at(fields, 1)) else {
        return Ok(None);
    };
    match name(alloc, field_at(fields, 2))? {
        Some(name) => Ok(Some((version, name))),
        None => Ok(None),
    }
}

/// A letter for each fragment: 1 to 16 of them.
fn fates(alloc: Global, field: &[u8]) -> Result<Option<Fates>, AllocError>
    ensures { IfOk result (λ fates. fates ≡ fates_in field.now) }
{
    let fates = fates_among(alloc, field)?;
    if fates.len() == field.len() {
        Ok(fates_within(fates))
    } else {
        Ok(None)
    }
}

fn fates_within(fates: Vec<Fate>) -> Option<Fates>
    ensures { result ≡ fates_within fates.items }
{
    Fates::new(fates)
}

/// The fates among letters.
fn fates_among(alloc: Global, field: &[u8]) -> Result<Vec<Fate>, AllocError>
    ensures { IfOk result (λ fates. fates.items ≡ filter_map fate_in field.now) }
{
    let mut fates = Vec::new(alloc);
    for letter in field {
        if let Some(fate) = fate(*letter) {
            fates.push(fate)?;
        }
    }
    Ok(fates)
}

fn fate(letter: u8) -> Option<Fate>
    ensures { result ≡ fate_in letter }
{
    match letter {
        b'W' => Some(Fate::Whole),
        b'D' => Some(Fate::Damaged),
        b'M' => Some(Fate::Missing),
        b'G' => Some(Fate::GivenUp),
        b'F' => Some(Fate::Failed),
        _ => None,
    }
}
