//! Numbers in lines, and lines of a word and a number. None takes memory.
ghost use Rattle.std.specs.Prelude.{◌≡◌, [], map};
ghost use Rattle.gz_lines.specs.Grammar.{number_in, session_in, version_in, number_alone, session_alone, deliver_line, give_up_line, take_line, crash_line, drain_line, settle_by};

use crate::counts::one;
use crate::fields;
use crate::line::Line;
use gz_core::{Items, Session, Version, Why};
use gz_text::Fault;
use std::alloc::Global;

/// A number.
pub fn number(field: &[u8]) -> Result<u32, Fault>
    ensures { result ≡ number_in field.now }
{
    match fields::number(field) {
        Some(number) => Ok(number),
        None => Err(Fault::Bad(Why::Number)),
    }
}

/// A session.
pub fn session(field: &[u8]) -> Result<Session, Fault>
    ensures { result ≡ session_in field.now }
{
    match fields::session(field) {
        Some(session) => Ok(session),
        None => Err(Fault::Bad(Why::Number)),
    }
}

/// A version.
pub fn version(field: &[u8]) -> Result<Version, Fault>
    ensures { result ≡ version_in field.now }
{
    match fields::version(field) {
        Some(version) => Ok(version),
        None => Err(Fault::Bad(Why::Number)),
    }
}

/// The one number of a line.
fn number_alone(fields: &[&[u8]]) -> Result<u32, Fault>
    ensures { result ≡ number_alone (map (λ x. x.now) fields.now) }
{
    match one(fields) {
        Some(field) => number(field),
        None => Err(Fault::Bad(Why::Count)),
    }
}

/// The one session of a line.
fn session_alone(fields: &[&[u8]]) -> Result<Session, Fault>
    ensures { result ≡ session_alone (map (λ x. x.now) fields.now) }
{
    match one(fields) {
        Some(field) => session(field),
        None => Err(Fault::Bad(Why::Count)),
    }
}

/// A request is delivered.
pub fn deliver(fields: &[&[u8]]) -> Result<Line, Fault>
    ensures { result ≡ deliver_line (map (λ x. x.now) fields.now) }
{
    let n = number_alone(fields)?;
    Ok(Line::Deliver { n })
}

/// A request is given up.
pub fn give_up(fields: &[&[u8]]) -> Result<Line, Fault>
    ensures { result ≡ give_up_line (map (λ x. x.now) fields.now) }
{
    let n = number_alone(fields)?;
    Ok(Line::GiveUp { n })
}

/// A request is taken.
pub fn take(fields: &[&[u8]]) -> Result<Line, Fault>
    ensures { result ≡ take_line (map (λ x. x.now) fields.now) }
{
    let n = number_alone(fields)?;
    Ok(Line::Take { n })
}

/// A session crashes.
pub fn crash(fields: &[&[u8]]) -> Result<Line, Fault>
    ensures { result ≡ crash_line (map (λ x. x.now) fields.now) }
{
    let session = session_alone(fields)?;
    Ok(Line::Crash { session })
}

/// A session's requests are delivered.
pub fn drain(fields: &[&[u8]]) -> Result<Line, Fault>
    ensures { result ≡ drain_line (map (λ x. x.now) fields.now) }
{
    let session = session_alone(fields)?;
    Ok(Line::Drain { session })
}

/// A session's call is carried to its end.
pub fn settle_all(alloc: Global, field: &[u8]) -> Result<Line, Fault>
    ensures { result ≡ settle_by (Some field.now) [] }
{
    let session = session(field)?;
    let without = Items::new(alloc);
    Ok(Line::Settle { session, without })
}
