//! The fields that rows and fragments share: a put's name, its object's length, and the numbers of its fragments.
ghost use Rattle.std.specs.Prelude.{◌≡◌, ◌+◌, ◌≤◌, length, IfOk};
ghost use Rattle.gz_bytes.specs.Steps.{Gives};
ghost use Rattle.gz_bytes.specs.Fields.{name_at, length_at, data_at, parity_at};

use crate::faults::Fault;
use crate::numbers::{byte_of, u32_of};
use gz_core::values::MOST_OBJECT_BYTES;

/// The most fragments of an object.
const MOST_FRAGMENTS: u16 = 16;

/// The session and the number of a put's or delete's name, both at least 1: one field, which is whole before its numbers are tried.
#[tactic(auto, unfolding(crate::specs::Fields::name_at))]
pub fn name_of(at: usize, bytes: &[u8]) -> Result<((u32, u32), &[u8]), Fault>
    ensures gives { Gives (λ x. (record { session = x.0.0; seq = x.0.1 }, x.1.now)) result (name_at at bytes.now) }
    ensures positive { IfOk result (λ x. (1 ≤ x.0.0) × (1 ≤ x.0.1)) }
    ensures left { IfOk result (λ x. 8 + length x.1.now ≡ length bytes.now) }
{
    let (session, rest) = u32_of(at, bytes)?;
    let (seq, rest) = u32_of(at, rest)?;
    if session == 0 || seq == 0 {
        return Err(Fault::Wrong { at });
    }
    Ok(((session, seq), rest))
}

/// The length of an object.
#[tactic(auto, unfolding(crate::specs::Fields::length_at))]
pub fn length_of(at: usize, bytes: &[u8]) -> Result<(u32, &[u8]), Fault>
    ensures gives { Gives (λ x. (x.0, x.1.now)) result (length_at at bytes.now) }
    ensures bounded { IfOk result (λ x. x.0 ≤ 1048576) }
    ensures left { IfOk result (λ x. 4 + length x.1.now ≡ length bytes.now) }
{
    let (length, rest) = u32_of(at, bytes)?;
    if MOST_OBJECT_BYTES < length as usize {
        return Err(Fault::Wrong { at });
    }
    Ok((length, rest))
}

/// The number of an object's data fragments, at least 1.
#[tactic(auto, unfolding(crate::specs::Fields::data_at))]
pub fn data_of(at: usize, bytes: &[u8]) -> Result<(u8, &[u8]), Fault>
    ensures gives { Gives (λ x. (x.0, x.1.now)) result (data_at at bytes.now) }
    ensures positive { IfOk result (λ x. 1 ≤ x.0) }
    ensures left { IfOk result (λ x. 1 + length x.1.now ≡ length bytes.now) }
{
    let (k, rest) = byte_of(at, bytes)?;
    if k == 0 {
        return Err(Fault::Wrong { at });
    }
    Ok((k, rest))
}

/// The number of its parity fragments: with `k` data fragments there are at most 16.
#[tactic(auto, unfolding(crate::specs::Fields::parity_at))]
pub fn parity_of(at: usize, k: u8, bytes: &[u8]) -> Result<(u8, &[u8]), Fault>
    ensures gives { Gives (λ x. (x.0, x.1.now)) result (parity_at at k bytes.now) }
    ensures few { IfOk result (λ x. k + x.0 ≤ 16) }
    ensures left { IfOk result (λ x. 1 + length x.1.now ≡ length bytes.now) }
{
    let (m, rest) = byte_of(at, bytes)?;
    if MOST_FRAGMENTS < k as u16 + m as u16 {
        return Err(Fault::Wrong { at });
    }
    Ok((m, rest))
}
