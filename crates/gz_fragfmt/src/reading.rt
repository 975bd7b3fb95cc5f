//! Fragment records are read from left to right. Each reader answers its field and the bytes after it, or the first fault.
ghost use Rattle.std.specs.Prelude.{◌≡◌, ◌+◌, ◌^◌, ◌<◌, ◌≤◌, length, Ok, IfOk, IfSome};
ghost use Rattle.std.specs.Int.{div_ceil};
ghost use Rattle.gz_fragfmt.specs.Fragments.{FragmentAt, IsFragment, parts_at};
ghost use Rattle.gz_fragfmt.specs.Spelling.{spelling};
ghost use Rattle.gz_fragfmt.specs.Reading.{Gives, MayGive, magic_at, bad_place, key_bytes_at, key_at, m_at, piece_at, rest_at, fragment_in};

use crate::errors::FragError;
use crate::fragments::{Fragment, Parts};
use gz_bytes::{byte_of, bytes_of, data_of, length_of, name_of, parity_of};
use gz_core::keys::is_key_byte;
use gz_core::{Items, Key, PutName, Session};
use std::alloc::{AllocError, Global};

/// What each record begins with.
pub(crate) const MAGIC: [u8; 4] = *b"GZF1";

#[tactic(auto, unfolding(crate::specs::Reading::magic_at))]
fn magic_of(bytes: &[u8]) -> Result<&[u8], FragError>
    ensures { Gives (λ x. x.now) result (magic_at bytes.now) }
{
    let (front, rest) = bytes_of(MAGIC.len(), 0, bytes)?;
    if front != MAGIC.as_slice() {
        return Err(FragError::Magic { at: 0 });
    }
    Ok(rest)
}

/// The place of the first byte that may not stand in a key.
fn bad_in(bytes: &[u8]) -> Option<usize>
    ensures place { result ≡ bad_place bytes.now }
    ensures within { IfSome result (λ i. i < length bytes.now) }
{
    bytes.iter().position(|byte| !is_key_byte(*byte))
}

/// The bytes of a key, which is whole before they are tried.
#[tactic(auto, unfolding(crate::specs::Reading::key_bytes_at))]
fn key_bytes_of(count: usize, at: usize, bytes: &[u8]) -> Result<(&[u8], &[u8]), FragError>
    requires { at + count < 2 ^ 64 }
    ensures gives { Gives (λ x. (x.0.now, x.1.now)) result (key_bytes_at count at bytes.now) }
    ensures long { IfOk result (λ x. length x.0.now ≡ count) }
{
    let (key, rest) = bytes_of(count, at, bytes)?;
    match bad_in(key) {
        None => Ok((key, rest)),
        Some(i) => Err(FragError::Field { at: at + i }),
    }
}

/// The key, with its length before it.
#[tactic(auto, unfolding(crate::specs::Reading::key_at))]
fn key_of(bytes: &[u8]) -> Result<(&[u8], &[u8]), FragError>
    ensures gives { Gives (λ x. (x.0.now, x.1.now)) result (key_at bytes.now) }
    ensures short { IfOk result (λ x. length x.0.now ≤ 255) }
{
    let (count, rest) = byte_of(4, bytes)?;
    if count == 0 {
        return Err(FragError::Field { at: 4 });
    }
    key_bytes_of(count as usize, 5, rest)
}

/// The number of parity pieces: with that of data pieces it is above the index.
#[tactic(auto, unfolding(crate::specs::Reading::m_at))]
fn m_of(at: usize, index: u8, k: u8, bytes: &[u8]) -> Result<(u8, &[u8]), FragError>
    ensures { Gives (λ x. (x.0, x.1.now)) result (m_at at index k bytes.now) }
{
    let (m, rest) = parity_of(at, k, bytes)?;
    if k + m <= index {
        return Err(FragError::Field { at });
    }
    Ok((m, rest))
}

/// The piece, with which the bytes end.
#[tactic(auto, unfolding(crate::specs::Reading::piece_at))]
fn piece_of(at: usize, width: usize, bytes: &[u8]) -> Result<&[u8], FragError>
    requires { at + width < 2 ^ 64 }
    ensures { Gives (λ x. x.now) result (piece_at at width bytes.now) }
{
    let (piece, rest) = bytes_of(width, at, bytes)?;
    if !rest.is_empty() {
        return Err(FragError::Trailing { at: at + width });
    }
    Ok(piece)
}

/// What stands after the key.
#[tactic(auto, unfolding(crate::specs::Reading::rest_at))]
fn rest_of<'a>(key: &'a [u8], at: usize, bytes: &'a [u8]) -> Result<Parts<'a>, FragError>
    requires { at < 2 ^ 32 }
    ensures { Gives parts_at result (rest_at key.now at bytes.now) }
{
    let ((session, seq), rest) = name_of(at, bytes)?;
    let (index, rest) = byte_of(at + 8, rest)?;
    let (k, rest) = data_of(at + 9, rest)?;
    let (m, rest) = m_of(at + 10, index, k, rest)?;
    let (length, rest) = length_of(at + 11, rest)?;
    let piece = piece_of(at + 15, length.div_ceil(k as u32) as usize, rest)?;
    Ok(Parts {
        key,
        session,
        seq,
        index,
        k,
        m,
        length,
        piece,
    })
}

#[tactic(auto, unfolding(crate::specs::Reading::fragment_in))]
fn parts_of(bytes: &[u8]) -> Result<Parts<'_>, FragError>
    ensures { Gives parts_at result (fragment_in bytes.now) }
{
    let rest = magic_of(bytes)?;
    let (key, rest) = key_of(rest)?;
    rest_of(key, 5 + key.len(), rest)
}

/// The parts of the fragment record that these bytes are, all of them. Takes no memory.
pub fn read_fragment(bytes: &[u8]) -> Result<Parts<'_>, FragError>
    // What is read is a fragment that is spelled so.
    ensures found { IfOk result (λ p. IsFragment (parts_at p) × (bytes.now ≡ spelling (parts_at p))) }
    // A fragment that is spelled so is read.
    ensures only { (f : FragmentAt) → IsFragment f → bytes.now ≡ spelling f → Gives parts_at result (Ok f) }
    // Which fault it is: the first one.
    ensures exact { Gives parts_at result (fragment_in bytes.now) }
{
    parts_of(bytes)
}

/// The fragment of the parts.
fn fragment_of(alloc: Global, parts: &Parts<'_>) -> Result<Fragment, AllocError>
    requires { IsFragment (parts_at parts.now) }
    ensures { IfOk result (λ f. f ≡ parts_at parts.now) }
{
    let Some(key) = Key::new(Vec::from_slice(alloc, parts.key)?) else {
        unreachable!()
    };
    let name = PutName {
        session: Session(parts.session),
        seq: parts.seq,
    };
    Ok(Fragment {
        key,
        name,
        index: parts.index,
        k: parts.k,
        m: parts.m,
        length: parts.length,
        piece: Items::from_slice(alloc, parts.piece)?,
    })
}

/// The fragment whose record these bytes are, all of them.
pub fn decode_fragment(alloc: Global, bytes: &[u8]) -> Result<Fragment, FragError>
    // What is read is a fragment that is spelled so.
    ensures found { IfOk result (λ f. IsFragment f × (bytes.now ≡ spelling f)) }
    // A fragment that is spelled so is read, unless memory runs out.
    ensures only { (f : FragmentAt) → IsFragment f → bytes.now ≡ spelling f → MayGive result (Ok f) }
    // Which fault it is: the first one.
    ensures exact { MayGive result (fragment_in bytes.now) }
{
    let parts = read_fragment(bytes)?;
    Ok(fragment_of(alloc, &parts)?)
}
