//! Values of columns: tombstones, and what puts write.
ghost use Rattle.std.specs.Prelude.{◌≡◌, ◌+◌, ◌^◌, ◌<◌, ◌≤◌, length, IfOk};
ghost use Rattle.gz_bytes.specs.Steps.{Gives};
ghost use Rattle.gz_rowfmt.specs.Reading.{MayGive, site_at, fragment_at, fragments_at, tomb_at, put_at, value_at};

use crate::errors::RowError;
use gz_bytes::{byte_of, bytes_of, data_of, length_of, name_of, parity_of};
use gz_core::{FragRef, Items, PutName, PutValue, Session, SiteId, Value};
use std::alloc::Global;

/// How many bytes a digest has.
const DIGEST_BYTES: usize = 32;

/// The site of a fragment.
#[tactic(auto, unfolding(crate::specs::Reading::site_at))]
fn site_of(at: usize, bytes: &[u8]) -> Result<(u8, &[u8]), RowError>
    ensures gives { Gives (λ x. (x.0, x.1.now)) result (site_at at bytes.now) }
    ensures within { IfOk result (λ x. x.0 < 16) }
    ensures left { IfOk result (λ x. 1 + length x.1.now ≡ length bytes.now) }
{
    let (site, rest) = byte_of(at, bytes)?;
    if site >= SiteId::MOST {
        return Err(RowError::ValueField { at });
    }
    Ok((site, rest))
}

/// The site and the digest of a fragment.
#[tactic(auto, unfolding(crate::specs::Reading::fragment_at))]
fn fragment_of(at: usize, bytes: &[u8]) -> Result<((u8, &[u8]), &[u8]), RowError>
    requires { at + length bytes.now < 2 ^ 64 }
    ensures gives { Gives (λ x. (record { site = x.0.0; digest = x.0.1.now }, x.1.now)) result (fragment_at at bytes.now) }
    ensures within { IfOk result (λ x. x.0.0 < 16) }
    ensures wide { IfOk result (λ x. length x.0.1.now ≡ 32) }
    ensures left { IfOk result (λ x. 33 + length x.1.now ≡ length bytes.now) }
{
    let (site, rest) = site_of(at, bytes)?;
    let (digest, rest) = bytes_of(DIGEST_BYTES, at + 1, rest)?;
    Ok(((site, digest), rest))
}

/// The fragment at a site with a digest.
fn fragment_from(site: u8, digest: &[u8]) -> FragRef
    requires site { site < 16 }
    requires wide { length digest.now ≡ 32 }
    ensures { result ≡ record { site = site; digest = digest.now } }
{
    let mut copy = [0; DIGEST_BYTES];
    copy.copy_from_slice(digest);
    FragRef {
        site: SiteId(site),
        digest: copy,
    }
}

/// So many fragments.
fn fragments_of(
    alloc: Global,
    count: u8,
    at: usize,
    bytes: &[u8],
) -> Result<(Vec<FragRef>, &[u8]), RowError>
    requires { at + length bytes.now < 2 ^ 64 }
    ensures gives { MayGive (λ x. (x.0.items, x.1.now)) result (fragments_at count at bytes.now) }
    ensures count { IfOk result (λ x. length x.0.items ≡ count) }
    ensures left { IfOk result (λ x. length x.1.now ≤ length bytes.now) }
{
    let mut fragments = Vec::new(alloc);
    let mut place = at;
    let mut rest = bytes;
    for _ in 0..count {
        let ((site, digest), after) = fragment_of(place, rest)?;
        fragments.push(fragment_from(site, digest))?;
        place += 33;
        rest = after;
    }
    Ok((fragments, rest))
}

/// A tombstone.
#[tactic(auto, unfolding(crate::specs::Reading::tomb_at))]
fn tomb_of(at: usize, bytes: &[u8]) -> Result<(Value, &[u8]), RowError>
    ensures gives { MayGive (λ x. (x.0, x.1.now)) result (tomb_at at bytes.now) }
    ensures left { IfOk result (λ x. length x.1.now ≤ length bytes.now) }
{
    let ((session, seq), rest) = name_of(at, bytes)?;
    let session = Session(session);
    let name = PutName { session, seq };
    Ok((Value::Tomb { name }, rest))
}

/// What a put writes.
#[tactic(auto, unfolding(crate::specs::Reading::put_at))]
fn put_of(alloc: Global, at: usize, bytes: &[u8]) -> Result<(Value, &[u8]), RowError>
    requires { at + length bytes.now < 2 ^ 64 }
    ensures gives { MayGive (λ x. (x.0, x.1.now)) result (put_at at bytes.now) }
    ensures left { IfOk result (λ x. length x.1.now ≤ length bytes.now) }
{
    let ((session, seq), rest) = name_of(at, bytes)?;
    let (length, rest) = length_of(at + 8, rest)?;
    let (k, rest) = data_of(at + 12, rest)?;
    let (m, rest) = parity_of(at + 13, k, rest)?;
    let (fragments, rest) = fragments_of(alloc, k + m, at + 14, rest)?;
    let session = Session(session);
    let put = PutValue {
        name: PutName { session, seq },
        length,
        k,
        m,
        fragments: Items::from_vec(fragments),
    };
    Ok((Value::Put(put), rest))
}

/// A value.
#[tactic(auto, unfolding(crate::specs::Reading::value_at))]
pub(crate) fn value_of(alloc: Global, at: usize, bytes: &[u8]) -> Result<(Value, &[u8]), RowError>
    requires { at + length bytes.now < 2 ^ 64 }
    ensures gives { MayGive (λ x. (x.0, x.1.now)) result (value_at at bytes.now) }
    ensures left { IfOk result (λ x. length x.1.now ≤ length bytes.now) }
{
    let (kind, rest) = byte_of(at, bytes)?;
    match kind {
        0 => tomb_of(at + 1, rest),
        1 => put_of(alloc, at + 1, rest),
        _ => Err(RowError::ValueField { at }),
    }
}
