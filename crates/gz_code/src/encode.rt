//! An object into its pieces.
ghost use Rattle.std.specs.Prelude.{◌≡◌, ℕ, ◌+◌, ◌*◌, ◌<◌, ◌≤◌, [], length, map, take, slice_index, slice_index_or, All, IfOk};
ghost use Rattle.gz_lanes.specs.Combination.{contents};
ghost use Rattle.gz_code.specs.CodeWord.{IsSplit, piece_width};
ghost use Rattle.gz_code.specs.Interpolation.{rows, AreAllValues};
ghost use Rattle.gz_code.specs.Encoding.{IsPadded, AreDataPieces, AreDataSlices, AreNumbers, AreParity};

use crate::interpolate::{Kernel, copies_and_pieces_at, pieces_at};
use std::alloc::{AllocError, Global};

/// The bytes with zeros after them, up to the width.
fn padded(alloc: Global, bytes: &[u8], width: usize) -> Result<Vec<u8>, AllocError>
    requires { length bytes.now ≤ width }
    ensures { IfOk result (λ piece. IsPadded bytes.now width piece.items) }
{
    let mut piece = Vec::with_capacity(alloc, width)?;
    piece.extend_from_slice(bytes)?;
    for i in bytes.len()..width {
        piece.push(0)?;
    }
    Ok(piece)
}

/// The object cut into `count` pieces of the given width, with zeros after it.
fn data_pieces(
    alloc: Global,
    count: usize,
    width: usize,
    object: &[u8],
) -> Result<Vec<Vec<u8>>, AllocError>
    ensures { IfOk result (λ pieces. AreDataPieces object.now width count (rows pieces)) }
{
    let mut pieces = Vec::with_capacity(alloc, count)?;
    for j in 0..count {
        let from = j.saturating_mul(width).min(object.len());
        let len = width.min(object.len() - from);
        pieces.push(padded(alloc, &object[from..from + len], width)?)?;
    }
    Ok(pieces)
}

/// The points from one number on, as many as are asked for.
fn points_from(alloc: Global, first: usize, count: usize) -> Result<Vec<u8>, AllocError>
    requires { first + count ≤ 256 }
    ensures { IfOk result (λ points. AreNumbers first count points.items) }
{
    let mut points = Vec::with_capacity(alloc, count)?;
    for i in 0..count {
        points.push((first + i) as u8)?;
    }
    Ok(points)
}

/// The bytes of each piece.
pub(crate) fn slices_of<'a>(
    alloc: Global,
    pieces: &'a [Vec<u8>],
) -> Result<Vec<&'a [u8]>, AllocError>
    ensures { IfOk result (λ slices. contents slices.items ≡ map (λ piece. piece.items) pieces.now) }
{
    let mut slices = Vec::with_capacity(alloc, pieces.len())?;
    for piece in pieces {
        slices.push(piece.as_slice())?;
    }
    Ok(slices)
}

/// The parity pieces to the data pieces, by the plain bodies.
fn parity_pieces(
    alloc: Global,
    m: usize,
    width: usize,
    firsts: &[Vec<u8>],
) -> Result<Vec<Vec<u8>>, AllocError>
    requires within_field { length firsts.now + m ≤ 256 }
    requires widths { (j : ℕ) → j < length firsts.now → length (slice_index_or (map (λ piece. piece.items) firsts.now) j []) ≡ width }
    ensures { IfOk result (λ parity. AreParity (map (λ piece. piece.items) firsts.now) width m (rows parity)) }
{
    let points = points_from(alloc, 0, firsts.len())?;
    let targets = points_from(alloc, firsts.len(), m)?;
    let sources = slices_of(alloc, firsts)?;
    pieces_at(alloc, Kernel::Plain, &points, &sources, width, &targets)
}

/// The pieces of an object by the plain bodies: the data pieces, and then the parity pieces.
fn split_in_passes(
    alloc: Global,
    k: usize,
    m: usize,
    bytes: &[u8],
) -> Result<Vec<Vec<u8>>, AllocError>
    requires at_least_one { 1 ≤ k }
    requires within_field { k + m ≤ 256 }
    ensures { IfOk result (λ pieces. IsSplit k m bytes.now (rows pieces)) }
{
    let width = bytes.len().div_ceil(k);
    let mut pieces = data_pieces(alloc, k, width, bytes)?;
    let mut parity = parity_pieces(alloc, m, width, &pieces)?;
    pieces.append(&mut parity)?;
    Ok(pieces)
}

/// How many of k pieces lie whole in an object.
fn whole_pieces(k: usize, len: usize, width: usize) -> usize
    ensures few { result ≤ k }
    ensures within { result * width ≤ len }
{
    if width == 0 {
        return 0;
    }
    (len / width).min(k)
}

/// The slices of the first `count` pieces, which lie whole in the object.
fn slices_within<'a>(
    alloc: Global,
    count: usize,
    width: usize,
    object: &'a [u8],
) -> Result<Vec<&'a [u8]>, AllocError>
    requires { count * width ≤ length object.now }
    ensures { IfOk result (λ slices. AreDataPieces object.now width count (contents slices.items)) }
{
    let mut slices = Vec::with_capacity(alloc, count)?;
    for j in 0..count {
        let from = j * width;
        slices.push(&object[from..from + width])?;
    }
    Ok(slices)
}

/// The slices of all data pieces: of those that lie whole in the object, and of the others.
fn data_slices<'a>(
    alloc: Global,
    whole: usize,
    width: usize,
    object: &'a [u8],
    rest: &'a [Vec<u8>],
) -> Result<Vec<&'a [u8]>, AllocError>
    requires { whole * width ≤ length object.now }
    ensures { IfOk result (λ slices. AreDataSlices object.now width whole (map (λ piece. piece.items) rest.now) (contents slices.items)) }
{
    let mut slices = slices_within(alloc, whole, width, object)?;
    let mut others = slices_of(alloc, rest)?;
    slices.append(&mut others)?;
    Ok(slices)
}

/// Copies of the first `count` data pieces, and the parity pieces to all of them.
fn copies_and_parity(
    alloc: Global,
    count: usize,
    m: usize,
    width: usize,
    sources: &[&[u8]],
) -> Result<(Vec<Vec<u8>>, Vec<Vec<u8>>), AllocError>
    requires within_field { length sources.now + m ≤ 256 }
    requires counted { count ≤ length sources.now }
    requires widths { All (λ source. length source ≡ width) (contents sources.now) }
    ensures copies { IfOk result (λ both. rows both.0 ≡ take count (contents sources.now)) }
    ensures parity { IfOk result (λ both. AreParity (contents sources.now) width m (rows both.1)) }
{
    let points = points_from(alloc, 0, sources.len())?;
    let targets = points_from(alloc, sources.len(), m)?;
    copies_and_pieces_at(alloc, &points, sources, count, width, &targets)
}

/// The k + m pieces of an object, of which any k give it back: each has the object's length divided by k, rounded up,
/// and the first k are the object with zeros after it.
pub fn split(alloc: Global, k: usize, m: usize, bytes: &[u8]) -> Result<Vec<Vec<u8>>, AllocError>
    requires at_least_one { 1 ≤ k }
    requires within_field { k + m ≤ 256 }
    ensures { IfOk result (λ pieces. IsSplit k m bytes.now (rows pieces)) }
{
    let width = bytes.len().div_ceil(k);
    let whole = whole_pieces(k, bytes.len(), width);
    let mut rest = data_pieces(alloc, k - whole, width, &bytes[whole * width..])?;
    let sources = data_slices(alloc, whole, width, bytes, &rest)?;
    let (mut pieces, mut parity) = copies_and_parity(alloc, whole, m, width, &sources)?;
    drop(sources);
    pieces.append(&mut rest)?;
    pieces.append(&mut parity)?;
    Ok(pieces)
}

/// The same as `split`, byte by byte with one look-up for each product: the program that `split` is compared with.
pub fn split_plainly(
    alloc: Global,
    k: usize,
    m: usize,
    bytes: &[u8],
) -> Result<Vec<Vec<u8>>, AllocError>
    requires at_least_one { 1 ≤ k }
    requires within_field { k + m ≤ 256 }
    ensures { IfOk result (λ pieces. IsSplit k m bytes.now (rows pieces)) }
{
    split_in_passes(alloc, k, m, bytes)
}
