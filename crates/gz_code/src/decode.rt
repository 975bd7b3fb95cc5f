//! Pieces back into their object.
ghost use Rattle.std.specs.Prelude.{◌≡◌, ◌≢◌, ◌⊎◌, ℕ, ◌+◌, ◌*◌, ◌^◌, ◌<◌, ◌≤◌, List, length, map, slice_index, All, IfOk, IfErr, OnOk, ◌++◌, ◌∷◌, [], MatchResult, MatchOption};
ghost use Rattle.gz_lanes.specs.Combination.{contents};
ghost use Rattle.gz_code.specs.CodeWord.{IsSplit, piece_width};
ghost use Rattle.gz_code.specs.Decoding.{Given, index_at, IsFirst, IsBeyond, IsRepeated, IsMisfit, Nowhere, IsRefused, IsDecoded, AreAmong, IsPlaced, IsLocated, IsAssembled, AreIndices, AreSlices, AreAtHand};

use crate::encode::slices_of;
use crate::error::CodeError;
use crate::interpolate::{Kernel, pieces_at};
use std::alloc::{AllocError, Global};

/// Whether each index is below the number of pieces.
fn check_indices(count: usize, pieces: &[(usize, Vec<u8>)]) -> Result<(), CodeError>
    ensures { MatchResult result (λ _. Nowhere (IsBeyond count pieces.now) pieces.now) (λ e. (place : ℕ) × IsFirst (IsBeyond count pieces.now) (length pieces.now) place × (e ≡ CodeError.Index (index_at pieces.now place))) }
{
    for (index, _) in pieces {
        if *index >= count {
            return Err(CodeError::Index { index: *index });
        }
    }
    Ok(())
}

/// Whether no index was given before.
fn check_repeats(pieces: &[(usize, Vec<u8>)]) -> Result<(), CodeError>
    requires { Nowhere (IsBeyond 256 pieces.now) pieces.now }
    ensures { MatchResult result (λ _. Nowhere (IsRepeated pieces.now) pieces.now) (λ e. (place : ℕ) × IsFirst (IsRepeated pieces.now) (length pieces.now) place × (e ≡ CodeError.Repeated (index_at pieces.now place))) }
{
    let mut seen = [false; 256];
    for (index, _) in pieces {
        if seen[*index] {
            return Err(CodeError::Repeated { index: *index });
        }
        seen[*index] = true;
    }
    Ok(())
}

/// Whether each piece has the width.
fn check_widths(width: usize, pieces: &[(usize, Vec<u8>)]) -> Result<(), CodeError>
    ensures { MatchResult result (λ _. Nowhere (IsMisfit width pieces.now) pieces.now) (λ e. (place : ℕ) × IsFirst (IsMisfit width pieces.now) (length pieces.now) place × (e ≡ CodeError.Width (index_at pieces.now place))) }
{
    for (index, piece) in pieces {
        if piece.len() != width {
            return Err(CodeError::Width { index: *index });
        }
    }
    Ok(())
}

/// Whether the pieces are enough of those that an object of `len` bytes has.
fn check(k: usize, m: usize, len: usize, pieces: &[(usize, Vec<u8>)]) -> Result<(), CodeError>
    requires at_least_one { 1 ≤ k }
    requires within_field { k + m ≤ 256 }
    ensures accepted { IfOk result (λ _. Nowhere (IsBeyond (k + m) pieces.now) pieces.now × Nowhere (IsRepeated pieces.now) pieces.now × Nowhere (IsMisfit (piece_width k len) pieces.now) pieces.now × (k ≤ length pieces.now)) }
    ensures refused { IfErr result (IsRefused k m len pieces.now) }
{
    check_indices(k + m, pieces)?;
    check_repeats(pieces)?;
    check_widths(len.div_ceil(k), pieces)?;
    if pieces.len() < k {
        return Err(CodeError::TooFew {
            have: pieces.len(),
            need: k,
        });
    }
    Ok(())
}

/// The place of a point.
fn place_of(points: &[u8], point: u8) -> Option<usize>
    ensures { MatchOption result ((i : ℕ) → i < length points.now → slice_index points.now i ≢ point) (λ i. (i < length points.now) × (slice_index points.now i ≡ point)) }
{
    for (i, other) in points.iter().enumerate() {
        if *other == point {
            return Some(i);
        }
    }
    None
}

/// The place of a point, which is added where it is missing.
fn place_or_add(points: &mut Vec<u8>, point: u8) -> Result<usize, AllocError>
    ensures { IfOk result (IsPlaced points.old.items points.new.items point) }
{
    if let Some(place) = place_of(points, point) {
        return Ok(place);
    }
    let place = points.len();
    points.push(point)?;
    Ok(place)
}

/// The places of the first `count` points; those that are missing are added.
fn locate(alloc: Global, count: usize, points: &mut Vec<u8>) -> Result<Vec<usize>, AllocError>
    requires { count ≤ 256 }
    ensures { IfOk result (λ order. IsLocated points.old.items points.new.items count order.items) }
{
    let mut order = Vec::with_capacity(alloc, count)?;
    for j in 0..count {
        let place = place_or_add(points, j as u8)?;
        order.push(place)?;
    }
    Ok(order)
}

/// The indices of the first `count` pieces.
fn indices_of(
    alloc: Global,
    count: usize,
    pieces: &[(usize, Vec<u8>)],
) -> Result<Vec<u8>, AllocError>
    requires enough { count ≤ length pieces.now }
    requires below { Nowhere (IsBeyond 256 pieces.now) pieces.now }
    ensures { IfOk result (λ points. AreIndices pieces.now count points.items) }
{
    let mut points = Vec::with_capacity(alloc, count)?;
    for i in 0..count {
        let (index, _) = &pieces[i];
        points.push(*index as u8)?;
    }
    Ok(points)
}

/// Adds a slice at the end.
fn push_slice<'a>(slices: &mut Vec<&'a [u8]>, slice: &'a [u8]) -> Result<(), AllocError>
    ensures added { OnOk result (contents slices.new.items ≡ contents slices.old.items ++ slice.now ∷ []) }
    ensures are_bytes { (place : ℕ) → slice_index slice.now place < 256 }
{
    slices.push(slice)?;
    Ok(())
}

/// The bytes of the first `count` pieces.
fn slices_given<'a>(
    alloc: Global,
    count: usize,
    pieces: &'a [(usize, Vec<u8>)],
) -> Result<Vec<&'a [u8]>, AllocError>
    requires { count ≤ length pieces.now }
    ensures { IfOk result (λ slices. AreSlices pieces.now count (contents slices.items)) }
{
    let mut slices = Vec::with_capacity(alloc, count)?;
    for i in 0..count {
        let (_, piece) = &pieces[i];
        push_slice(&mut slices, piece.as_slice())?;
    }
    Ok(slices)
}

/// The first bytes, as many as `len`, of the pieces in their order.
fn assemble(
    alloc: Global,
    order: &[usize],
    pieces: &[&[u8]],
    width: usize,
    len: usize,
) -> Result<Vec<u8>, AllocError>
    requires ordered { (j : ℕ) → j < length order.now → slice_index order.now j < length pieces.now }
    requires widths { All (λ piece. length piece ≡ width) (contents pieces.now) }
    ensures { IfOk result (λ object. IsAssembled order.now (contents pieces.now) width (length order.now) len object.items) }
{
    let mut object = Vec::with_capacity(alloc, len)?;
    for j in 0..order.len() {
        let piece = pieces[order[j]];
        let count = width.min(len - object.len());
        object.extend_from_slice(&piece[..count])?;
    }
    Ok(object)
}

/// The bytes of the first `count` pieces, and of the recovered ones.
fn slices_at_hand<'a>(
    alloc: Global,
    count: usize,
    pieces: &'a [(usize, Vec<u8>)],
    recovered: &'a [Vec<u8>],
) -> Result<Vec<&'a [u8]>, AllocError>
    requires { count ≤ length pieces.now }
    ensures { IfOk result (λ slices. AreAtHand pieces.now count (map (λ piece. piece.items) recovered.now) (contents slices.items)) }
{
    let mut slices = slices_given(alloc, count, pieces)?;
    let mut others = slices_of(alloc, recovered)?;
    slices.append(&mut others)?;
    Ok(slices)
}

/// The object of `len` bytes from the first k pieces, which all have the width.
fn rebuild(
    alloc: Global,
    k: usize,
    len: usize,
    width: usize,
    pieces: &[(usize, Vec<u8>)],
) -> Result<Vec<u8>, AllocError>
    requires at_least_one { 1 ≤ k }
    requires within_field { k ≤ 256 }
    requires enough { k ≤ length pieces.now }
    requires width_is { width ≡ piece_width k len }
    requires below { Nowhere (IsBeyond 256 pieces.now) pieces.now }
    requires distinct { Nowhere (IsRepeated pieces.now) pieces.now }
    requires fitting { Nowhere (IsMisfit width pieces.now) pieces.now }
    ensures { IfOk result (λ object. IsDecoded k len pieces.now object.items) }
{
    let mut points = indices_of(alloc, k, pieces)?;
    let order = locate(alloc, k, &mut points)?;
    let (given, lost) = points.split_at(k);
    let sources = slices_given(alloc, k, pieces)?;
    let recovered = pieces_at(alloc, Kernel::Vector, given, &sources, width, lost)?;
    let at_hand = slices_at_hand(alloc, k, pieces, &recovered)?;
    assemble(alloc, &order, &at_hand, width, len)
}

/// The object of `len` bytes from any k of its k + m pieces, each with its index. Only the first k are used; the others are
/// looked at for faults alone.
pub fn join(
    alloc: Global,
    k: usize,
    m: usize,
    len: usize,
    pieces: &[(usize, Vec<u8>)],
) -> Result<Vec<u8>, CodeError>
    requires at_least_one { 1 ≤ k }
    requires within_field { k + m ≤ 256 }

    // The first fault is refused, and nothing else is; want of memory alone needs no fault.
    ensures refused { (e : CodeError) → IsRefused k m len pieces.now e → result ≡ Err e }
    ensures cause { IfErr result (λ e. (e ≡ CodeError.NoMemory) ⊎ IsRefused k m len pieces.now e) }

    ensures decoded { IfOk result (λ object. IsDecoded k len pieces.now object.items) }
    ensures gives_back { (object : List ℕ) (all : List (List ℕ)) → IsSplit k m object all → length object ≡ len → AreAmong k pieces.now all → IfOk result (λ bytes. bytes.items ≡ object) }
{
    check(k, m, len, pieces)?;
    let object = rebuild(alloc, k, len, len.div_ceil(k), pieces)?;
    Ok(object)
}
