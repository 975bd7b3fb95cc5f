//! The value of a polynomial at one point from its values at others.
ghost use Rattle.std.specs.Prelude.{◌≡◌, ◌≢◌, ℕ, ◌<◌, ◌≤◌, length, take, slice_index, All, IfOk};
ghost use Rattle.gz_lanes.specs.Combination.{contents};
ghost use Rattle.gz_code.specs.Polynomial.{ArePoints};
ghost use Rattle.gz_code.specs.Interpolation.{apart, HasInverses, AreWeights, AreValues, AreAllValues, AreRows, rows};

use gz_field::{add, inv, mul};
use gz_lanes::plain::combine;
use gz_lanes::{CoefficientRow, combine_rows, copy_and_combine};
use std::alloc::{AllocError, Global};

/// The product of the differences of `y` from all points but the one at the place that is left out.
#[tactic(auto, unfolding(crate::specs::Interpolation::apart))]
fn product_of_differences(points: &[u8], left_out: usize, y: u8) -> u8
    ensures { result ≡ apart (slice_index points.now) left_out (length points.now) y }
{
    let mut all = 1;
    for (i, point) in points.iter().enumerate() {
        if i != left_out {
            all = mul(all, add(y, *point));
        }
    }
    all
}

/// At each point's place, the inverse of the product of its differences from the other points.
fn inverses_of(points: &[u8]) -> [u8; 256]
    requires few { length points.now ≤ 256 }
    requires points { ArePoints (length points.now) (slice_index points.now) }
    ensures { HasInverses points.now result (length points.now) }
{
    let mut inverses = [0; 256];
    for j in 0..points.len() {
        inverses[j] = inv(product_of_differences(points, j, points[j]));
    }
    inverses
}

/// The coefficients that give a polynomial's value at the target from its values at the points.
fn weights_of(
    alloc: Global,
    points: &[u8],
    inverses: &[u8; 256],
    target: u8,
) -> Result<Vec<u8>, AllocError>
    requires few { length points.now ≤ 256 }
    requires points { ArePoints (length points.now) (slice_index points.now) }
    requires inverses { HasInverses points.now inverses.now (length points.now) }
    requires elsewhere { (j : ℕ) → j < length points.now → target ≢ slice_index points.now j }
    ensures { IfOk result (λ weights. AreWeights points.now weights.items target) }
{
    let all = product_of_differences(points, points.len(), target);
    let mut weights = Vec::with_capacity(alloc, points.len())?;
    for j in 0..points.len() {
        let others = mul(all, inv(add(target, points[j])));
        weights.push(mul(others, inverses[j]))?;
    }
    Ok(weights)
}

/// One piece of the given width: at each place, the value at the target of the polynomial through the sources there.
fn piece_at(
    alloc: Global,
    points: &[u8],
    inverses: &[u8; 256],
    sources: &[&[u8]],
    width: usize,
    target: u8,
) -> Result<Vec<u8>, AllocError>
    requires few { length points.now ≤ 256 }
    requires points { ArePoints (length points.now) (slice_index points.now) }
    requires inverses { HasInverses points.now inverses.now (length points.now) }
    requires elsewhere { (j : ℕ) → j < length points.now → target ≢ slice_index points.now j }
    requires paired { length sources.now ≡ length points.now }
    requires widths { All (λ source. length source ≡ width) (contents sources.now) }
    ensures { IfOk result (λ piece. AreValues points.now (contents sources.now) width target piece.items) }
{
    let weights = weights_of(alloc, points, inverses, target)?;
    let mut piece = vec![in alloc; 0; width]?;
    combine(&weights, sources, &mut piece);
    Ok(piece)
}

/// The weights for each target, in rows that multiply by them. With no target it does nothing.
fn rows_of(alloc: Global, points: &[u8], targets: &[u8]) -> Result<Vec<CoefficientRow>, AllocError>
    requires few { length points.now ≤ 256 }
    requires points { ArePoints (length points.now) (slice_index points.now) }
    requires elsewhere { (t j : ℕ) → t < length targets.now → j < length points.now → slice_index targets.now t ≢ slice_index points.now j }
    ensures { IfOk result (λ rows. AreRows points.now targets.now (length targets.now) rows.items) }
{
    if targets.is_empty() {
        return Ok(Vec::new(alloc));
    }
    let inverses = inverses_of(points);
    let mut rows = Vec::with_capacity(alloc, targets.len())?;
    for target in targets {
        let weights = weights_of(alloc, points, &inverses, *target)?;
        rows.push(CoefficientRow::new(alloc, weights)?)?;
    }
    Ok(rows)
}

/// A piece for each target, by the plain bodies: the definition's own program, which `pieces_at` is compared with.
fn plain_pieces_at(
    alloc: Global,
    points: &[u8],
    sources: &[&[u8]],
    width: usize,
    targets: &[u8],
) -> Result<Vec<Vec<u8>>, AllocError>
    requires few { length points.now ≤ 256 }
    requires points { ArePoints (length points.now) (slice_index points.now) }
    requires elsewhere { (t j : ℕ) → t < length targets.now → j < length points.now → slice_index targets.now t ≢ slice_index points.now j }
    requires paired { length sources.now ≡ length points.now }
    requires widths { All (λ source. length source ≡ width) (contents sources.now) }
    ensures { IfOk result (λ pieces. AreAllValues points.now (contents sources.now) width targets.now (length targets.now) (rows pieces)) }
{
    let mut pieces = Vec::with_capacity(alloc, targets.len())?;
    let inverses = inverses_of(points);
    for target in targets {
        pieces.push(piece_at(alloc, points, &inverses, sources, width, *target)?)?;
    }
    Ok(pieces)
}

/// The bodies that add and multiply.
#[derive(Clone, Copy)]
pub(crate) enum Kernel {
    Plain,
    Vector,
}

/// A piece for each target, from the sources at the points. With no target it does nothing.
pub(crate) fn pieces_at(
    alloc: Global,
    kernel: Kernel,
    points: &[u8],
    sources: &[&[u8]],
    width: usize,
    targets: &[u8],
) -> Result<Vec<Vec<u8>>, AllocError>
    requires few { length points.now ≤ 256 }
    requires points { ArePoints (length points.now) (slice_index points.now) }
    requires elsewhere { (t j : ℕ) → t < length targets.now → j < length points.now → slice_index targets.now t ≢ slice_index points.now j }
    requires paired { length sources.now ≡ length points.now }
    requires widths { All (λ source. length source ≡ width) (contents sources.now) }
    ensures { IfOk result (λ pieces. AreAllValues points.now (contents sources.now) width targets.now (length targets.now) (rows pieces)) }
{
    if targets.is_empty() {
        return Ok(Vec::new(alloc));
    }
    match kernel {
        Kernel::Plain => plain_pieces_at(alloc, points, sources, width, targets),
        Kernel::Vector => {
            let rows = rows_of(alloc, points, targets)?;
            let pieces = combine_rows(alloc, &rows, sources, width)?;
            Ok(pieces)
        }
    }
}

/// Copies of the first `count` sources, and a piece for each target, from the sources at the points.
pub(crate) fn copies_and_pieces_at(
    alloc: Global,
    points: &[u8],
    sources: &[&[u8]],
    count: usize,
    width: usize,
    targets: &[u8],
) -> Result<(Vec<Vec<u8>>, Vec<Vec<u8>>), AllocError>
    requires few { length points.now ≤ 256 }
    requires points { ArePoints (length points.now) (slice_index points.now) }
    requires elsewhere { (t j : ℕ) → t < length targets.now → j < length points.now → slice_index targets.now t ≢ slice_index points.now j }
    requires paired { length sources.now ≡ length points.now }
    requires widths { All (λ source. length source ≡ width) (contents sources.now) }
    requires counted { count ≤ length sources.now }
    ensures copies { IfOk result (λ both. rows both.0 ≡ take count (contents sources.now)) }
    ensures pieces { IfOk result (λ both. AreAllValues points.now (contents sources.now) width targets.now (length targets.now) (rows both.1)) }
{
    let rows = rows_of(alloc, points, targets)?;
    let both = copy_and_combine(alloc, &rows, sources, count, width)?;
    Ok(both)
}
