//! Four rows at once, where an additive Fourier transform gives them: a quad of sources takes four products in place of 16.
ghost use Rattle.std.specs.Prelude.{◌≡◌, ℕ, ◌+◌, ◌*◌, ◌/◌, ◌<◌, ◌≤◌, length, slice_index, bit_xor, All, IfOk, IfSome, IsTrue};
ghost use Rattle.gz_field.specs.Field.{product};
ghost use Rattle.gz_lanes.specs.Combination.{combination, column, contents};
ghost use Rattle.gz_lanes.specs.Lanes.{HasLanes};
ghost use Rattle.gz_lanes.specs.Quads.{lifted, first_part, second_part, third_part, fourth_part, unit, in_first, in_second, in_third, in_fourth, second_weight, third_weight, fourth_weight, AreQuads};

use crate::lanes::{load, product_by, sum, zeros};
use crate::rows::CoefficientRow;
use gz_field::{add, inv, mul};
use std::alloc::{AllocError, Global};
use std::simd::prelude::*;

/// The first of a pair, lifted, and the sum of both.
fn pair_of(constant: u8, a: u8, b: u8) -> (u8, u8)
    ensures first { result.0 ≡ lifted constant a b }
    ensures second { result.1 ≡ bit_xor a b }
{
    let both = add(a, b);
    (add(a, mul(constant, both)), both)
}

fn unit_at(j: usize, i: usize) -> u8
    ensures { result ≡ unit j i }
{
    if i == j { 1 } else { 0 }
}

/// What each part makes of the source j.
fn parts_of_unit(constants: &[u8], j: usize) -> (u8, u8, u8, u8)
    requires { j / 4 * 3 + 2 < length constants.now }
    ensures first { result.0 ≡ in_first constants.now j }
    ensures second { result.1 ≡ in_second constants.now j }
    ensures third { result.2 ≡ in_third constants.now j }
    ensures fourth { result.3 ≡ in_fourth j }
{
    let q = j / 4;
    let (x, y, z) = (constants[q * 3], constants[q * 3 + 1], constants[q * 3 + 2]);
    let (a, b) = pair_of(x, unit_at(j, q * 4), unit_at(j, q * 4 + 1));
    let (c, d) = pair_of(y, unit_at(j, q * 4 + 2), unit_at(j, q * 4 + 3));
    let (first, third) = pair_of(z, a, c);
    let (second, fourth) = pair_of(z, b, d);
    (first, second, third, fourth)
}

/// The four coefficients at the source j.
fn weights_at(constants: &[u8], j: usize) -> (u8, u8, u8, u8)
    requires { j / 4 * 3 + 2 < length constants.now }
    ensures first { result.0 ≡ in_first constants.now j }
    ensures second { result.1 ≡ second_weight constants.now j }
    ensures third { result.2 ≡ third_weight constants.now j }
    ensures fourth { result.3 ≡ fourth_weight constants.now j }
{
    let (first, second, third, fourth) = parts_of_unit(constants, j);
    let both = add(second, fourth);
    let last = add(add(first, third), mul(2, both));
    (first, add(first, second), last, add(last, both))
}

/// Whether the rows are those of the constants.
fn are_quads(constants: &[u8], a: &[u8], b: &[u8], c: &[u8], d: &[u8]) -> bool
    requires same { (length b.now ≡ length a.now) × (length c.now ≡ length a.now) × (length d.now ≡ length a.now) }
    requires triples { length constants.now ≡ length a.now / 4 * 3 }
    requires quads { length a.now / 4 * 4 ≡ length a.now }
    ensures { IsTrue result → AreQuads constants.now a.now b.now c.now d.now }
{
    for j in 0..a.len() {
        if (a[j], b[j], c[j], d[j]) != weights_at(constants, j) {
            return false;
        }
    }
    true
}

/// a divided by b, or 0 where b is 0.
fn ratio(a: u8, b: u8) -> u8 {
    if b == 0 { 0 } else { mul(a, inv(b)) }
}

/// The only constants that could give the first two rows.
fn constants_of(alloc: Global, a: &[u8], b: &[u8]) -> Result<Vec<u8>, AllocError>
    requires { length b.now ≡ length a.now }
    ensures { IfOk result (λ constants. length constants.items ≡ length a.now / 4 * 3) }
{
    let quads = a.len() / 4;
    let mut constants = Vec::with_capacity(alloc, quads.saturating_mul(3))?;
    for q in 0..quads {
        let z = add(a[q * 4 + 2], b[q * 4 + 2]);
        let x = ratio(a[q * 4 + 1], add(1, z));
        let y = ratio(a[q * 4 + 3], z);
        constants.extend_from_slice(&[x, y, z])?;
    }
    Ok(constants)
}

/// The constants that give the four rows, if there are any.
pub(crate) fn quads_of(
    alloc: Global,
    rows: (
        &CoefficientRow,
        &CoefficientRow,
        &CoefficientRow,
        &CoefficientRow,
    ),
) -> Result<Option<CoefficientRow>, AllocError>
    requires same { (length rows.1.now ≡ length rows.0.now) × (length rows.2.now ≡ length rows.0.now) × (length rows.3.now ≡ length rows.0.now) }
    ensures { IfOk result (λ found. IfSome found (λ constants. AreQuads constants rows.entry.0.now rows.entry.1.now rows.entry.2.now rows.entry.3.now)) }
{
    let a = rows.0.coefficients();
    let b = rows.1.coefficients();
    let c = rows.2.coefficients();
    let d = rows.3.coefficients();
    if !a.len().is_multiple_of(4) {
        return Ok(None);
    }
    let constants = constants_of(alloc, a, b)?;
    if !are_quads(&constants, a, b, c, d) {
        return Ok(None);
    }
    let row = CoefficientRow::new(alloc, constants)?;
    Ok(Some(row))
}

/// The first of each pair, lifted by a constant, and the sum of both.
#[inline(always)]
fn pair(constants: &CoefficientRow, j: usize, a: u8x16, b: u8x16) -> (u8x16, u8x16)
    requires within { j < length constants.now }
    ensures first { HasLanes result.0 (λ k. lifted (slice_index constants.now j) (slice_index a k) (slice_index b k)) }
    ensures second { HasLanes result.1 (λ k. bit_xor (slice_index a k) (slice_index b k)) }
    ensures is_byte { slice_index constants.now j < 256 }
{
    let both = sum(a, b);
    (sum(a, constants.times(j, both)), both)
}

/// The four parts of quad q, at the 16 places from `at` on.
#[inline(always)]
fn parts(
    constants: &CoefficientRow,
    q: usize,
    sources: &[&[u8]],
    at: usize,
) -> (u8x16, u8x16, u8x16, u8x16)
    requires constants_within { q * 3 + 2 < length constants.now }
    requires sources_within { q * 4 + 3 < length sources.now }
    requires inside { All (λ source. at + 16 ≤ length source) (contents sources.now) }
    ensures first { HasLanes result.0 (λ k. first_part constants.now q (column (contents sources.now) (at + k))) }
    ensures second { HasLanes result.1 (λ k. second_part constants.now q (column (contents sources.now) (at + k))) }
    ensures third { HasLanes result.2 (λ k. third_part constants.now q (column (contents sources.now) (at + k))) }
    ensures fourth { HasLanes result.3 (λ k. fourth_part q (column (contents sources.now) (at + k))) }
    ensures are_bytes { (k r : ℕ) → k < 16 → r < 4 → column (contents sources.now) (at + k) (q * 4 + r) < 256 }
    ensures constants_are { (slice_index constants.now (q * 3) < 256) × (slice_index constants.now (q * 3 + 1) < 256) × (slice_index constants.now (q * 3 + 2) < 256) }
{
    let a = load(sources[q * 4], at);
    let b = load(sources[q * 4 + 1], at);
    let c = load(sources[q * 4 + 2], at);
    let d = load(sources[q * 4 + 3], at);
    let (a, b) = pair(constants, q * 3, a, b);
    let (c, d) = pair(constants, q * 3 + 1, c, d);
    let (first, third) = pair(constants, q * 3 + 2, a, c);
    let (second, fourth) = pair(constants, q * 3 + 2, b, d);
    (first, second, third, fourth)
}

/// The sums of each part over all quads, at the 16 places from `at` on.
#[inline(always)]
fn sums_of_parts(
    constants: &CoefficientRow,
    sources: &[&[u8]],
    at: usize,
) -> (u8x16, u8x16, u8x16, u8x16)
    requires quads { length sources.now / 4 * 4 ≡ length sources.now }
    requires triples { length constants.now ≡ length sources.now / 4 * 3 }
    requires inside { All (λ source. at + 16 ≤ length source) (contents sources.now) }
    ensures first { HasLanes result.0 (λ k. combination (length sources.now) (in_first constants.now) (column (contents sources.now) (at + k))) }
    ensures second { HasLanes result.1 (λ k. combination (length sources.now) (in_second constants.now) (column (contents sources.now) (at + k))) }
    ensures third { HasLanes result.2 (λ k. combination (length sources.now) (in_third constants.now) (column (contents sources.now) (at + k))) }
    ensures fourth { HasLanes result.3 (λ k. combination (length sources.now) in_fourth (column (contents sources.now) (at + k))) }
    ensures are_bytes { (k j : ℕ) → k < 16 → j < length sources.now → column (contents sources.now) (at + k) j < 256 }
{
    let mut first = zeros();
    let mut second = zeros();
    let mut third = zeros();
    let mut fourth = zeros();
    for q in 0..sources.len() / 4 {
        let (a, b, c, d) = parts(constants, q, sources, at);
        first = sum(first, a);
        second = sum(second, b);
        third = sum(third, c);
        fourth = sum(fourth, d);
    }
    (first, second, third, fourth)
}

/// The four combinations over all sources, at the 16 places from `at` on.
#[inline(always)]
pub(crate) fn quad_sums(
    constants: &CoefficientRow,
    sources: &[&[u8]],
    at: usize,
) -> (u8x16, u8x16, u8x16, u8x16)
    requires quads { length sources.now / 4 * 4 ≡ length sources.now }
    requires triples { length constants.now ≡ length sources.now / 4 * 3 }
    requires inside { All (λ source. at + 16 ≤ length source) (contents sources.now) }
    ensures first { HasLanes result.0 (λ k. combination (length sources.now) (in_first constants.now) (column (contents sources.now) (at + k))) }
    ensures second { HasLanes result.1 (λ k. combination (length sources.now) (second_weight constants.now) (column (contents sources.now) (at + k))) }
    ensures third { HasLanes result.2 (λ k. combination (length sources.now) (third_weight constants.now) (column (contents sources.now) (at + k))) }
    ensures fourth { HasLanes result.3 (λ k. combination (length sources.now) (fourth_weight constants.now) (column (contents sources.now) (at + k))) }
{
    let (first, second, third, fourth) = sums_of_parts(constants, sources, at);
    let both = sum(second, fourth);
    let last = sum(sum(first, third), product_by(2, both));
    (first, sum(first, second), last, sum(last, both))
}
