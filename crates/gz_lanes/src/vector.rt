//! Sums of products over 16 bytes at once, with the sums in registers over all sources.
ghost use Rattle.std.specs.Prelude.{◌≡◌, ℕ, ◌+◌, ◌/◌, ◌%◌, ◌^◌, ◌<◌, ◌≤◌, length, slice_index, All, IfSome};
ghost use Rattle.gz_lanes.specs.Combination.{combination, column, contents, combined_below, HasSums, IsSum};
ghost use Rattle.gz_lanes.specs.Lanes.{HasLanes};
ghost use Rattle.gz_lanes.specs.Quads.{AreQuads};

use crate::lanes::{high_halves, load, look_up, low_halves, store, sum, zeros};
use crate::quads::quad_sums;
use crate::rows::CoefficientRow;
use std::simd::prelude::*;

/// Adds the products of the row's coefficient j with 16 bytes, which are given by their halves: those of source j from `at`
/// on. `sources` and `at` are for the contract alone.
#[inline(always)]
fn add_products(
    row: &CoefficientRow,
    j: usize,
    low: u8x16,
    high: u8x16,
    so_far: u8x16,
    sources: &[&[u8]],
    at: usize,
) -> u8x16
    requires within { j < length row.now }
    requires low_is { HasLanes low (λ k. column (contents sources.now) (at + k) j % 16) }
    requires high_is { HasLanes high (λ k. column (contents sources.now) (at + k) j / 16) }
    requires high_small { (k : ℕ) → k < 16 → slice_index high k < 16 }
    requires so_far_is { HasLanes so_far (λ k. combination j (slice_index row.now) (column (contents sources.now) (at + k))) }
    ensures { HasLanes result (λ k. combination (j + 1) (slice_index row.now) (column (contents sources.now) (at + k))) }
{
    let of_low = look_up(load(&row.tables, j * 32), low);
    let of_high = look_up(load(&row.tables, j * 32 + 16), high);
    sum(so_far, sum(of_low, of_high))
}

/// Begins the sums of one row: as if all sources held the first one's bytes, which are given. `sources` and `at` are for the contract
/// alone.
#[inline(always)]
fn begin(row: &CoefficientRow, base: u8x16, sources: &[&[u8]], at: usize) -> u8x16
    requires some { 0 < length row.now }
    requires base_is { HasLanes base (λ k. column (contents sources.now) (at + k) 0) }
    ensures { HasLanes result (λ k. combined_below 1 row.now (column (contents sources.now) (at + k))) }
{
    row.times_total(base)
}

/// Adds the products of the row's coefficient j with the differences of source j from the first one.
#[inline(always)]
fn add_difference(
    row: &CoefficientRow,
    j: usize,
    base: u8x16,
    below: u8x16,
    sources: &[&[u8]],
    at: usize,
) -> u8x16
    requires within { j < length row.now }
    requires paired { length row.now ≡ length sources.now }
    requires inside { All (λ source. at + 16 ≤ length source) (contents sources.now) }
    requires base_is { HasLanes base (λ k. column (contents sources.now) (at + k) 0) }
    requires below_is { HasLanes below (λ k. combined_below j row.now (column (contents sources.now) (at + k))) }
    ensures { HasLanes result (λ k. combined_below (j + 1) row.now (column (contents sources.now) (at + k))) }
{
    let difference = sum(load(sources[j], at), base);
    sum(below, row.times(j, difference))
}

/// The sums of one row over all sources, at the 16 places from `at` on.
#[inline(always)]
pub(crate) fn one_sum(row: &CoefficientRow, sources: &[&[u8]], at: usize) -> u8x16
    requires paired { length row.now ≡ length sources.now }
    requires some { 0 < length sources.now }
    requires inside { All (λ source. at + 16 ≤ length source) (contents sources.now) }
    ensures { IsSum row.now (contents sources.now) at result }
{
    let base = load(sources[0], at);
    let mut total = begin(row, base, sources, at);
    for j in 1..sources.len() {
        total = add_difference(row, j, base, total, sources, at);
    }
    total
}

/// The sums of four rows over all sources, at the 16 places from `at` on.
#[inline(always)]
fn four_sums(
    a: &CoefficientRow,
    b: &CoefficientRow,
    c: &CoefficientRow,
    d: &CoefficientRow,
    sources: &[&[u8]],
    at: usize,
) -> (u8x16, u8x16, u8x16, u8x16)
    requires paired { (length a.now ≡ length sources.now) × (length b.now ≡ length sources.now) × (length c.now ≡ length sources.now) × (length d.now ≡ length sources.now) }
    requires inside { All (λ source. at + 16 ≤ length source) (contents sources.now) }
    ensures first { IsSum a.now (contents sources.now) at result.0 }
    ensures second { IsSum b.now (contents sources.now) at result.1 }
    ensures third { IsSum c.now (contents sources.now) at result.2 }
    ensures fourth { IsSum d.now (contents sources.now) at result.3 }
{
    let mut of_a = zeros();
    let mut of_b = zeros();
    let mut of_c = zeros();
    let mut of_d = zeros();
    for j in 0..sources.len() {
        let bytes = load(sources[j], at);
        let low = low_halves(bytes);
        let high = high_halves(bytes);
        of_a = add_products(a, j, low, high, of_a, sources, at);
        of_b = add_products(b, j, low, high, of_b, sources, at);
        of_c = add_products(c, j, low, high, of_c, sources, at);
        of_d = add_products(d, j, low, high, of_d, sources, at);
    }
    (of_a, of_b, of_c, of_d)
}

/// The sums of four rows over all sources, at the 16 places from `at` on, by their constants where they have some.
#[inline(always)]
pub(crate) fn sums_of_four(
    constants: &Option<CoefficientRow>,
    rows: (
        &CoefficientRow,
        &CoefficientRow,
        &CoefficientRow,
        &CoefficientRow,
    ),
    sources: &[&[u8]],
    at: usize,
) -> (u8x16, u8x16, u8x16, u8x16)
    requires quads { IfSome constants.now (λ c. AreQuads c rows.0.now rows.1.now rows.2.now rows.3.now) }
    requires paired { (length rows.0.now ≡ length sources.now) × (length rows.1.now ≡ length sources.now) × (length rows.2.now ≡ length sources.now) × (length rows.3.now ≡ length sources.now) }
    requires inside { All (λ source. at + 16 ≤ length source) (contents sources.now) }
    ensures first { IsSum rows.entry.0.now (contents sources.now) at result.0 }
    ensures second { IsSum rows.entry.1.now (contents sources.now) at result.1 }
    ensures third { IsSum rows.entry.2.now (contents sources.now) at result.2 }
    ensures fourth { IsSum rows.entry.3.now (contents sources.now) at result.3 }
{
    let (a, b, c, d) = rows;
    match constants {
        Some(constants) => quad_sums(constants, sources, at),
        None => four_sums(a, b, c, d, sources, at),
    }
}

/// Writes 16 sums into a block of those from `at` on. `row` and `sources` are for the contract alone.
#[inline(always)]
pub(crate) fn put(
    sums: u8x16,
    block: &mut [u8],
    offset: usize,
    at: usize,
    row: &CoefficientRow,
    sources: &[&[u8]],
)
    requires inside { offset + 16 ≤ length block.old }
    requires sums_are { IsSum row.now (contents sources.now) (at + offset) sums }
    ensures { HasSums row.now (contents sources.now) at offset block.old → HasSums row.now (contents sources.now) at (offset + 16) block.new }
{
    store(sums, block, offset);
}

/// The sums of one row over all sources, at the 64 places from `at` on.
#[inline(always)]
fn four_places(row: &CoefficientRow, sources: &[&[u8]], at: usize) -> (u8x16, u8x16, u8x16, u8x16)
    requires paired { length row.now ≡ length sources.now }
    requires some { 0 < length sources.now }
    requires inside { All (λ source. at + 64 ≤ length source) (contents sources.now) }
    requires fits { at + 64 < 2 ^ 64 }
    ensures first { IsSum row.now (contents sources.now) at result.0 }
    ensures second { IsSum row.now (contents sources.now) (at + 16) result.1 }
    ensures third { IsSum row.now (contents sources.now) (at + 32) result.2 }
    ensures fourth { IsSum row.now (contents sources.now) (at + 48) result.3 }
{
    let bases = (
        load(sources[0], at),
        load(sources[0], at + 16),
        load(sources[0], at + 32),
        load(sources[0], at + 48),
    );
    let mut first = begin(row, bases.0, sources, at);
    let mut second = begin(row, bases.1, sources, at + 16);
    let mut third = begin(row, bases.2, sources, at + 32);
    let mut fourth = begin(row, bases.3, sources, at + 48);
    for j in 1..sources.len() {
        first = add_difference(row, j, bases.0, first, sources, at);
        second = add_difference(row, j, bases.1, second, sources, at + 16);
        third = add_difference(row, j, bases.2, third, sources, at + 32);
        fourth = add_difference(row, j, bases.3, fourth, sources, at + 48);
    }
    (first, second, third, fourth)
}

/// The same, as bytes.
#[inline(always)]
pub(crate) fn one_block(row: &CoefficientRow, sources: &[&[u8]], at: usize) -> [u8; 64]
    requires paired { length row.now ≡ length sources.now }
    requires some { 0 < length sources.now }
    requires inside { All (λ source. at + 64 ≤ length source) (contents sources.now) }
    requires fits { at + 64 < 2 ^ 64 }
    ensures { HasSums row.now (contents sources.now) at 64 result }
{
    let (first, second, third, fourth) = four_places(row, sources, at);
    let mut block = [0; 64];
    put(first, &mut block, 0, at, row, sources);
    put(second, &mut block, 16, at, row, sources);
    put(third, &mut block, 32, at, row, sources);
    put(fourth, &mut block, 48, at, row, sources);
    block
}

/// Sums of four rows at 64 places.
#[derive(Clone, Copy)]
pub(crate) struct Blocks {
    pub(crate) a: [u8; 64],
    pub(crate) b: [u8; 64],
    pub(crate) c: [u8; 64],
    pub(crate) d: [u8; 64],
}

/// The sums of four rows over all sources, at the 64 places from `at` on.
#[inline(always)]
pub(crate) fn four_blocks(
    constants: &Option<CoefficientRow>,
    rows: (
        &CoefficientRow,
        &CoefficientRow,
        &CoefficientRow,
        &CoefficientRow,
    ),
    sources: &[&[u8]],
    at: usize,
) -> Blocks
    requires quads { IfSome constants.now (λ c. AreQuads c rows.0.now rows.1.now rows.2.now rows.3.now) }
    requires paired { (length rows.0.now ≡ length sources.now) × (length rows.1.now ≡ length sources.now) × (length rows.2.now ≡ length sources.now) × (length rows.3.now ≡ length sources.now) }
    requires inside { All (λ source. at + 64 ≤ length source) (contents sources.now) }
    requires fits { at + 64 < 2 ^ 64 }
    ensures first { HasSums rows.entry.0.now (contents sources.now) at 64 result.a }
    ensures second { HasSums rows.entry.1.now (contents sources.now) at 64 result.b }
    ensures third { HasSums rows.entry.2.now (contents sources.now) at 64 result.c }
    ensures fourth { HasSums rows.entry.3.now (contents sources.now) at 64 result.d }
{
    let (a, b, c, d) = rows;
    let mut block_a = [0; 64];
    let mut block_b = [0; 64];
    let mut block_c = [0; 64];
    let mut block_d = [0; 64];
    for i in 0..4 {
        let offset = i * 16;
        let (of_a, of_b, of_c, of_d) = sums_of_four(constants, rows, sources, at + offset);
        put(of_a, &mut block_a, offset, at, a, sources);
        put(of_b, &mut block_b, offset, at, b, sources);
        put(of_c, &mut block_c, offset, at, c, sources);
        put(of_d, &mut block_d, offset, at, d, sources);
    }
    Blocks {
        a: block_a,
        b: block_b,
        c: block_c,
        d: block_d,
    }
}
