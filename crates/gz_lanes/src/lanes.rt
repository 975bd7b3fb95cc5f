//! Vectors of 16 bytes, one operation each.
ghost use Rattle.std.specs.Prelude.{◌≡◌, ℕ, ◌+◌, ◌/◌, ◌%◌, ◌<◌, ◌≤◌, length, slice_index, bit_xor};
ghost use Rattle.std.specs.Prelude.{◌*◌};
ghost use Rattle.gz_field.specs.Field.{product};
ghost use Rattle.gz_lanes.specs.Lanes.{HasLanes, IsStored};

use gz_field::{products_with_high, products_with_low};
use std::simd::prelude::*;

#[inline(always)]
pub(crate) fn zeros() -> u8x16
    ensures { HasLanes result (λ k. 0) }
{
    u8x16::splat(0)
}

#[inline(always)]
pub(crate) fn load(bytes: &[u8], at: usize) -> u8x16
    requires { at + 16 ≤ length bytes.now }
    ensures lanes { HasLanes result (λ k. slice_index bytes.now (at + k)) }
    ensures are_bytes { (k : ℕ) → k < 16 → slice_index result k < 256 }
{
    u8x16::from_slice(&bytes[at..])
}

#[inline(always)]
pub(crate) fn store(v: u8x16, bytes: &mut [u8], at: usize)
    requires { at + 16 ≤ length bytes.old }
    ensures { IsStored v bytes.old bytes.new at }
{
    v.copy_to_slice(&mut bytes[at..]);
}

#[inline(always)]
pub(crate) fn low_halves(v: u8x16) -> u8x16
    ensures { HasLanes result (λ k. slice_index v k % 16) }
{
    v & u8x16::splat(15)
}

#[inline(always)]
pub(crate) fn high_halves(v: u8x16) -> u8x16
    ensures halves { HasLanes result (λ k. slice_index v k / 16) }
    ensures small { (k : ℕ) → k < 16 → slice_index result k < 16 }
{
    v >> u8x16::splat(4)
}

/// The table's bytes at those places.
#[inline(always)]
pub(crate) fn look_up(table: u8x16, places: u8x16) -> u8x16
    requires { (k : ℕ) → k < 16 → slice_index places k < 16 }
    ensures { HasLanes result (λ k. slice_index table (slice_index places k)) }
{
    table.swizzle_dyn_within::<16>(places)
}

#[inline(always)]
pub(crate) fn sum(a: u8x16, b: u8x16) -> u8x16
    ensures { HasLanes result (λ k. bit_xor (slice_index a k) (slice_index b k)) }
{
    a ^ b
}

/// The products of a coefficient with each byte, by the tables of its products with 0 to 15 and with the multiples of 16.
#[inline(always)]
pub(crate) fn products(coefficient: u8, low_table: u8x16, high_table: u8x16, bytes: u8x16) -> u8x16
    requires low { HasLanes low_table (product coefficient) }
    requires high { HasLanes high_table (λ k. product coefficient (k * 16)) }
    ensures lanes { HasLanes result (λ k. product coefficient (slice_index bytes k)) }
    ensures is_byte { coefficient < 256 }
{
    let of_low = look_up(low_table, low_halves(bytes));
    let of_high = look_up(high_table, high_halves(bytes));
    sum(of_low, of_high)
}

/// The products of any coefficient with each byte.
#[inline(always)]
pub(crate) fn product_by(coefficient: u8, bytes: u8x16) -> u8x16
    ensures { HasLanes result (λ k. product coefficient (slice_index bytes k)) }
{
    let low_table = load(products_with_low(coefficient), 0);
    let high_table = load(products_with_high(coefficient), 0);
    products(coefficient, low_table, high_table, bytes)
}
