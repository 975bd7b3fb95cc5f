//! Coefficients with the tables that multiply by them.
ghost use Rattle.std.specs.Prelude.{◌≡◌, ◌<◌, IfOk, length, slice_index};
ghost use Rattle.gz_field.specs.Field.{product};
ghost use Rattle.gz_lanes.specs.Combination.{sum_below};
ghost use Rattle.gz_lanes.specs.Lanes.{AreTables, HasLanes};

use crate::lanes::{load, product_by, products};
use gz_field::{add, products_with_high, products_with_low};
use std::alloc::{AllocError, Global};
use std::marker::Model;
use std::simd::prelude::*;

/// A row of coefficients, one for each source, with their sum, and 32 bytes of tables for each. A contract sees the coefficients.
#[derive(Drop)]
pub struct CoefficientRow {
    coefficients: Vec<u8>,
    total: u8,
    pub(crate) tables: Vec<u8>,
}

impl Model for CoefficientRow {
    ghost use Rattle.std.specs.Prelude.{◌≡◌, ℕ, List, length, slice_index};
    ghost use Rattle.gz_lanes.specs.Combination.{sum_below};
    ghost use Rattle.gz_lanes.specs.Lanes.{AreTables};

    ghost Value = { List ℕ };

    ghost view = { λ row. row.coefficients.items };

    ghost invariant = { λ row. AreTables row.coefficients.items row.tables.items (length row.coefficients.items) × (row.total ≡ sum_below (length row.coefficients.items) (slice_index row.coefficients.items)) };
}

impl CoefficientRow {
    pub fn new(alloc: Global, coefficients: Vec<u8>) -> Result<CoefficientRow, AllocError>
        ensures { IfOk result (λ row. row ≡ coefficients.items) }
    {
        let tables = tables_of(alloc, &coefficients)?;
        let total = total_of(&coefficients);
        Ok(CoefficientRow {
            coefficients,
            total,
            tables,
        })
    }

    pub fn coefficients(&self) -> &[u8]
        ensures { result.now ≡ self.now }
    {
        &self.coefficients
    }

    /// The products of coefficient j with 16 bytes.
    #[inline(always)]
    pub(crate) fn times(&self, j: usize, bytes: u8x16) -> u8x16
        requires { j < length self.now }
        ensures lanes { HasLanes result (λ k. product (slice_index self.now j) (slice_index bytes k)) }
        ensures is_byte { slice_index self.now j < 256 }
    {
        let low_table = load(&self.tables, j * 32);
        let high_table = load(&self.tables, j * 32 + 16);
        products(self.coefficients[j], low_table, high_table, bytes)
    }

    /// The products of the sum of all coefficients with 16 bytes.
    #[inline(always)]
    pub(crate) fn times_total(&self, bytes: u8x16) -> u8x16
        ensures { HasLanes result (λ k. product (sum_below (length self.now) (slice_index self.now)) (slice_index bytes k)) }
    {
        if self.total == 1 {
            bytes
        } else {
            product_by(self.total, bytes)
        }
    }
}

/// The sum of the coefficients.
#[tactic(auto, unfolding(crate::specs::Combination::sum_below))]
fn total_of(coefficients: &[u8]) -> u8
    ensures { result ≡ sum_below (length coefficients.now) (slice_index coefficients.now) }
{
    let mut total = 0;
    for coefficient in coefficients {
        total = add(total, *coefficient);
    }
    total
}

/// The tables of each coefficient, one after another.
fn tables_of(alloc: Global, coefficients: &[u8]) -> Result<Vec<u8>, AllocError>
    ensures { IfOk result (λ tables. AreTables coefficients.now tables.items (length coefficients.now)) }
{
    let mut tables = Vec::with_capacity(alloc, coefficients.len().saturating_mul(32))?;
    for coefficient in coefficients {
        tables.extend_from_slice(products_with_low(*coefficient))?;
        tables.extend_from_slice(products_with_high(*coefficient))?;
    }
    Ok(tables)
}
