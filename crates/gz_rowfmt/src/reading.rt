//! Row records are read from left to right. Each reader answers its field and the bytes after it, or the first fault.
ghost use Rattle.std.specs.Prelude.{◌≡◌, ◌+◌, ◌-◌, ◌^◌, ◌<◌, ◌≤◌, length, nat_lt, Ok, IfOk};
ghost use Rattle.gz_core.specs.Rows.{RowAt};
ghost use Rattle.gz_bytes.specs.Steps.{Gives};
ghost use Rattle.gz_rowfmt.specs.Records.{HasRecord};
ghost use Rattle.gz_rowfmt.specs.Spelling.{spelling};
ghost use Rattle.gz_rowfmt.specs.Reading.{MayGive, magic_at, floor_at, count_at, columns_at, row_in};

mod columns;
mod values;

use crate::errors::RowError;
use columns::column_of;
use gz_bytes::{bytes_of, u32_of, u64_of};
use gz_core::{Column, Items, Row, Version};
use std::alloc::Global;

/// What each record begins with.
pub(crate) const MAGIC: [u8; 4] = *b"GZR1";

/// The numbers of versions are below this.
const VERSION_LIMIT: u64 = 1 << 63;

#[tactic(auto, unfolding(crate::specs::Reading::magic_at))]
fn magic_of(bytes: &[u8]) -> Result<&[u8], RowError>
    ensures gives { Gives (λ x. x.now) result (magic_at bytes.now) }
    ensures left { IfOk result (λ x. length x.now ≤ length bytes.now) }
{
    let (front, rest) = bytes_of(MAGIC.len(), 0, bytes)?;
    if front != MAGIC.as_slice() {
        return Err(RowError::Magic { at: 0 });
    }
    Ok(rest)
}

/// The floor.
#[tactic(auto, unfolding(crate::specs::Reading::floor_at))]
fn floor_of(bytes: &[u8]) -> Result<(u64, &[u8]), RowError>
    ensures gives { Gives (λ x. (x.0, x.1.now)) result (floor_at bytes.now) }
    ensures bounded { IfOk result (λ x. x.0 < 2 ^ 63) }
    ensures left { IfOk result (λ x. length x.1.now ≤ length bytes.now) }
{
    let (floor, rest) = u64_of(4, bytes)?;
    if floor >= VERSION_LIMIT {
        return Err(RowError::Floor { at: 4 });
    }
    Ok((floor, rest))
}

/// How many columns there are: at least one where the floor was raised.
#[tactic(auto, unfolding(crate::specs::Reading::count_at))]
fn count_of(floor: u64, bytes: &[u8]) -> Result<(u32, &[u8]), RowError>
    ensures gives { Gives (λ x. (x.0, x.1.now)) result (count_at floor bytes.now) }
    ensures left { IfOk result (λ x. length x.1.now ≤ length bytes.now) }
{
    let (count, rest) = u32_of(12, bytes)?;
    if floor > 0 && count == 0 {
        return Err(RowError::Floor { at: 12 });
    }
    Ok((count, rest))
}

/// So many columns of a record that ends at `end`.
fn columns_of(
    alloc: Global,
    count: u32,
    floor: u64,
    end: usize,
    bytes: &[u8],
) -> Result<(Vec<(Version, Column)>, &[u8]), RowError>
    requires { length bytes.now ≤ end }
    ensures gives { MayGive (λ x. (x.0.items, x.1.now)) result (columns_at count (nat_lt 0 floor) floor end bytes.now) }
    ensures left { IfOk result (λ x. length x.1.now ≤ length bytes.now) }
{
    let mut columns = Vec::new(alloc);
    let mut raised = floor > 0;
    let mut before = floor;
    let mut rest = bytes;
    for _ in 0..count {
        let (column, after) = column_of(alloc, raised, before, end - rest.len(), rest)?;
        raised = false;
        before = column.0.number();
        columns.push(column)?;
        rest = after;
    }
    Ok((columns, rest))
}

/// The floor and the columns of the record that these bytes are, all of them.
#[tactic(auto, unfolding(crate::specs::Reading::row_in))]
fn parts_of(alloc: Global, bytes: &[u8]) -> Result<(u64, Vec<(Version, Column)>), RowError>
    ensures { MayGive (λ x. record { floor = x.0; columns = x.1.items }) result (row_in bytes.now) }
{
    let rest = magic_of(bytes)?;
    let (floor, rest) = floor_of(rest)?;
    let (count, rest) = count_of(floor, rest)?;
    let (columns, rest) = columns_of(alloc, count, floor, bytes.len(), rest)?;
    if !rest.is_empty() {
        return Err(RowError::Trailing {
            at: bytes.len() - rest.len(),
        });
    }
    Ok((floor, columns))
}

/// The row whose record these bytes are, all of them.
pub fn decode_row(alloc: Global, bytes: &[u8]) -> Result<Row, RowError>
    // What is read is a row that is spelled so.
    ensures found { IfOk result (λ row. HasRecord row × (bytes.now ≡ spelling row)) }
    // A row that is spelled so is read, unless memory runs out.
    ensures only { (row : RowAt) → HasRecord row → bytes.now ≡ spelling row → MayGive (λ r. r) result (Ok row) }
    // Which fault it is: the first one.
    ensures exact { MayGive (λ r. r) result (row_in bytes.now) }
{
    let (floor, columns) = parts_of(alloc, bytes)?;
    Ok(Row {
        floor: Version(floor),
        columns: Items::from_vec(columns),
    })
}
