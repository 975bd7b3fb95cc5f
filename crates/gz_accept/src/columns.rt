//! One column of a row put in place, over the columns that stand there.
ghost use Rattle.std.specs.Prelude.{◌≡◌, ◌<◌, ◌≤◌, length, filter, nat_lt, slice_set, IfOk, IfErr, OnOk, OnErr};
ghost use Rattle.std.specs.List.{insert};
ghost use Rattle.gz_core.specs.Rows.{IsColumn};
ghost use Rattle.gz_core.specs.Slots.{slots};
ghost use Rattle.gz_core.specs.declared.rows.Column.{Column};
ghost use Rattle.gz_accept.specs.Steps.{with_column, with_column_at, IsOpenSlot};

use gz_core::{Column, Items, Row, Version};
use std::alloc::AllocError;

/// Puts a column at a version of the row that is open so far.
#[tactic(auto, using(crate::proofs::Rising::row_put))]
pub fn put_column(row: &mut Row, v: Version, column: Column) -> Result<(), AllocError>
    requires version { 1 ≤ v }
    requires rule { IsColumn column }
    requires free { IsOpenSlot (slots row.old v) }
    ensures ok { OnOk result (row.new ≡ with_column_at row.old v column) }
    ensures err { OnErr result (row.new ≡ row.old) }
{
    put(&mut row.columns, v, column)
}

/// Puts a column at a version, in place of the one that stands there if there is one.
pub fn put(
    columns: &mut Items<(Version, Column)>,
    v: Version,
    column: Column,
) -> Result<(), AllocError>
    ensures ok { OnOk result (columns.new ≡ with_column v column columns.old) }
    ensures err { OnErr result (columns.new ≡ columns.old) }
{
    match place(columns.as_slice(), v) {
        Ok(at) => {
            columns.set(at, (v, column));
            Ok(())
        },
        Err(at) => columns.insert(at, (v, column)),
    }
}

/// Keeps the columns of the versions above `to`.
pub fn keep_above(columns: &mut Items<(Version, Column)>, to: Version)
    ensures { columns.new ≡ filter (λ c. nat_lt to c.0) columns.old }
{
    columns.retain(|column| column.0 > to);
}

/// Where a version stands among columns by rising version, or else where it would stand.
#[tactic(auto, using(crate::proofs::Placing::set_there))]
fn place(columns: &[(Version, Column)], v: Version) -> Result<usize, usize>
    ensures stands { IfOk result (λ at. at < length columns.now) }
    ensures set { IfOk result (λ at. (column : Column) → slice_set columns.now at (v, column) ≡ with_column v column columns.now) }
    ensures within { IfErr result (λ at. at ≤ length columns.now) }
    ensures insert { IfErr result (λ at. (column : Column) → insert columns.now at (v, column) ≡ with_column v column columns.now) }
{
    for (at, column) in columns.iter().enumerate() {
        if column.0 == v {
            return Ok(at);
        }
        if column.0 > v {
            return Err(at);
        }
    }
    Err(columns.len())
}
