//! Rows as documents, one a row.

ghost use Rattle.std.specs.Prelude.{◌≡◌, ◌<◌, length, map, slice_get, Some};
ghost use Rattle.std.specs.Prelude.{IfOk, OnOk, All};
ghost use Rattle.state_columns.specs.Docs.{projected};
ghost use Rattle.star_rows.specs.Columns.{row_count, rows_of};
ghost use Rattle.star_rows.specs.Projection.{GainsRow, HasColumns, HasRow, IsTableOf};
ghost use Rattle.star_rows.specs.Words.{ids_at, states_at};

use crate::NoMemory;
use crate::numbers::NumberColumns;
use agg_laws::TreeShape;
use outside::Seq;
use star_table::StarTable;
use std::alloc::Global;

/// One document a row: the row's ids, and the states of its values, pair by pair.
pub fn project(
    alloc: Global,
    shape: &TreeShape,
    dims: &Seq<Seq<u32>>,
    metrics: &NumberColumns,
) -> Result<StarTable, NoMemory>
    requires { HasColumns shape.now dims.now metrics.now }
    ensures table { IfOk result (IsTableOf shape.now (projected shape.now.kinds
        (rows_of (row_count dims.now) dims.now metrics.now)) (row_count dims.now)) }
    ensures count { IfOk result (λ table. length table.docs ≡ row_count dims.now) }
{
    let rows = dims.at(0).len();
    let mut table = StarTable::new(alloc, shape)?;
    let mut ids = Vec::with_capacity(alloc, dims.len())?;
    let mut values = Vec::with_capacity(alloc, metrics.len())?;
    table.reserve(u32::try_from(rows).unwrap_or(u32::MAX))?;
    for row in 0..rows {
        project_row(&mut table, dims, metrics, row, &mut ids, &mut values)?;
    }
    Ok(table)
}

// Adds the document of a row.
#[inline(always)]
fn project_row(
    table: &mut StarTable,
    dims: &Seq<Seq<u32>>,
    metrics: &NumberColumns,
    row: usize,
    ids: &mut Vec<u32>,
    values: &mut Vec<i64>,
) -> Result<(), NoMemory>
    requires { HasRow row row dims.now metrics.now table.old }
    ensures { OnOk result (GainsRow (ids_at dims.now row)
        (states_at table.old.kinds metrics.now row) table.old table.new) }
{
    read_row(dims, row, ids)?;
    metrics.read_row(row, values)?;
    table.reserve(1)?;
    table.append_values(ids.as_slice(), values.as_slice());
    Ok(())
}

/// What some columns have in a row, in place of what a list has.
pub fn read_row<T: Copy>(
    columns: &Seq<Seq<T>>,
    row: usize,
    out: &mut Vec<T>,
) -> Result<(), NoMemory>
    requires { All (λ c. row < length c) columns.now }
    ensures items { OnOk result (map Some out.new.items ≡ map (λ c. slice_get c row) columns.now) }
    ensures length { OnOk result (length out.new.items ≡ length columns.now) }
{
    out.clear();
    for i in 0..columns.len() {
        let column = columns.at(i).as_slice();
        out.push(column[row])?;
    }
    Ok(())
}
