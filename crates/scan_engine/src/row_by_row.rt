//! Rows added one by one, by one key and one list of numbers that are filled again for each.

ghost use Rattle.std.specs.Prelude.{◌≡◌, ◌-◌, ◌∷◌, [], Err, IfOk, OnOk, length, map};
ghost use Rattle.agg_laws.specs.Numbers.{AreWhole, IsWhole};
ghost use Rattle.values.specs.Columns.{row_of};
ghost use Rattle.group_table.specs.Groups.{key_of, number_for};
ghost use Rattle.group_table.specs.Pooled.{IsTableIn, StaysIn, in_pool};
ghost use Rattle.scan_engine.specs.Places.{rows_at};
ghost use Rattle.scan_engine.specs.Scanned.{AddsOrFull, HasRoom};

use crate::holds::number_in;
use crate::number_block::NumberBlock;
use group_table::{GroupTable, SlotPool, TableFault};
use std::alloc::Global;
use table_schema::{Agg, BoundQuery};
use values::{NoMemory, Row, Value};

/// Adds the rows in these places one by one.
pub(crate) fn add_singly(
    alloc: Global,
    query: &BoundQuery,
    block: NumberBlock,
    places: &[u32],
    table: &mut GroupTable,
    pool: &mut SlotPool,
) -> Result<(), TableFault>
    requires table { IsTableIn table.old pool.old }
    requires room { HasRoom query.now (length places.now) (in_pool table.old pool.old) }
    ensures adds { AddsOrFull query.now (length places.now)
        (rows_at block.entry.columns.now.columns places.now) (in_pool table.old pool.old)
        (in_pool table.new pool.new) result }
    ensures stays { StaysIn table.old pool.old table.new pool.new }
{
    let mut key = Row::with_capacity(alloc, query.groups.len())?;
    let mut values = Vec::with_capacity(alloc, query.aggs.len())?;
    for place in places {
        match add_one(
            alloc,
            query,
            block,
            *place as usize,
            key,
            &mut values,
            table,
            pool,
        ) {
            Ok(used) => key = used,
            Err(fault) => return Err(fault),
        }
    }
    Ok(())
}

// Adds a row, and gives back what was lent for its key.
fn add_one(
    alloc: Global,
    query: &BoundQuery,
    block: NumberBlock,
    at: usize,
    spare: Row,
    values: &mut Vec<i64>,
    table: &mut GroupTable,
    pool: &mut SlotPool,
) -> Result<Row, TableFault>
    requires table { IsTableIn table.old pool.old }
    requires room { HasRoom query.now 1 (in_pool table.old pool.old) }
    ensures adds { AddsOrFull query.now 1 (row_of block.entry.columns.now.columns at ∷ [])
        (in_pool table.old pool.old) (in_pool table.new pool.new) result }
    ensures stays { StaysIn table.old pool.old table.new pool.new }
{
    let key = key_in(spare, block, at, query.groups.as_slice())?;
    fill_values(block, at, query.aggs.as_slice(), values)?;
    if let Err(fault) = table.add_row(alloc, pool, &key, values) {
        return Err(fault);
    }
    Ok(key)
}

// The key of a row, its numbers in the group columns, in the place of a list that is let go.
fn key_in(spare: Row, block: NumberBlock, at: usize, columns: &[u16]) -> Result<Row, NoMemory>
    ensures { IfOk result (λ key. key
        ≡ key_of columns.now (row_of block.entry.columns.now.columns at)) }
{
    let mut key = spare.into_vec();
    key.clear();
    for column in columns {
        key.push(Value::Whole(number_in(block, at, *column)))?;
    }
    Ok(Row::from_vec(key))
}

// The numbers of a row for the aggregates.
fn fill_values(
    block: NumberBlock,
    at: usize,
    aggs: &[Agg],
    values: &mut Vec<i64>,
) -> Result<(), NoMemory>
    ensures values { OnOk result (values.new.items
        ≡ map (λ agg. number_for agg (row_of block.entry.columns.now.columns at)) aggs.now) }
    ensures whole { OnOk result (AreWhole values.new.items) }
{
    values.clear();
    for agg in aggs {
        values.push(number_of(block, at, agg))?;
    }
    Ok(())
}

// The number of a row for an aggregate; rows are counted by any.
fn number_of(block: NumberBlock, at: usize, agg: &Agg) -> i64
    ensures value { result ≡ number_for agg.now (row_of block.entry.columns.now.columns at) }
    ensures whole { IsWhole result }
{
    match agg.column {
        Some(column) => number_in(block, at, column),
        None => 0,
    }
}
