//! Rows of a block, added to groups: at once where they have one key.

ghost use Rattle.std.specs.Prelude.{◌≡◌, ◌-◌, [], length};
ghost use Rattle.group_table.specs.Pooled.{IsTableIn, StaysIn, in_pool};
ghost use Rattle.scan_engine.specs.Places.{IsRun, rows_at};
ghost use Rattle.scan_engine.specs.Scanned.{AddsOrFull, HasRoom};

use crate::fold::states_at;
use crate::number_block::NumberBlock;
use crate::row_by_row::add_singly;
use group_table::{GroupTable, SlotPool, TableFault};
use std::alloc::Global;
use table_schema::BoundQuery;
use values::Row;

/// Adds the rows in these places.
pub(crate) fn add_places(
    alloc: Global,
    query: &BoundQuery,
    block: NumberBlock,
    places: &[u32],
    table: &mut GroupTable,
    pool: &mut SlotPool,
) -> Result<(), TableFault>
    requires table { IsTableIn table.old pool.old }
    requires room { HasRoom query.now (length places.now) (in_pool table.old pool.old) }
    ensures adds { AddsOrFull query.now (length places.now)
        (rows_at block.entry.columns.now.columns places.now) (in_pool table.old pool.old)
        (in_pool table.new pool.new) result }
    ensures stays { StaysIn table.old pool.old table.new pool.new }
{
    if query.groups.is_empty() {
        return add_whole(alloc, query, block, places, table, pool);
    }
    add_singly(alloc, query, block, places, table, pool)
}

// Adds the rows in these places where there are no group columns.
fn add_whole(
    alloc: Global,
    query: &BoundQuery,
    block: NumberBlock,
    places: &[u32],
    table: &mut GroupTable,
    pool: &mut SlotPool,
) -> Result<(), TableFault>
    requires whole { query.now.groups ≡ [] }
    requires table { IsTableIn table.old pool.old }
    requires room { HasRoom query.now (length places.now) (in_pool table.old pool.old) }
    ensures adds { AddsOrFull query.now (length places.now)
        (rows_at block.entry.columns.now.columns places.now) (in_pool table.old pool.old)
        (in_pool table.new pool.new) result }
    ensures stays { StaysIn table.old pool.old table.new pool.new }
{
    if places.is_empty() {
        return Ok(());
    }
    let key = Row::new(alloc);
    add_run(alloc, query, block, &key, places, table, pool)
}

// Adds the rows in these places, which have one key.
fn add_run(
    alloc: Global,
    query: &BoundQuery,
    block: NumberBlock,
    key: &Row,
    places: &[u32],
    table: &mut GroupTable,
    pool: &mut SlotPool,
) -> Result<(), TableFault>
    requires run { IsRun query.now.groups key.now (rows_at block.columns.now.columns places.now) }
    requires table { IsTableIn table.old pool.old }
    requires room { HasRoom query.now (length places.now) (in_pool table.old pool.old) }
    ensures adds { AddsOrFull query.now (length places.now)
        (rows_at block.entry.columns.now.columns places.now) (in_pool table.old pool.old)
        (in_pool table.new pool.new) result }
    ensures stays { StaysIn table.old pool.old table.new pool.new }
{
    let states = states_at(alloc, query.aggs.as_slice(), block, places)?;
    table.merge_row(alloc, pool, key, &states)
}
