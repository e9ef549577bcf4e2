//! The rows of a block, added to the groups of a query.

ghost use Rattle.values.specs.Columns.{rows_of};
ghost use Rattle.group_table.specs.Pooled.{IsTableIn, StaysIn, in_pool};
ghost use Rattle.scan_engine.specs.Numbers.{AreNumbers};
ghost use Rattle.scan_engine.specs.Scanned.{AddsOrFull, HasRoom, selected};

use crate::number_block::NumberBlock;
use crate::places::selected_places;
use crate::run::add_places;
use group_table::{GroupTable, SlotPool, TableFault};
use std::alloc::Global;
use table_schema::BoundQuery;
use values::Columns;

/// Adds the rows of a block of whole numbers that satisfy the filter of a query to its groups.
pub fn add_block(
    alloc: Global,
    query: &BoundQuery,
    block: &Columns,
    table: &mut GroupTable,
    pool: &mut SlotPool,
) -> Result<(), TableFault>
    requires table { IsTableIn table.old pool.old }
    requires numbers { AreNumbers block.now }
    requires room { HasRoom query.now block.now.count (in_pool table.old pool.old) }
    ensures adds { AddsOrFull query.now block.now.count (selected query.now (rows_of block.now))
        (in_pool table.old pool.old) (in_pool table.new pool.new) result }
    ensures stays { StaysIn table.old pool.old table.new pool.new }
{
    let block = NumberBlock { columns: block };
    let places = selected_places(alloc, query, block)?;
    add_places(alloc, query, block, places.as_slice(), table, pool)
}
