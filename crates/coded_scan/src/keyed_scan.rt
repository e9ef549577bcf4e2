//! The rows of a segment that conditions let through, kept by their keys.

ghost use Rattle.std.specs.Prelude.{◌≡◌, ◌-◌, ◌+◌, ◌++◌, ◌≤◌, [], IfOk, OnOk, length};
ghost use Rattle.coded_columns.specs.Keyed.{HoldsPacked, HoldsRows};
ghost use Rattle.coded_columns.specs.Keys.{AreKeys};
ghost use Rattle.coded_scan.specs.Passed.{passed};
ghost use Rattle.coded_scan.specs.RowFilters.{all_let, passing};

use crate::block::Block;
use crate::filtered_rows::FilteredRows;
use crate::selection::put_block;
use coded_columns::{KeyRoom, KeyedRows, PlacedRows, key_count};
use std::alloc::Global;
use table_schema::BoundQuery;
use values::NoMemory;

/// Rows are looked at in blocks of so many.
const BLOCK: usize = 4096;

/// What is kept of the rows that conditions let through: by their ids in the group columns, where
/// these can make few keys, else by slots.
pub fn keyed_of(
    alloc: Global,
    query: &BoundQuery,
    rows: FilteredRows<'_, '_>,
) -> Result<KeyedRows, NoMemory>
    ensures { IfOk result (HoldsRows rows.entry.segment.now query.now.groups query.now.aggs
        (passed rows.entry)) }
{
    let groups = query.groups.as_slice();
    match key_count(rows.segment, groups) {
        Some(size) => keyed_by_ids(alloc, query, rows, size),
        None => {
            let places = places_of(alloc, rows)?;
            let placed = PlacedRows {
                segment: rows.segment,
                places: places.as_slice(),
            };
            KeyedRows::by_slots(alloc, placed, groups, query.aggs.as_slice())
        }
    }
}

// The same by ids, which can make so many keys.
fn keyed_by_ids(
    alloc: Global,
    query: &BoundQuery,
    rows: FilteredRows<'_, '_>,
    size: usize,
) -> Result<KeyedRows, NoMemory>
    requires { AreKeys rows.segment.now query.now.groups size }
    ensures { IfOk result (HoldsRows rows.entry.segment.now query.now.groups query.now.aggs
        (passed rows.entry)) }
{
    let mut keyed = KeyedRows::new(alloc, query.aggs.as_slice(), size)?;
    let mut places = block_room(alloc, BLOCK)?;
    add_blocks(alloc, query, rows, &mut keyed, &mut places)?;
    Ok(keyed)
}

// Room for so many places.
fn block_room(alloc: Global, size: usize) -> Result<Vec<u32>, NoMemory>
    ensures { IfOk result (λ room. length room.items ≡ size) }
{
    let room = vec![in alloc; 0u32; size]?;
    Ok(room)
}

// Adds the rows that conditions let through to what is kept of none, with room for the places of a
// block.
fn add_blocks(
    alloc: Global,
    query: &BoundQuery,
    rows: FilteredRows<'_, '_>,
    keyed: &mut KeyedRows,
    places: &mut [u32],
) -> Result<(), NoMemory>
    requires room { length places.old ≡ 4096 }
    requires none { HoldsPacked rows.segment.now query.now.groups query.now.aggs [] keyed.old }
    ensures { OnOk result (HoldsPacked rows.entry.segment.now query.now.groups query.now.aggs
        (passed rows.entry) keyed.new) }
{
    let groups = query.groups.as_slice();
    let aggs = query.aggs.as_slice();
    let count = rows.segment.count;
    let mut room = KeyRoom::new(alloc);
    let mut from = 0;
    for _ in 0..count / BLOCK + 1 {
        let block = block_from(from, count);
        let many = put_block(alloc, rows, block, &mut places[..block.length])?;
        let placed = PlacedRows {
            segment: rows.segment,
            places: &places[..many],
        };
        keyed.add(placed, groups, aggs, &mut room)?;
        from += block.length;
    }
    Ok(())
}

// The places of the rows that conditions let through.
fn places_of(alloc: Global, rows: FilteredRows<'_, '_>) -> Result<Vec<u32>, NoMemory>
    ensures { IfOk result (λ places. places.items ≡ passed rows.entry) }
{
    let count = rows.segment.count;
    let mut places = Vec::with_capacity(alloc, BLOCK)?;
    let mut from = 0;
    for _ in 0..count / BLOCK + 1 {
        let block = block_from(from, count);
        push_block(alloc, rows, block, &mut places)?;
        from += block.length;
    }
    Ok(places)
}

// Adds the places of those rows of a block that conditions let through.
fn push_block(
    alloc: Global,
    rows: FilteredRows<'_, '_>,
    block: Block,
    places: &mut Vec<u32>,
) -> Result<(), NoMemory>
    requires within { block.from + block.length ≤ rows.segment.now.count }
    requires few { block.length ≤ 4096 }
    ensures { OnOk result (places.new.items ≡ places.old.items
        ++ passing (λ at. all_let at rows.entry.row_filters.now) block.from block.length) }
{
    let start = places.len();
    places.resize(start + block.length, 0)?;
    let count = put_block(alloc, rows, block, &mut places[start..])?;
    places.truncate(start + count);
    Ok(())
}

// The block that begins with a row.
fn block_from(from: usize, count: usize) -> Block
    requires { from ≤ count }
    ensures from { result.from ≡ from }
    ensures within { from + result.length ≤ count }
    ensures few { result.length ≤ 4096 }
    ensures left { count - (from + result.length) ≤ count - from - 4096 }
{
    let left = count - from;
    if left < BLOCK {
        return Block { from, length: left };
    }
    Block {
        from,
        length: BLOCK,
    }
}
