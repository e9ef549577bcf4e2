//! Rows that are in the order of their ids, merged one by one.

ghost use Rattle.std.specs.Prelude.{◌≡◌, ◌≤◌, ◌<◌, length};
ghost use Rattle.std.specs.Prelude.{All, IfOk, OnOk};
ghost use Rattle.agg_laws.specs.Numbers.{most_stored, AreWhole};
ghost use Rattle.agg_laws.specs.Rows.{merged_rows, row_weight};
ghost use Rattle.agg_laws.specs.Merged.{weights};
ghost use Rattle.state_columns.specs.Docs.{projected};
ghost use Rattle.agg_laws.specs.Tree.{merged_docs};
ghost use Rattle.star_rows.specs.Columns.{row_count, rows_of};
ghost use Rattle.star_rows.specs.Projection.{GainsRow, HasColumns, HasRow, IsTableOf};
ghost use Rattle.star_records.specs.Folding.{AreZero, FitTable, HasMerged, MergesRow};
ghost use Rattle.star_rows.specs.Words.{ids_at, states_at};
ghost use Rattle.star_records.specs.Words.{InOrder};

use crate::NoMemory;
use crate::blocks::{Block, columns_at, heads_of, numbers_at, part, zero_columns};
use agg_laws::TreeShape;
use outside::Seq;
use star_rows::{NumberColumns, read_row, repeats};
use star_table::StarTable;
use std::alloc::Global;

// So many rows are gathered at once. Of fewer, each would be on a page of its own in its column.
const BLOCK: usize = 65536;

/// The documents of the rows of some words, merged. A row that has the ids of the one before it is
/// merged at once. The rows are gathered a block at a time, column by column.
pub(crate) fn merge_in_order(
    alloc: Global,
    shape: &TreeShape,
    dims: &Seq<Seq<u32>>,
    metrics: &NumberColumns,
    words: &[u32],
) -> Result<StarTable, NoMemory>
    requires columns { HasColumns shape.now dims.now metrics.now }
    requires at_most { row_count dims.now ≤ most_stored }
    requires order { InOrder (row_count dims.now) dims.now words.now }
    ensures { IfOk result (IsTableOf shape.now (merged_docs merged_rows (projected
        shape.now.kinds (rows_of (row_count dims.now) dims.now metrics.now)))
        (row_count dims.now)) }
{
    let mut table = StarTable::new(alloc, shape)?;
    let zeros = zero_columns(alloc, metrics)?;
    let mut from = 0;
    while from < words.len() {
        let to = block_end(from, words.len());
        let block = Block { from, to };
        let marks = zeros.as_slice();
        merge_block(alloc, &mut table, dims, metrics, marks, words, block)?;
        from = to;
    }
    Ok(table)
}

// Where a block ends that begins here.
fn block_end(from: usize, end: usize) -> usize
    requires { from < end }
    ensures more { from < result }
    ensures within { result ≤ end }
{
    if end - from <= BLOCK {
        return end;
    }
    from + BLOCK
}

// Merges the rows of a block of words.
fn merge_block(
    alloc: Global,
    table: &mut StarTable,
    dims: &Seq<Seq<u32>>,
    metrics: &NumberColumns,
    zeros: &[bool],
    words: &[u32],
    block: Block,
) -> Result<(), NoMemory>
    requires columns { FitTable dims.now metrics.now table.old }
    requires zeros { AreZero zeros.now metrics.now }
    requires at_most { row_count dims.now ≤ most_stored }
    requires order { InOrder (row_count dims.now) dims.now words.now }
    requires within { block.to ≤ length words.now }
    requires begun { HasMerged table.old.kinds dims.now metrics.now words.now block.from table.old }
    ensures merged { OnOk result
        (HasMerged table.old.kinds dims.now metrics.now words.now block.to table.new) }
    ensures dims { OnOk result (table.new.dims ≡ table.old.dims) }
{
    let numbers = numbers_at(alloc, metrics, zeros, part(words, block))?;
    let heads = heads_of(alloc, words, block)?;
    let ids = columns_at(alloc, dims, heads.words.as_slice())?;
    let slots = heads.slots.as_slice();
    let mut id_row = Vec::with_capacity(alloc, dims.len())?;
    let mut values = Vec::with_capacity(alloc, metrics.len())?;
    for at in block.from..block.to {
        if repeats(words, at) {
            merge_row(table, &numbers, at - block.from, &mut values)?;
        } else {
            let place = slots[at - block.from];
            append_row(
                table,
                &ids,
                place,
                &numbers,
                at - block.from,
                &mut id_row,
                &mut values,
            )?;
        }
    }
    Ok(())
}

// Each item of a list of 64-bit numbers is one. It is known of an item that is read, so they are
// read; it costs nothing.
#[inline(always)]
fn are_whole(values: &[i64])
    ensures { AreWhole values.now }
{
    for i in 0..values.len() {
        let _ = values[i];
    }
}

// Merges a row of numbers into the last document.
fn merge_row(
    table: &mut StarTable,
    metrics: &Seq<Seq<i64>>,
    row: usize,
    values: &mut Vec<i64>,
) -> Result<(), NoMemory>
    requires metrics { length metrics.now ≡ length table.old.kinds }
    requires lengths { All (λ c. row < length c) metrics.now }
    requires some { 0 < length table.old.docs }
    requires weight_fits { weights row_weight table.old.docs < most_stored }
    ensures { OnOk result (MergesRow (states_at table.old.kinds metrics.now row)
        table.old table.new) }
{
    read_row(metrics, row, values)?;
    are_whole(values.as_slice());
    table.add_last(values.as_slice());
    Ok(())
}

// Adds a document of its own: the ids in one place and the numbers in another.
fn append_row(
    table: &mut StarTable,
    dims: &Seq<Seq<u32>>,
    place: usize,
    metrics: &Seq<Seq<i64>>,
    row: usize,
    ids: &mut Vec<u32>,
    values: &mut Vec<i64>,
) -> Result<(), NoMemory>
    requires { HasRow place row dims.now metrics.now table.old }
    ensures { OnOk result (GainsRow (ids_at dims.now place)
        (states_at table.old.kinds metrics.now row) table.old table.new) }
{
    read_row(dims, place, ids)?;
    read_row(metrics, row, values)?;
    table.reserve(1)?;
    table.append_values(ids.as_slice(), values.as_slice());
    Ok(())
}
