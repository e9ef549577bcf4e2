//! The places of the rows of a block that conditions let through.

ghost use Rattle.std.specs.Prelude.{◌≡◌, ◌+◌, ◌/◌, ◌<◌, ◌≤◌, IfOk, true, length, take};
ghost use Rattle.coded_columns.specs.Coded.{most_rows};
ghost use Rattle.coded_scan.specs.RowFilters.{all_let, passing};

use crate::block::Block;
use crate::block_marks::mark_block;
use crate::filtered_rows::FilteredRows;
use crate::marked_places::put_marked;
use std::alloc::Global;
use values::NoMemory;

/// The marks of a block are so many words.
const WORDS: usize = 65;

/// Puts the places of those rows of a block that all conditions let through to the front of room
/// for all of its rows, and says how many they are.
pub fn put_block(
    alloc: Global,
    rows: FilteredRows<'_, '_>,
    block: Block,
    out: &mut [u32],
) -> Result<usize, NoMemory>
    requires within { block.from + block.length ≤ rows.segment.now.count }
    requires few { block.length ≤ 4096 }
    requires room { length out.old ≡ block.length }
    ensures count { IfOk result (λ count. count ≤ length out.new) }
    ensures places { IfOk result (λ count. take count out.new
        ≡ passing (λ at. all_let at rows.entry.row_filters.now) block.from block.length) }
{
    if rows.row_filters.is_empty() {
        put_all(block.from as u32, out);
        return Ok(block.length);
    }
    let many = block.length / 64 + 1;
    let mut words = [0u64; WORDS];
    let mut others = [0u64; WORDS];
    put_let(
        alloc,
        rows,
        block,
        &mut words[..many],
        &mut others[..many],
        out,
    )
}

// The same where there are conditions, with room for the marks of all and of one.
fn put_let(
    alloc: Global,
    rows: FilteredRows<'_, '_>,
    block: Block,
    words: &mut [u64],
    others: &mut [u64],
    out: &mut [u32],
) -> Result<usize, NoMemory>
    requires some { 0 < length rows.row_filters.now }
    requires within { block.from + block.length ≤ rows.segment.now.count }
    requires words { length words.old ≡ block.length / 64 + 1 }
    requires same { length others.old ≡ length words.old }
    requires room { length out.old ≡ block.length }
    ensures count { IfOk result (λ count. count ≤ length out.new) }
    ensures places { IfOk result (λ count. take count out.new
        ≡ passing (λ at. all_let at rows.entry.row_filters.now) block.from block.length) }
{
    mark_block(
        alloc,
        rows.row_filters,
        rows.segment.count,
        block,
        words,
        others,
    )?;
    Ok(put_marked(block.from as u32, words, out))
}

// Puts the places of rows from one on.
fn put_all(from: u32, out: &mut [u32])
    requires { from + length out.old ≤ most_rows }
    ensures { out.new ≡ passing (λ at. true) from (length out.old) }
{
    for at in 0..out.len() {
        out[at] = from + at as u32;
    }
}
