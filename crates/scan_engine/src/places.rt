//! The places of the rows of a block that are selected.

ghost use Rattle.std.specs.Prelude.{◌≡◌, ◌≤◌, ◌++◌, [], ◌∷◌, cond, IfOk, OnOk, length};
ghost use Rattle.agg_laws.specs.Numbers.{most_values};
ghost use Rattle.values.specs.Columns.{rows_of};
ghost use Rattle.scan_engine.specs.Places.{rows_at};
ghost use Rattle.scan_engine.specs.Scanned.{selected};

use crate::number_block::NumberBlock;
use crate::selection::mark_rows;
use std::alloc::Global;
use table_schema::BoundQuery;
use values::NoMemory;

/// The places of the rows that satisfy the filter of a query.
pub(crate) fn selected_places(
    alloc: Global,
    query: &BoundQuery,
    block: NumberBlock,
) -> Result<Vec<u32>, NoMemory>
    requires { block.columns.now.count ≤ most_values }
    ensures rows { IfOk result (λ places. rows_at block.entry.columns.now.columns places.items
        ≡ selected query.now (rows_of block.entry.columns.now)) }
    ensures count { IfOk result (λ places. length places.items ≤ block.entry.columns.now.count) }
{
    let marks = mark_rows(alloc, block, query.conjuncts.as_slice())?;
    let mut places = Vec::with_capacity(alloc, block.columns.len())?;
    for at in 0..block.columns.len() {
        push_marked(&mut places, at as u32, marks[at])?;
    }
    Ok(places)
}

// Adds a place where it is marked.
#[inline(always)]
fn push_marked(places: &mut Vec<u32>, at: u32, mark: bool) -> Result<(), NoMemory>
    ensures { OnOk result (places.new.items ≡ places.old.items ++ cond mark (at ∷ []) []) }
{
    if mark {
        places.push(at)?;
    }
    Ok(())
}
