//! Rows as documents, merged.

ghost use Rattle.std.specs.Prelude.{◌≤◌, length, IfOk};
ghost use Rattle.agg_laws.specs.Numbers.{most_stored};
ghost use Rattle.agg_laws.specs.Rows.{merged_rows};
ghost use Rattle.state_columns.specs.Docs.{projected};
ghost use Rattle.agg_laws.specs.Tree.{merged_docs};
ghost use Rattle.star_rows.specs.Columns.{row_count, rows_of};
ghost use Rattle.star_rows.specs.Projection.{HasColumns, IsTableOf};

use crate::NoMemory;
use crate::fold::merge_in_order;
use crate::merging::merge_equal;
use crate::slot_docs::merge_slots;
use crate::slots::slots_of;
use crate::words::words_in_order;
use agg_laws::TreeShape;
use outside::Seq;
use star_rows::{NumberColumns, project};
use star_table::StarTable;
use std::alloc::Global;

/// The documents of the rows, sorted by their ids, those of equal ids merged. Where no more
/// combinations of ids are possible than there are rows, each has a slot, and the rows are merged
/// in the order in which they come. Else, where the ids of a row fit in a word, the rows are sorted
/// as words. There is one document a combination at most. The ids are let go as soon as they are
/// not needed.
pub fn project_merged(
    alloc: Global,
    shape: &TreeShape,
    dims: Seq<Seq<u32>>,
    metrics: &NumberColumns,
) -> Result<StarTable, NoMemory>
    requires columns { HasColumns shape.now dims metrics.now }
    requires at_most { row_count dims ≤ most_stored }
    ensures table { IfOk result (IsTableOf shape.now (merged_docs merged_rows (projected
        shape.now.kinds (rows_of (row_count dims) dims metrics.now))) (row_count dims)) }
    ensures count { IfOk result (λ table. length table.docs ≤ row_count dims) }
{
    let rows = dims.at(0).len();
    if let Some(slots) = slots_of(alloc, &dims, rows)? {
        return merge_slots(alloc, shape, dims, metrics, slots);
    }
    match words_in_order(alloc, &dims, rows)? {
        None => {
            let documents = project(alloc, shape, &dims, metrics)?;
            drop(dims);
            merge_equal(documents)
        }
        Some(words) => merge_in_order(alloc, shape, &dims, metrics, words.as_slice()),
    }
}
