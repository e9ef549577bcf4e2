//! How many values of each split dimension a query meets in a star-tree.
ghost use Rattle.std.specs.Prelude.{◌≡◌, ◌<◌, IfOk, IfSome, length, slice_get};
ghost use Rattle.table_schema.specs.ValidTable.{IsValidTable};
ghost use Rattle.segment_plan.specs.Factors as spec;
ghost use Rattle.segment_plan.specs.Matched.{AreLoaded};

use crate::NoMemory;
use crate::matching::{is_filtered, matched};
use data_types::Seq;
use segment_head::Head;
use std::alloc::Global;
use table_schema::{BoundQuery, Table};

/// For each split dimension of a tree: how many of its values satisfy the conjuncts on it, if it is
/// filtered; else how many values it has, if it is grouped or no star child is made for it; else 1.
pub fn factors(
    alloc: Global,
    query: &BoundQuery,
    table: &Table,
    head: &Head,
    tree: u8,
) -> Result<Seq<u32>, NoMemory>
    requires valid { IsValidTable table.now }
    requires tree { tree < length table.now.settings.trees }
    requires loaded { AreLoaded query.now.conjuncts head.now }
    requires whole { IfSome (slice_get table.now.settings.trees tree)
        (spec.AreWholeLoaded query.now head.now) }
    ensures { IfOk result (λ factors. IfSome (slice_get table.now.settings.trees tree) (λ setting.
        factors ≡ spec.factors_of query.now head.now setting)) }
{
    let setting = table.settings.trees.at(tree as usize);
    let split = setting.split.as_slice();
    let mut factors = Seq::with_capacity(alloc, split.len())?;
    for level in 0..split.len() {
        let skipped = setting.shape.skips(level);
        factors.push(factor(alloc, query, head, skipped, split[level])?)?;
    }
    Ok(factors)
}

// How many values of a split dimension the query meets.
fn factor(
    alloc: Global,
    query: &BoundQuery,
    head: &Head,
    skipped: bool,
    column: u16,
) -> Result<u32, NoMemory>
    requires loaded { AreLoaded query.now.conjuncts head.now }
    requires whole { spec.IsWholeLoaded query.now head.now skipped column }
    ensures { IfOk result (λ n. n ≡ spec.factor query.now head.now skipped column) }
{
    let conjuncts = query.conjuncts.as_slice();
    if is_filtered(conjuncts, column) {
        return matched(alloc, conjuncts, column, head.dictionary(column));
    }
    if query.groups.as_slice().contains(&column) || skipped {
        return Ok(head.dictionary(column).count());
    }
    Ok(1)
}
