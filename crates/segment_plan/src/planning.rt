//! The plan of a segment.
ghost use Rattle.std.specs.Prelude.{◌≡◌, IfOk};
ghost use Rattle.table_schema.specs.ValidTable.{IsValidTable};
ghost use Rattle.segment_plan.specs.Matched.{AreLoaded};
ghost use Rattle.segment_plan.specs.Plan as spec;

use crate::choice::choices;
use crate::matching::{is_filtered, matched};
use crate::{NoMemory, ScanPlan, SegmentPlan, prune};
use eligibility::pick;
use segment_head::Head;
use std::alloc::Global;
use table_schema::{BoundQuery, Conjunct, Table};

/// What is to be done with the segment of this head: the first that applies. Its bounds exclude all
/// rows; or no value of some column satisfies all the conjuncts on it; or a tree answers; else its
/// rows are scanned.
pub fn plan(
    alloc: Global,
    query: &BoundQuery,
    table: &Table,
    head: &Head,
) -> Result<SegmentPlan, NoMemory>
    requires valid { IsValidTable table.now }
    requires loaded { AreLoaded query.now.conjuncts head.now }
    ensures { IfOk result (λ plan. plan ≡ spec.plan_of query.now table.now head.now) }
{
    let conjuncts = query.conjuncts.as_slice();
    if prune(query, head) {
        return Ok(SegmentPlan::Pruned);
    }
    if is_emptied(alloc, conjuncts, table, head)? {
        return Ok(SegmentPlan::Empty);
    }
    if let Some(tree) = pick(query, table.settings.trees.as_slice()) {
        return Ok(SegmentPlan::StarTree(tree));
    }
    let choices = choices(alloc, conjuncts, &table.settings, head)?;
    Ok(SegmentPlan::Scan(ScanPlan { choices }))
}

// No value of some column satisfies all the conjuncts on it.
fn is_emptied(
    alloc: Global,
    conjuncts: &[Conjunct],
    table: &Table,
    head: &Head,
) -> Result<bool, NoMemory>
    requires valid { IsValidTable table.now }
    requires loaded { AreLoaded conjuncts.now head.now }
    ensures { IfOk result (λ b. b ≡ spec.is_emptied conjuncts.now table.now head.now) }
{
    for column in 0..table.schema.fields.len() {
        if leaves_none(alloc, conjuncts, column as u16, head)? {
            return Ok(true);
        }
    }
    Ok(false)
}

// Conjuncts name the column alone, and none of its values satisfies them all.
fn leaves_none(
    alloc: Global,
    conjuncts: &[Conjunct],
    column: u16,
    head: &Head,
) -> Result<bool, NoMemory>
    requires loaded { AreLoaded conjuncts.now head.now }
    ensures { IfOk result (λ b. b ≡ spec.leaves_none conjuncts.now head.now column) }
{
    if !is_filtered(conjuncts, column) {
        return Ok(false);
    }
    let count = matched(alloc, conjuncts, column, head.dictionary(column))?;
    Ok(count == 0)
}
