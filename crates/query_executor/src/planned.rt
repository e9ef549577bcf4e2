//! The plan of a segment is made, and written.
ghost use Rattle.std.specs.Prelude.{◌≡◌, ◌++◌, IfOk, OnOk};
ghost use Rattle.outside.specs.Seen.{seen};
ghost use Rattle.table_schema.specs.ValidTable.{IsValidTable};
ghost use Rattle.segment_plan.specs.Explained.{IsDetailed, explained_by};
ghost use Rattle.segment_plan.specs.Plan.{plan_of};
ghost use Rattle.query_executor.specs.Lines.{line_by, plan_line};
ghost use Rattle.segment_opening.specs.Calls.{HasOpeningIn, LooksAtHead};
ghost use Rattle.query_executor.specs.Passes.{IsQueryOf};
ghost use Rattle.query_executor.specs.Steps.{AddsLine, IsPlannedIn};

use eligibility::pick;
use outside::Shelf;
use segment_head::{EngineFault, Head, Stored};
use segment_opening::{load_detailed, open_segment};
use segment_plan::{SegmentPlan, explained_law, head_tells_law, plan, prune, push_plan};
use std::alloc::{AllocError, Global};
use table_schema::{BoundQuery, Table};

/// Adds the line of a segment: its name, and what its plan for a query is.
pub(crate) fn explain_segment<S: Shelf>(
    alloc: Global,
    shelf: &mut S,
    table: &Table,
    segment: &Stored,
    query: &BoundQuery,
    text: &mut Vec<u8>,
) -> Result<(), EngineFault>
    requires { IsQueryOf query.now table.now segment.now }
    ensures ok { OnOk result
        (AddsLine (plan_line query.now table.now) table.now (S.held shelf.old) segment.now
        text.old.items text.new.items) }
    ensures opens { OnOk result (HasOpeningIn table.now (S.held shelf.old) segment.now) }
    ensures looks { LooksAtHead table.now segment.now
        (seen S.Shelf shelf.old) (seen S.Shelf shelf.new) result }
{
    let found = match plan_segment(alloc, shelf, table, segment, query) {
        Ok(found) => found,
        Err(fault) => return Err(fault),
    };
    head_tells_law();
    explained_law();
    let pushed = push_line(alloc, table, segment, query, &found, text);
    drop(found);
    pushed?;
    Ok(())
}

// The head of a segment, and its plan for a query.
#[derive(Drop)]
struct Planned {
    head: Head,
    plan: SegmentPlan,
}

// The plan of a segment. Of one that its bounds exclude no more than the front and the bounds is
// read; of another the dictionaries of the columns that conjuncts name alone, and where a star-tree
// is picked those that its bound is made of.
fn plan_segment<S: Shelf>(
    alloc: Global,
    shelf: &mut S,
    table: &Table,
    segment: &Stored,
    query: &BoundQuery,
) -> Result<Planned, EngineFault>
    requires { IsQueryOf query.now table.now segment.now }
    ensures planned { IfOk result (λ found. IsPlannedIn query.now table.now (S.held shelf.old)
        segment.now found.head found.plan) }
    ensures opens { OnOk result (HasOpeningIn table.now (S.held shelf.old) segment.now) }
    ensures looks { LooksAtHead table.now segment.now
        (seen S.Shelf shelf.old) (seen S.Shelf shelf.new) result }
{
    let mut head = match open_segment(alloc, shelf, table, segment) {
        Ok(head) => head,
        Err(fault) => return Err(fault),
    };
    if prune(query, &head) {
        let plan = SegmentPlan::Pruned;
        return Ok(Planned { head, plan });
    }
    let tree = pick(query, table.settings.trees.as_slice());
    match load_detailed(alloc, shelf, table, query, tree, &mut head) {
        Ok(()) => {}
        Err(fault) => return Err(fault),
    }
    let plan = plan(alloc, query, table, &head)?;
    Ok(Planned { head, plan })
}

// Adds the line of a segment with this plan.
fn push_line(
    alloc: Global,
    table: &Table,
    segment: &Stored,
    query: &BoundQuery,
    found: &Planned,
    text: &mut Vec<u8>,
) -> Result<(), AllocError>
    requires valid { IsValidTable table.now }
    requires planned { found.now.plan ≡ plan_of query.now table.now found.now.head }
    requires detailed { IsDetailed query.now table.now found.now.head found.now.plan }
    ensures { OnOk result (text.new.items ≡ text.old.items
        ++ line_by segment.now.name (explained_by query.now table.now found.now.head)) }
{
    text.extend_from_slice(segment.name.as_slice())?;
    text.push(b',')?;
    push_plan(alloc, query, table, &found.head, &found.plan, text)?;
    text.push(b'\n')?;
    Ok(())
}
