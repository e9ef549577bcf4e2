//! The rows of a segment whose head is loaded are added to the groups of a query.
ghost use Rattle.group_table.specs.Pooled.{IsTableIn, StaysIn, in_pool};
ghost use Rattle.std.specs.Prelude.{IfOk};
ghost use Rattle.outside.specs.Seen.{seen};
ghost use Rattle.segment_head.specs.declared.stored.Stored.{Stored};
ghost use Rattle.segment_reads.specs.Looked.{IsDoneIn};
ghost use Rattle.segment_opening.specs.Calls.{IsOpened};
ghost use Rattle.segment_opening.specs.Opened.{IsHeadIn};
ghost use Rattle.query_executor.specs.Passes.{AddsSegment, HasRoomFor, IsLoadedFor};

use crate::scanned::{Scanned, nothing};
use group_table::{GroupTable, SlotPool};
use outside::Shelf;
use segment_head::{EngineFault, Head};
use segment_plan::{SegmentPlan, empty_law, head_tells_law, plan, plan_over_law, pruned_law};
use segment_scan::{IdRooms, image_law, index_law, scan_segment};
use star_answer::{answer_segment, docs_bound_law};
use table_schema::{BoundQuery, Table};

/// Adds the rows of a segment whose dictionaries are loaded, as its plan says.
pub(crate) fn add_planned<S: Shelf>(
    rooms: &mut IdRooms,
    shelf: &mut S,
    table: &Table,
    head: &Head,
    query: &BoundQuery,
    groups: &mut GroupTable,
    pool: &mut SlotPool,
) -> Result<Scanned, EngineFault>
    requires pooled { IsTableIn groups.old pool.old }
    requires room { HasRoomFor query.now (in_pool groups.old pool.old) }
    requires loaded { IsLoadedFor query.now table.now head.now }
    ensures adds { (segment : Stored) → IsOpened table.now (S.held shelf.old) segment head.now →
        AddsSegment query.now table.now segment (in_pool groups.old pool.old) (in_pool groups.new
        pool.new)
        (seen S.Shelf shelf.old) (seen S.Shelf shelf.new) result }
    ensures done { IfOk result (λ done. (segment : Stored) →
        IsHeadIn table.now (S.held shelf.old) segment head.now →
        IsDoneIn query.now table.now (S.held shelf.old) segment done.plan done.docs) }
    ensures stays { StaysIn groups.old pool.old groups.new pool.new }
{
    docs_bound_law();
    head_tells_law();
    pruned_law();
    empty_law();
    plan_over_law();
    image_law();
    index_law();
    let alloc = rooms.alloc();
    match plan(alloc, query, table, head)? {
        SegmentPlan::Scan(plan) => match scan_segment(
            rooms, shelf, head, table, query, &plan, groups, pool,
        ) {
            Ok(docs) => Ok(Scanned {
                plan: SegmentPlan::Scan(plan),
                docs,
            }),
            Err(fault) => Err(fault),
        },
        SegmentPlan::Pruned => Ok(nothing(SegmentPlan::Pruned)),
        SegmentPlan::Empty => Ok(nothing(SegmentPlan::Empty)),
        SegmentPlan::StarTree(tree) => match answer_segment(
            alloc, shelf, head, table, tree, query, groups, pool,
        ) {
            Ok(read) => Ok(Scanned {
                plan: SegmentPlan::StarTree(tree),
                docs: read,
            }),
            Err(fault) => Err(fault),
        },
    }
}
