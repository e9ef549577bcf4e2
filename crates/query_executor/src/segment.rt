//! The rows of a segment are added to the groups of a query.
ghost use Rattle.group_table.specs.Pooled.{IsTableIn, StaysIn, in_pool};
ghost use Rattle.std.specs.Prelude.{IfOk};
ghost use Rattle.outside.specs.Seen.{seen};
ghost use Rattle.segment_reads.specs.Looked.{IsDoneIn};
ghost use Rattle.query_executor.specs.Passes.{AddsSegment, HasRoomFor, IsQueryOf};

use crate::adding::add_planned;
use crate::by_ids::{Asked, add_by_ids};
use crate::scanned::{Scanned, nothing};
use eligibility::pick;
use group_table::{GroupTable, SlotPool};
use outside::Shelf;
use segment_head::{EngineFault, Stored};
use segment_opening::{Loaded, load_or_look_up, open_segment};
use segment_plan::{SegmentPlan, empty_law, head_tells_law, plan_over_law, prune, pruned_law};
use segment_scan::IdRooms;
use star_answer::docs_bound_law;
use table_schema::{BoundQuery, Table};

/// Adds the rows of a segment that satisfy the filter of a query to its groups, by a star-tree
/// where one serves the query. Of a segment that its bounds exclude no more than the front and the
/// bounds is read. Where no value of a large dictionary satisfies a conjunct, none is loaded; of
/// columns that are only tested the values are not read.
pub(crate) fn add_segment<S: Shelf>(
    rooms: &mut IdRooms,
    shelf: &mut S,
    table: &Table,
    segment: &Stored,
    query: &BoundQuery,
    groups: &mut GroupTable,
    pool: &mut SlotPool,
) -> Result<Scanned, EngineFault>
    requires pooled { IsTableIn groups.old pool.old }
    requires of_table { IsQueryOf query.now table.now segment.now }
    requires room { HasRoomFor query.now (in_pool groups.old pool.old) }
    ensures adds { AddsSegment query.now table.now segment.now (in_pool groups.old pool.old)
        (in_pool groups.new pool.new)
        (seen S.Shelf shelf.old) (seen S.Shelf shelf.new) result }
    ensures done { IfOk result (λ done. IsDoneIn query.now table.now (S.held shelf.old) segment.now
        done.plan done.docs) }
    ensures stays { StaysIn groups.old pool.old groups.new pool.new }
{
    docs_bound_law();
    let alloc = rooms.alloc();
    let mut head = match open_segment(alloc, shelf, table, segment) {
        Ok(head) => head,
        Err(fault) => return Err(fault),
    };
    head_tells_law();
    pruned_law();
    empty_law();
    plan_over_law();
    if prune(query, &head) {
        return Ok(nothing(SegmentPlan::Pruned));
    }
    let by_tree = pick(query, table.settings.trees.as_slice()).is_some();
    let loaded = match load_or_look_up(alloc, shelf, table, query, by_tree, &mut head) {
        Ok(loaded) => loaded,
        Err(fault) => return Err(fault),
    };
    match loaded {
        Loaded::Emptied => Ok(nothing(SegmentPlan::Empty)),
        Loaded::Wanted => add_planned(rooms, shelf, table, &head, query, groups, pool),
        Loaded::But(found) => {
            let asked = Asked {
                table,
                segment,
                query,
            };
            add_by_ids(rooms, shelf, &asked, found, &mut head, groups, pool)
        }
    }
}
