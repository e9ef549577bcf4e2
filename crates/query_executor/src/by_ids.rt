//! The rows of a segment are added by ids of columns that a query only tests.
ghost use Rattle.group_table.specs.Pooled.{IsTableIn, StaysIn, in_pool};
ghost use Rattle.std.specs.Prelude.{IfOk};
ghost use Rattle.outside.specs.Seen.{seen};
ghost use Rattle.segment_reads.specs.Looked.{IsDoneIn};
ghost use Rattle.query_executor.specs.ByIds.{CanAskByIds};
ghost use Rattle.query_executor.specs.Passes.{AddsSegment, HasRoomFor};

use crate::asked::{asked_by_ids, keep_counted};
use crate::laws::ids_law;
use crate::scanned::Scanned;
use group_table::{GroupTable, SlotPool};
use outside::Shelf;
use segment_head::{EngineFault, Head, Stored};
use segment_opening::Found;
use segment_plan::{ScanPlan, SegmentPlan, choices, head_tells_law};
use segment_scan::{IdRooms, image_law, index_law, scan_segment};
use star_answer::docs_bound_law;
use table_schema::{BoundQuery, Table};

/// A query of a segment.
#[derive(Drop)]
pub(crate) struct Asked<'a> {
    pub(crate) table: &'a Table,
    pub(crate) segment: &'a Stored,
    pub(crate) query: &'a BoundQuery,
}

/// Adds the rows of a segment that have ids that were found in the columns that the query tests.
/// The values of these columns are not read.
pub(crate) fn add_by_ids<S: Shelf>(
    rooms: &mut IdRooms,
    shelf: &mut S,
    asked: &Asked<'_>,
    found: Found,
    head: &mut Head,
    groups: &mut GroupTable,
    pool: &mut SlotPool,
) -> Result<Scanned, EngineFault>
    requires pooled { IsTableIn groups.old pool.old }
    requires room { HasRoomFor asked.now.query.now (in_pool groups.old pool.old) }
    requires can { CanAskByIds asked.now.query.now asked.now.table.now (S.held shelf.old)
        asked.now.segment.now head.old found.conjuncts found.counts.items }
    ensures adds { AddsSegment asked.now.query.now asked.now.table.now asked.now.segment.now
        (in_pool groups.old pool.old) (in_pool groups.new pool.new)
        (seen S.Shelf shelf.old) (seen S.Shelf shelf.new) result }
    ensures done { IfOk result (λ done. IsDoneIn asked.now.query.now asked.now.table.now
        (S.held shelf.old) asked.now.segment.now done.plan done.docs) }
    ensures stays { StaysIn groups.old pool.old groups.new pool.new }
{
    docs_bound_law();
    head_tells_law();
    image_law();
    index_law();
    ids_law();
    let alloc = rooms.alloc();
    keep_counted(alloc, found.counts.as_slice(), head)?;
    let by_ids = asked_by_ids(alloc, asked.query, found.conjuncts)?;
    let conjuncts = by_ids.conjuncts.as_slice();
    let choices = choices(alloc, conjuncts, &asked.table.settings, head)?;
    let plan = ScanPlan { choices };
    match scan_segment(
        rooms,
        shelf,
        head,
        asked.table,
        &by_ids,
        &plan,
        groups,
        pool,
    ) {
        Ok(docs) => Ok(Scanned {
            plan: SegmentPlan::Scan(plan),
            docs,
        }),
        Err(fault) => Err(fault),
    }
}
