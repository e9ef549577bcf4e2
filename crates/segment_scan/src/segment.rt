//! A segment of a table is scanned for a query.

ghost use Rattle.std.specs.Prelude.{◌≡◌, Err, IfOk, OnOk};
ghost use Rattle.std.specs.FinMap as finite;
ghost use Rattle.outside.specs.Seen.{seen};
ghost use Rattle.group_table.specs.Kept.{groups_in};
ghost use Rattle.group_table.specs.Pooled.{IsTableIn, StaysIn, in_pool};
ghost use Rattle.segment_file.specs.declared.part.Part.{Part};
ghost use Rattle.segment_scan.specs.Images.{AddsImage, AreDocs, IsBadIn, IsImageOverfull, LogsScan, LogsScanPartly, choices_for};
ghost use Rattle.column_reader.specs.Calls.{ReadsSections};
ghost use Rattle.segment_scan.specs.Scans.{IsScannable};
ghost use Rattle.segment_head.specs.declared.fault.EngineFault.TheVariants.{NotASegment, TooManyGroups};

use crate::answered::Answered;
use crate::laws::{image_law, index_law};
use crate::left::scan_left;
use crate::whole::scan_whole;
use column_reader::IdRooms;
use doc_lists::{DocList, DocSet};
use group_table::{GroupTable, SlotPool};
use index_filter::documents;
use outside::Shelf;
use segment_head::{EngineFault, Head};
use segment_plan::ScanPlan;
use table_schema::{BoundQuery, Table};

/// Adds the rows of a segment that satisfy the filter of a query to its groups, and answers how
/// many rows the indexes leave. Where no conjunct is indexed, the forward section of each column
/// that the query names is read once, one column after the other, and nothing else. Else what the
/// indexes have of the matching ids is read, or of the buckets that overlap them, and then the ids
/// of the documents that are left: of those to be checked in each column that is named beside the
/// served conjuncts, and of those that are sure in each that is named beside the conjuncts of range
/// indexes too. Whole columns are put where those of an earlier segment were.
pub fn scan_segment<S: Shelf>(
    rooms: &mut IdRooms,
    shelf: &mut S,
    head: &Head,
    table: &Table,
    query: &BoundQuery,
    plan: &ScanPlan,
    groups: &mut GroupTable,
    pool: &mut SlotPool,
) -> Result<u32, EngineFault>
    requires pooled { IsTableIn groups.old pool.old }
    requires scans { IsScannable query.now table.now head.now head.now.rows (in_pool groups.old
        pool.old) }
    requires planned { plan.now.choices ≡ choices_for query.now table.now head.now }
    ensures count { IfOk result (AreDocs query.now table.now (S.held shelf.old) head.now) }
    ensures ok { OnOk result (AddsImage query.now table.now (S.held shelf.old) head.now
        (in_pool groups.old pool.old) (in_pool groups.new pool.new)) }
    ensures full { result ≡ Err TooManyGroups →
        IsImageOverfull query.now table.now (S.held shelf.old) head.now (in_pool groups.old
        pool.old) }
    ensures filled { result ≡ Err TooManyGroups →
        finite.len (groups_in (in_pool groups.new pool.new)) ≡ groups.old.most }
    ensures bad { (part : Part) → result ≡ Err (NotASegment part) →
        IsBadIn query.now table.now (S.held shelf.old) head.now part }
    ensures reads { ReadsSections result
        (LogsScan query.now table.now (S.held shelf.old) head.now)
        (LogsScanPartly query.now table.now (S.held shelf.old) head.now)
        (seen S.Shelf shelf.old) (seen S.Shelf shelf.new) }
    ensures stays { StaysIn groups.old pool.old groups.new pool.new }
{
    image_law();
    index_law();
    let alloc = rooms.alloc();
    let choices = plan.choices.as_slice();
    let conjuncts = query.conjuncts.as_slice();
    let mut unsure = DocSet::of_list(DocList::new(alloc));
    let docs = match documents(alloc, shelf, head, conjuncts, choices, &mut unsure) {
        Ok(docs) => docs,
        Err(fault) => return Err(fault),
    };
    match docs {
        None => scan_whole(rooms, shelf, head, table, query, groups, pool),
        Some(docs) => {
            let answered = Answered { head, table, query };
            scan_left(
                rooms, shelf, &answered, choices, &docs, &unsure, groups, pool,
            )
        }
    }
}
