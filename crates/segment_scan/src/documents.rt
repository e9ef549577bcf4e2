//! The rows of some documents of a segment, added to the groups of a query.

ghost use Rattle.std.specs.Prelude.{◌≡◌, ◌≤◌, ℕ, Err, IfOk, IfSome, OnOk, false, get_or, length, true};
ghost use Rattle.outside.specs.Seen.{seen};
ghost use Rattle.group_table.specs.Kept.{FillsUp};
ghost use Rattle.group_table.specs.Pooled.{IsTableIn, StaysIn, in_pool};
ghost use Rattle.scan_engine.specs.Scanned.{IsOverfull};
ghost use Rattle.segment_file.specs.declared.part.Part.{Part};
ghost use Rattle.segment_file.specs.declared.part.Part.TheVariants.{Forward};
ghost use Rattle.column_reader.specs.Calls.{ReadsSections};
ghost use Rattle.column_reader.specs.Forward.{AreReadable, HasIds};
ghost use Rattle.segment_scan.specs.Scans.{HaveRoom};
ghost use Rattle.segment_scan.specs.Documents.{AddsDocs, AreDocsOf, LogsDocs, LogsDocsPartly, selected_docs};
ghost use Rattle.segment_head.specs.declared.fault.EngineFault.TheVariants.{NotASegment, TooManyGroups};

use crate::answered::Answered;
use crate::scan::coded_columns;
use coded_columns::SegmentColumns;
use coded_scan::add_coded;
use column_reader::{IdRooms, pick_columns};
use doc_lists::DocList;
use group_table::{GroupTable, SlotPool, TableFault};
use outside::Shelf;
use segment_head::EngineFault;
use segment_plan::IndexChoice;

/// Adds those of the rows of documents that satisfy the conjuncts that are not served, by the
/// columns that are named. Of the forward section of each the ids of the documents are read, and
/// nothing else.
pub(crate) fn scan_documents<S: Shelf>(
    rooms: &mut IdRooms,
    shelf: &mut S,
    answered: &Answered<'_>,
    named: &[bool],
    choices: &[IndexChoice],
    docs: &DocList,
    groups: &mut GroupTable,
    pool: &mut SlotPool,
) -> Result<(), EngineFault>
    requires pooled { IsTableIn groups.old pool.old }
    requires docs { AreDocsOf answered.now.head.now docs.now }
    requires readable { AreReadable answered.now.head.now named.now }
    requires room { HaveRoom answered.now.query.now (length docs.now)
        (in_pool groups.old pool.old) }
    ensures count { IfOk result (λ _. length docs.now ≤ answered.now.head.now.rows) }
    ensures ok { OnOk result (AddsDocs answered.now.query.now choices.now (S.held shelf.old)
        answered.now.head.now named.now docs.now (in_pool groups.old pool.old) (in_pool groups.new
        pool.new)) }
    ensures full { result ≡ Err TooManyGroups → FillsUp (IfSome (S.held shelf.old) (λ files.
        IsOverfull answered.now.query.now (selected_docs answered.now.query.now choices.now files
        answered.now.head.now named.now docs.now) (in_pool groups.old pool.old)))
        groups.old.most (in_pool groups.new pool.new) }
    ensures bad { (part : Part) → result ≡ Err (NotASegment part) → (column : ℕ)
        × (get_or named.now column false ≡ true) × (part ≡ Forward column)
        × IfSome (S.held shelf.old) (λ files. ¬ HasIds files answered.now.head.now column) }
    ensures reads { ReadsSections result
        (λ _. LogsDocs answered.now.head.now named.now docs.now)
        (LogsDocsPartly answered.now.head.now named.now docs.now)
        (seen S.Shelf shelf.old) (seen S.Shelf shelf.new) }
    ensures stays { StaysIn groups.old pool.old groups.new pool.new }
{
    let alloc = rooms.alloc();
    let head = answered.head;
    let runs = docs.runs();
    let ids = match pick_columns(alloc, shelf, head, named, runs, docs.len()) {
        Ok(ids) => ids,
        Err(fault) => return Err(fault),
    };
    let ids = ids.as_slice();
    let columns = coded_columns(alloc, head, ids)?;
    let segment = SegmentColumns {
        columns: columns.as_slice(),
        count: docs.len(),
    };
    match add_coded(
        alloc,
        answered.query,
        choices,
        &segment,
        &mut rooms.places,
        groups,
        pool,
    ) {
        Ok(()) => Ok(()),
        Err(TableFault::TooManyGroups) => Err(EngineFault::TooManyGroups),
        Err(TableFault::NoMemory) => Err(EngineFault::NoMemory),
    }
}
