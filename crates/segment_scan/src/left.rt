//! The rows that the indexes of a segment leave.

ghost use Rattle.std.specs.Prelude.{◌≡◌, ◌<◌, All, Err, IfOk, IfSome, OnOk, length};
ghost use Rattle.std.specs.FinMap as finite;
ghost use Rattle.outside.specs.Seen.{seen};
ghost use Rattle.group_table.specs.Kept.{FillsUp, groups_in};
ghost use Rattle.group_table.specs.Pooled.{IsTableIn, StaysIn, in_pool};
ghost use Rattle.scan_engine.specs.Scanned.{IsOverfull};
ghost use Rattle.column_reader.specs.Calls.{ReadsSections};
ghost use Rattle.segment_scan.specs.Scans.{IsScannable};
ghost use Rattle.segment_file.specs.declared.part.Part.{Part};
ghost use Rattle.segment_scan.specs.Documents.{AddsDocs, LogsDocs, LogsDocsPartly, selected_docs};
ghost use Rattle.segment_scan.specs.Images.{AddsImage, AreDocs, AreLeftBy, IsBadForward, IsImageOverfull, LogsLeft, LogsParts, LogsPartsPartly, rest_for};
ghost use Rattle.segment_head.specs.Stored.{IsNoImage};
ghost use Rattle.segment_plan.specs.Named.{names_in};
ghost use Rattle.segment_plan.specs.Served.{rest_of};
ghost use Rattle.segment_head.specs.declared.fault.EngineFault.TheVariants.{NotASegment, TooManyGroups};

use crate::answered::Answered;
use crate::documents::scan_documents;
use crate::laws::{image_law, index_law};
use column_reader::IdRooms;
use doc_lists::{DocList, DocSet, parted};
use group_table::{GroupTable, SlotPool};
use outside::Shelf;
use segment_head::EngineFault;
use segment_plan::{IndexChoice, named_columns, sure_choices};

/// Adds those of the rows that the indexes leave that satisfy the other conjuncts to the groups of
/// a query, and answers how many rows the indexes leave. Of those that are not sure the ids are
/// read of each column that is named beside the served conjuncts, and of the others those of each
/// that is named beside the conjuncts of range indexes too, and nothing else.
pub(crate) fn scan_left<S: Shelf>(
    rooms: &mut IdRooms,
    shelf: &mut S,
    answered: &Answered<'_>,
    choices: &[IndexChoice],
    docs: &DocSet,
    unsure: &DocSet,
    groups: &mut GroupTable,
    pool: &mut SlotPool,
) -> Result<u32, EngineFault>
    requires pooled { IsTableIn groups.old pool.old }
    requires scans { IsScannable answered.now.query.now answered.now.table.now
        answered.now.head.now answered.now.head.now.rows (in_pool groups.old pool.old) }
    requires leaves { AreLeftBy answered.now.query.now answered.now.table.now (S.held shelf.old)
        answered.now.head.now choices.now docs.now unsure.now }
    ensures number { IfOk result (λ n. n ≡ length docs.now) }
    ensures count { IfOk result (AreDocs answered.now.query.now answered.now.table.now
        (S.held shelf.old) answered.now.head.now) }
    ensures ok { OnOk result (AddsImage answered.now.query.now answered.now.table.now
        (S.held shelf.old) answered.now.head.now (in_pool groups.old pool.old) (in_pool groups.new
        pool.new)) }
    ensures full { result ≡ Err TooManyGroups → FillsUp (IsImageOverfull answered.now.query.now
        answered.now.table.now (S.held shelf.old) answered.now.head.now (in_pool groups.old
        pool.old)) groups.old.most (in_pool groups.new pool.new) }
    ensures bad { (part : Part) → result ≡ Err (NotASegment part) →
        IsBadForward (rest_for answered.now.query.now answered.now.table.now
        answered.now.head.now) (S.held shelf.old) answered.now.head.now part
        × IsNoImage answered.now.table.now (S.held shelf.old) answered.now.head.now }
    ensures reads { ReadsSections result (λ _. LogsLeft LogsParts answered.now.query.now
        answered.now.table.now answered.now.head.now docs.now) (LogsLeft LogsPartsPartly
        answered.now.query.now answered.now.table.now answered.now.head.now docs.now)
        (seen S.Shelf shelf.old) (seen S.Shelf shelf.new) }
    ensures stays { StaysIn groups.old pool.old groups.new pool.new }
{
    image_law();
    index_law();
    let alloc = rooms.alloc();
    let (check, sure) = parted(alloc, docs, unsure)?;
    let served = sure_choices(alloc, choices)?;
    let served = served.as_slice();
    match scan_part(rooms, shelf, answered, choices, &check, groups, pool) {
        Ok(()) => {}
        Err(fault) => return Err(fault),
    }
    match scan_part(rooms, shelf, answered, served, &sure, groups, pool) {
        Ok(()) => Ok((check.len() + sure.len()) as u32),
        Err(fault) => Err(fault),
    }
}

// Adds those of the rows of documents that satisfy the conjuncts that are not served to the groups
// of a query. Of each column that is named beside the served ones the ids of these documents are
// read, and nothing else.
fn scan_part<S: Shelf>(
    rooms: &mut IdRooms,
    shelf: &mut S,
    answered: &Answered<'_>,
    choices: &[IndexChoice],
    docs: &DocList,
    groups: &mut GroupTable,
    pool: &mut SlotPool,
) -> Result<(), EngineFault>
    requires pooled { IsTableIn groups.old pool.old }
    requires scans { IsScannable answered.now.query.now answered.now.table.now
        answered.now.head.now (length docs.now) (in_pool groups.old pool.old) }
    requires within { All (λ doc. doc < answered.now.head.now.rows) docs.now }
    ensures ok { OnOk result (AddsDocs answered.now.query.now choices.now (S.held shelf.old)
        answered.now.head.now (names_in (rest_of answered.now.query.now choices.now)
        answered.now.table.now) docs.now (in_pool groups.old pool.old) (in_pool groups.new
        pool.new)) }
    ensures full { result ≡ Err TooManyGroups → IfSome (S.held shelf.old) (λ files. IsOverfull
        answered.now.query.now (selected_docs answered.now.query.now choices.now files
        answered.now.head.now (names_in (rest_of answered.now.query.now choices.now)
        answered.now.table.now) docs.now) (in_pool groups.old pool.old)) }
    ensures filled { result ≡ Err TooManyGroups →
        finite.len (groups_in (in_pool groups.new pool.new)) ≡ groups.old.most }
    ensures bad { (part : Part) → result ≡ Err (NotASegment part) →
        IsBadForward (rest_of answered.now.query.now choices.now) (S.held shelf.old)
        answered.now.head.now part
        × IsNoImage answered.now.table.now (S.held shelf.old) answered.now.head.now }
    ensures reads { ReadsSections result (λ _. LogsDocs answered.now.head.now
        (names_in (rest_of answered.now.query.now choices.now) answered.now.table.now) docs.now)
        (LogsDocsPartly answered.now.head.now
        (names_in (rest_of answered.now.query.now choices.now) answered.now.table.now) docs.now)
        (seen S.Shelf shelf.old) (seen S.Shelf shelf.new) }
    ensures stays { StaysIn groups.old pool.old groups.new pool.new }
{
    image_law();
    let named = named_columns(
        rooms.alloc(),
        answered.query,
        choices,
        answered.table.schema.fields.len(),
    )?;
    let named = named.as_slice();
    scan_documents(rooms, shelf, answered, named, choices, docs, groups, pool)
}
