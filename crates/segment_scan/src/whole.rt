//! All rows of a segment are looked at.

ghost use Rattle.std.specs.Prelude.{◌≡◌, Err, IfOk, OnOk, length};
ghost use Rattle.std.specs.FinMap as finite;
ghost use Rattle.outside.specs.Seen.{seen};
ghost use Rattle.group_table.specs.Kept.{groups_in};
ghost use Rattle.group_table.specs.Pooled.{IsTableIn, StaysIn, in_pool};
ghost use Rattle.segment_file.specs.declared.part.Part.{Part};
ghost use Rattle.column_reader.specs.Forward.{LogsColumns, LogsSome};
ghost use Rattle.column_reader.specs.Calls.{ReadsSections};
ghost use Rattle.segment_scan.specs.Scans.{IsScannable};
ghost use Rattle.segment_scan.specs.Images.{AddsWhole, IsBadWhole, IsWholeOverfull};
ghost use Rattle.segment_plan.specs.Named.{names_in};
ghost use Rattle.segment_head.specs.declared.fault.EngineFault.TheVariants.{NotASegment, TooManyGroups};

use crate::laws::image_law;
use crate::scan::scan_columns;
use column_reader::IdRooms;
use group_table::{GroupTable, SlotPool};
use outside::Shelf;
use segment_head::{EngineFault, Head};
use segment_plan::named_columns;
use table_schema::{BoundQuery, Table};

/// Adds the rows of a segment that satisfy the filter of a query to its groups, and answers how
/// many rows the segment has. The forward section of each column that the query names is read once,
/// one column after the other, and nothing else.
pub(crate) fn scan_whole<S: Shelf>(
    rooms: &mut IdRooms,
    shelf: &mut S,
    head: &Head,
    table: &Table,
    query: &BoundQuery,
    groups: &mut GroupTable,
    pool: &mut SlotPool,
) -> Result<u32, EngineFault>
    requires pooled { IsTableIn groups.old pool.old }
    requires room { IsScannable query.now table.now head.now head.now.rows (in_pool groups.old
        pool.old) }
    ensures count { IfOk result (λ n. n ≡ head.now.rows) }
    ensures ok { OnOk result (AddsWhole query.now table.now (S.held shelf.old) head.now
        (in_pool groups.old pool.old) (in_pool groups.new pool.new)) }
    ensures full { result ≡ Err TooManyGroups →
        IsWholeOverfull query.now table.now (S.held shelf.old) head.now (in_pool groups.old
        pool.old) }
    ensures filled { result ≡ Err TooManyGroups →
        finite.len (groups_in (in_pool groups.new pool.new)) ≡ groups.old.most }
    ensures bad { (part : Part) → result ≡ Err (NotASegment part) →
        IsBadWhole query.now table.now (S.held shelf.old) head.now part }
    ensures reads { ReadsSections result (λ _. LogsColumns head.now
        (names_in query.now table.now) (length table.now.schema.fields))
        (LogsSome head.now (names_in query.now table.now))
        (seen S.Shelf shelf.old) (seen S.Shelf shelf.new) }
    ensures stays { StaysIn groups.old pool.old groups.new pool.new }
{
    image_law();
    let named = named_columns(rooms.alloc(), query, &[], table.schema.fields.len())?;
    let named = named.as_slice();
    scan_columns(rooms, shelf, head, named, query, groups, pool)
}
