//! A segment is scanned for a query: what the query names is read, and the rows are added.

ghost use Rattle.std.specs.Prelude.{◌≡◌, ◌<◌, ◌≤◌, ℕ, List, Err, IfOk, IfSome, None, OnOk, Some, false, get_or, length, true};
ghost use Rattle.outside.specs.Seen.{seen};
ghost use Rattle.group_table.specs.Kept.{FillsUp};
ghost use Rattle.group_table.specs.Pooled.{IsTableIn, StaysIn, in_pool};
ghost use Rattle.scan_engine.specs.Scanned.{IsOverfull};
ghost use Rattle.segment_head.specs.Heads.{IsLoaded};
ghost use Rattle.segment_file.specs.declared.part.Part.{Part};
ghost use Rattle.segment_file.specs.declared.part.Part.TheVariants.{Forward};
ghost use Rattle.coded_columns.specs.Coded.{most_rows};
ghost use Rattle.column_reader.specs.Calls.{ReadsSections};
ghost use Rattle.column_reader.specs.Forward.{AreReadable, HasIds, LogsColumns, LogsSome};
ghost use Rattle.segment_scan.specs.Scans.{AddsSegment, HaveRoom, IsCodedOf, selected_read};
ghost use Rattle.segment_head.specs.declared.fault.EngineFault.TheVariants.{NotASegment, TooManyGroups};

use coded_columns::{Coded, Ids, SegmentColumns};
use coded_scan::add_coded;
use column_reader::{IdRooms, read_columns};
use group_table::{GroupTable, SlotPool, TableFault};
use outside::Shelf;
use segment_head::{EngineFault, Head};
use std::alloc::Global;
use table_schema::BoundQuery;
use values::NoMemory;

/// The ids of the columns beside their dictionaries.
pub(crate) fn coded_columns<'a>(
    alloc: Global,
    head: &'a Head,
    ids: &'a [Option<Ids>],
) -> Result<Vec<Option<Coded<'a>>>, NoMemory>
    requires at_most { length ids.now ≤ 65535 }
    requires loaded { (column : ℕ) → (list : List ℕ) → column < length ids.now
        → get_or ids.now column None ≡ Some list → IsLoaded head.now column }
    ensures count { IfOk result (λ columns. length columns.items ≡ length ids.now) }
    ensures each { IfOk result (λ columns. (column : ℕ) → column < length ids.now
        → IsCodedOf head.now column (get_or ids.now column None)
        (get_or columns.items column None)) }
{
    let mut columns = Vec::with_capacity(alloc, ids.len())?;
    for column in 0..ids.len() {
        columns.push(coded_column(head, column as u16, &ids[column]))?;
    }
    Ok(columns)
}

/// Adds the rows of a segment that satisfy the filter of a query to its groups, by the columns that
/// are named, and answers how many rows there are. The forward section of each of these is read
/// once, and nothing else.
pub(crate) fn scan_columns<S: Shelf>(
    rooms: &mut IdRooms,
    shelf: &mut S,
    head: &Head,
    named: &[bool],
    query: &BoundQuery,
    groups: &mut GroupTable,
    pool: &mut SlotPool,
) -> Result<u32, EngineFault>
    requires pooled { IsTableIn groups.old pool.old }
    requires few_rows { head.now.rows ≤ most_rows }
    requires readable { AreReadable head.now named.now }
    requires room { HaveRoom query.now head.now.rows (in_pool groups.old pool.old) }
    ensures count { IfOk result (λ n. n ≡ head.now.rows) }
    ensures ok { OnOk result (AddsSegment query.now (S.held shelf.old) head.now named.now
        (in_pool groups.old pool.old) (in_pool groups.new pool.new)) }
    ensures full { result ≡ Err TooManyGroups → FillsUp (IfSome (S.held shelf.old) (λ files.
        IsOverfull query.now (selected_read query.now files head.now named.now) (in_pool groups.old
        pool.old))) groups.old.most (in_pool groups.new pool.new) }
    ensures bad { (part : Part) → result ≡ Err (NotASegment part) → (column : ℕ)
        × (get_or named.now column false ≡ true) × (part ≡ Forward column)
        × IfSome (S.held shelf.old) (λ files. ¬ HasIds files head.now column) }
    ensures reads { ReadsSections result
        (λ _. LogsColumns head.now named.now (length named.now)) (LogsSome head.now named.now)
        (seen S.Shelf shelf.old) (seen S.Shelf shelf.new) }
    ensures stays { StaysIn groups.old pool.old groups.new pool.new }
{
    let alloc = rooms.alloc();
    let read = match read_columns(rooms, shelf, head, named) {
        Ok(ids) => ids,
        Err(fault) => return Err(fault),
    };
    let ids = read.as_slice();
    let columns = coded_columns(alloc, head, ids)?;
    let segment = SegmentColumns {
        columns: columns.as_slice(),
        count: head.rows() as usize,
    };
    match add_coded(alloc, query, &[], &segment, &mut rooms.places, groups, pool) {
        Ok(()) => {
            drop(columns);
            rooms.give_back(read);
            Ok(head.rows())
        }
        Err(TableFault::TooManyGroups) => Err(EngineFault::TooManyGroups),
        Err(TableFault::NoMemory) => Err(EngineFault::NoMemory),
    }
}

// The ids of a column beside its dictionary.
fn coded_column<'a>(head: &'a Head, column: u16, ids: &'a Option<Ids>) -> Option<Coded<'a>>
    requires { (list : List ℕ) → ids.now ≡ Some list → IsLoaded head.now column }
    ensures { IsCodedOf head.now column ids.now result }
{
    match ids {
        Some(ids) => Some(Coded {
            dictionary: head.dictionary(column),
            ids,
        }),
        None => None,
    }
}
