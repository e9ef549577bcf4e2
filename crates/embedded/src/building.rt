//! Segments are built, and dropped.
ghost use Rattle.std.specs.Prelude.{◌≡◌, ◌⊎◌, false, length, OnErr, OnOk, IsErrOf};
ghost use Rattle.outside.specs.Files.{with_file};
ghost use Rattle.outside.specs.Seen.{OnlyWrites, seen};
ghost use Rattle.values.specs.Columns.{rows_of};
ghost use Rattle.segment_build.specs.Growing.{TreesFit, trees_fit};
ghost use Rattle.segment_build.specs.Publishing.{incoming};
ghost use Rattle.segment_file.specs.Image.{image};
ghost use Rattle.segment_file.specs.Names.{IsSegmentName, file_of};
ghost use Rattle.table_schema.specs.ValidTable.{AreRows, IsValidTable};
ghost use Rattle.embedded.specs.Calls.{Builds, Drops};
ghost use Rattle.embedded.specs.Rows.{csv_rows, own_rows};
ghost use Rattle.embedded.specs.Stores.{over};

use crate::Fault;
use crate::rows::{are_rows, look_at_rows};
use command_model::{CSV_LIMIT, csv_columns};
use outside::Depot;
use segment_build::{BuildFault, write_columns};
use segment_file::is_segment_name;
use std::alloc::Global;
use table_schema::Table;
use table_store::{StoreFault, drop_segment, find_room, publish_segment};
use values::{Columns, Rows};

/// Builds a segment of the rows of a CSV text.
pub fn build_of_csv<D: Depot>(
    alloc: Global,
    depot: &mut D,
    table: &Table,
    name: &str,
    csv: &[u8],
) -> Result<(), Fault>
    requires { IsValidTable table.now }
    ensures { Builds name.now (csv_rows table.now.schema.fields csv.now)
        (over table.now (seen D.Shelf depot.old)) (over table.now (seen D.Shelf depot.new)) result }
{
    if !is_segment_name(name) {
        return Err(Fault::BadName);
    }
    if csv.len() as u64 > CSV_LIMIT {
        return Err(Fault::TooLong(CSV_LIMIT));
    }
    match find_room(alloc, depot, name) {
        Ok(()) => {}
        Err(fault) => return Err(Fault::Store(fault)),
    }
    let columns = match csv_columns(alloc, table, csv) {
        Ok(columns) => columns,
        Err(fault) => return Err(Fault::from(fault)),
    };
    match publish(alloc, depot, table, name, columns) {
        Ok(()) => Ok(()),
        Err(fault) => Err(Fault::Store(fault)),
    }
}

/// Builds a segment of rows that a program made.
pub fn build_of_rows<D: Depot>(
    alloc: Global,
    depot: &mut D,
    table: &Table,
    name: &str,
    rows: &Rows,
) -> Result<(), Fault>
    requires { IsValidTable table.now }
    ensures { Builds name.now (own_rows table.now.schema.fields rows.now)
        (over table.now (seen D.Shelf depot.old)) (over table.now (seen D.Shelf depot.new)) result }
{
    if !is_segment_name(name) {
        return Err(Fault::BadName);
    }
    if !are_rows(table.schema.fields.as_slice(), rows) {
        return Err(Fault::BadRows);
    }
    look_at_rows(rows.as_slice());
    match publish_segment(alloc, depot, table, name, rows) {
        Ok(()) => Ok(()),
        Err(fault) => Err(Fault::Store(fault)),
    }
}

/// Drops the segment of a name.
pub fn drop_named<D: Depot>(
    alloc: Global,
    depot: &mut D,
    table: &Table,
    name: &str,
) -> Result<(), Fault>
    ensures { Drops name.now (over table.now (seen D.Shelf depot.old))
        (over table.now (seen D.Shelf depot.new)) result }
{
    match drop_segment(alloc, depot, name) {
        Ok(()) => Ok(()),
        Err(fault) => Err(Fault::Store(fault)),
    }
}

// Publishes a segment of rows, where their star-trees are not too large.
fn publish<D: Depot>(
    alloc: Global,
    depot: &mut D,
    table: &Table,
    name: &str,
    columns: Columns,
) -> Result<(), StoreFault>
    requires valid { IsValidTable table.now }
    requires name { IsSegmentName name.now }
    requires width { length columns.columns ≡ length table.now.schema.fields }
    requires rows { AreRows table.now.schema.fields (rows_of columns) }
    ensures published { OnOk result (D.held depot.new ≡ with_file (file_of name.now)
        (image 1 table.now name.now (rows_of columns)) (D.held depot.old)) }
    ensures fits { OnOk result (TreesFit table.now (rows_of columns)) }
    ensures kept { OnErr result (D.held depot.new ≡ D.held depot.old) }
    ensures too_large { IsErrOf result StoreFault.TooLarge →
        trees_fit table.now (rows_of columns) ≡ false }
    ensures only { OnErr result (IsErrOf result StoreFault.TooLarge
        ⊎ IsErrOf result StoreFault.WriteFault ⊎ IsErrOf result StoreFault.NoMemory) }
    ensures only_writes { OnlyWrites (IsErrOf result StoreFault.WriteFault) incoming
        (seen D.Shelf depot.old) (seen D.Shelf depot.new) }
{
    match write_columns(alloc, depot, table, name, columns) {
        Ok(()) => Ok(()),
        Err(BuildFault::WriteFault) => Err(StoreFault::WriteFault),
        Err(BuildFault::NoMemory) => Err(StoreFault::NoMemory),
        Err(BuildFault::TooLarge(_)) => Err(StoreFault::TooLarge),
    }
}
