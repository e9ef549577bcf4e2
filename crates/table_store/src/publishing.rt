//! Segments are put in a store, as new ones or in the place of others.

ghost use Rattle.std.specs.Prelude.{◌≡◌, ◌⊎◌, false, length, IfSome, OnErr, OnOk, IsErrOf};
ghost use Rattle.outside.specs.Seen.{seen};
ghost use Rattle.values.specs.Columns.{rows_of};
ghost use Rattle.table_schema.specs.ValidTable.{AreRows, IsValidTable};
ghost use Rattle.segment_build.specs.Growing.{trees_fit};
ghost use Rattle.segment_file.specs.Names.{IsSegmentName};
ghost use Rattle.table_store.specs.Calls.{IsPublished, OnlyPublishes, TellsPlace};
ghost use Rattle.table_store.specs.Segments.{HasRoom, HasSegment, LacksSegment};

use crate::{StoreFault, find_room, holds_segment};
use outside::Depot;
use segment_build::{BuildFault, write_columns, write_segment};
use std::alloc::Global;
use table_schema::Table;
use values::{Columns, Rows};

/// Publishes a segment of rows: its file is put among the published ones, by the one part that
/// files are published by.
pub fn publish_segment<D: Depot>(
    alloc: Global,
    depot: &mut D,
    table: &Table,
    name: &str,
    rows: &Rows,
) -> Result<(), StoreFault>
    requires valid { IsValidTable table.now }
    requires name { IsSegmentName name.now }
    requires rows { AreRows table.now.schema.fields rows.now }
    ensures published { OnOk result (IsPublished table.now name.now rows.now
        (seen D.Shelf depot.old) (seen D.Shelf depot.new)) }
    ensures kept { OnErr result (D.held depot.new ≡ D.held depot.old) }
    ensures place { TellsPlace (D.held depot.old) name.now result }
    ensures too_large { IsErrOf result StoreFault.TooLarge →
        LacksSegment (D.held depot.old) name.now × IfSome (D.held depot.old) HasRoom
        × (trees_fit table.now rows.now ≡ false) }
    ensures only { OnErr result
        (IsErrOf result StoreFault.NameTaken ⊎ IsErrOf result StoreFault.TooManySegments
        ⊎ IsErrOf result StoreFault.TooLarge ⊎ IsErrOf result StoreFault.ReadFault
        ⊎ IsErrOf result StoreFault.WriteFault ⊎ IsErrOf result StoreFault.NoMemory) }
    ensures only_publishes { OnlyPublishes (IsErrOf result StoreFault.ReadFault)
        (IsErrOf result StoreFault.WriteFault) (seen D.Shelf depot.old) (seen D.Shelf depot.new) }
{
    match find_room(alloc, depot, name) {
        Ok(()) => {}
        Err(fault) => return Err(fault),
    }
    match write_segment(alloc, depot, table, name, rows) {
        Ok(()) => Ok(()),
        Err(BuildFault::WriteFault) => Err(StoreFault::WriteFault),
        Err(BuildFault::NoMemory) => Err(StoreFault::NoMemory),
        Err(BuildFault::TooLarge(_)) => Err(StoreFault::TooLarge),
    }
}

/// Publishes a segment of rows, which are kept column by column, in the place of the one of this
/// name.
pub fn replace_segment<D: Depot>(
    alloc: Global,
    depot: &mut D,
    table: &Table,
    name: &str,
    columns: Columns,
) -> Result<(), StoreFault>
    requires valid { IsValidTable table.now }
    requires name { IsSegmentName name.now }
    requires width { length columns.columns ≡ length table.now.schema.fields }
    requires rows { AreRows table.now.schema.fields (rows_of columns) }
    ensures published { OnOk result (IsPublished table.now name.now (rows_of columns)
        (seen D.Shelf depot.old) (seen D.Shelf depot.new)) }
    ensures was_there { OnOk result (HasSegment (D.held depot.old) name.now) }
    ensures kept { OnErr result (D.held depot.new ≡ D.held depot.old) }
    ensures missing { IsErrOf result StoreFault.NoSegment →
        LacksSegment (D.held depot.old) name.now }
    ensures too_large { IsErrOf result StoreFault.TooLarge → HasSegment (D.held depot.old) name.now
        × (trees_fit table.now (rows_of columns) ≡ false) }
    ensures only { OnErr result
        (IsErrOf result StoreFault.NoSegment ⊎ IsErrOf result StoreFault.TooLarge
        ⊎ IsErrOf result StoreFault.ReadFault ⊎ IsErrOf result StoreFault.WriteFault
        ⊎ IsErrOf result StoreFault.NoMemory) }
    ensures only_publishes { OnlyPublishes (IsErrOf result StoreFault.ReadFault)
        (IsErrOf result StoreFault.WriteFault) (seen D.Shelf depot.old) (seen D.Shelf depot.new) }
{
    match holds_segment(alloc, depot, name) {
        Ok(true) => {}
        Ok(false) => return Err(StoreFault::NoSegment),
        Err(fault) => return Err(fault),
    }
    match write_columns(alloc, depot, table, name, columns) {
        Ok(()) => Ok(()),
        Err(BuildFault::WriteFault) => Err(StoreFault::WriteFault),
        Err(BuildFault::NoMemory) => Err(StoreFault::NoMemory),
        Err(BuildFault::TooLarge(_)) => Err(StoreFault::TooLarge),
    }
}
