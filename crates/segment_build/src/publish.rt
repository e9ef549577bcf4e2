//! A segment's file is published.
ghost use Rattle.std.specs.Prelude.{◌≡◌, ℕ, length, IfErr, OnOk, OnErr, IsErrOf};
ghost use Rattle.outside.specs.Files.{with_file, without_file};
ghost use Rattle.outside.specs.Seen.{OnlyWrites, seen};
ghost use Rattle.table_schema.specs.ValidTable.{AreRows, IsValidTable};
ghost use Rattle.values.specs.Columns.{rows_of};
ghost use Rattle.segment_file.specs.Image.{image};
ghost use Rattle.segment_file.specs.Names.{IsSegmentName, file_of};
ghost use Rattle.segment_build.specs.Made.{file_bytes};
ghost use Rattle.segment_build.specs.Publishing.{incoming};
ghost use Rattle.segment_build.specs.Growing.{IsTooLarge, TreesFit};

use crate::build::make_own_file;
use crate::pieces::Appending;
use crate::taking::give_bytes;
use crate::{BuildFault, MadeFile, columns_of};
use outside::{Depot, DepotFault};
use segment_file::segment_file_name;
use std::alloc::Global;
use table_schema::Table;
use values::{Columns, Rows};

/// The part that each file is written as before it is published.
pub const INCOMING: &str = "incoming";

/// Publishes the file of a segment of these rows, which are kept column by column. The
/// columns are let go as soon as they are coded.
pub fn write_columns<D: Depot>(
    alloc: Global,
    depot: &mut D,
    table: &Table,
    name: &str,
    columns: Columns,
) -> Result<(), BuildFault>
    requires valid { IsValidTable table.now }
    requires name { IsSegmentName name.now }
    requires width { length columns.columns ≡ length table.now.schema.fields }
    requires rows { AreRows table.now.schema.fields (rows_of columns) }
    ensures published { OnOk result (D.held depot.new ≡ with_file (file_of name.now)
        (image 1 table.now name.now (rows_of columns)) (D.held depot.old)) }
    ensures kept { OnErr result (D.held depot.new ≡ D.held depot.old) }
    ensures gone { OnOk result (D.parts depot.new ≡ without_file incoming (D.parts depot.old)) }
    ensures only_writes { OnlyWrites (IsErrOf result BuildFault.WriteFault) incoming
        (seen D.Shelf depot.old) (seen D.Shelf depot.new) }
    ensures fits { OnOk result (TreesFit table.now (rows_of columns)) }
    ensures too_large { IfErr result (λ fault. (tree : ℕ) → fault ≡ BuildFault.TooLarge tree →
        IsTooLarge table.now (rows_of columns) tree) }
{
    let file = segment_file_name(alloc, name)?;
    let made = match make_own_file(alloc, table, name, columns) {
        Ok(made) => made,
        Err(fault) => return Err(fault),
    };
    match publish_made(alloc, depot, file.as_str(), made) {
        Ok(()) => Ok(()),
        Err(DepotFault::Failed) => Err(BuildFault::WriteFault),
        Err(DepotFault::NoMemory) => Err(BuildFault::NoMemory),
        Err(DepotFault::Missing) => unreachable!(),
    }
}

/// The same of rows, as one list of values each.
pub fn write_segment<D: Depot>(
    alloc: Global,
    depot: &mut D,
    table: &Table,
    name: &str,
    rows: &Rows,
) -> Result<(), BuildFault>
    requires valid { IsValidTable table.now }
    requires name { IsSegmentName name.now }
    requires rows { AreRows table.now.schema.fields rows.now }
    ensures published { OnOk result (D.held depot.new ≡ with_file (file_of name.now)
        (image 1 table.now name.now rows.now) (D.held depot.old)) }
    ensures kept { OnErr result (D.held depot.new ≡ D.held depot.old) }
    ensures gone { OnOk result (D.parts depot.new ≡ without_file incoming (D.parts depot.old)) }
    ensures only_writes { OnlyWrites (IsErrOf result BuildFault.WriteFault) incoming
        (seen D.Shelf depot.old) (seen D.Shelf depot.new) }
    ensures fits { OnOk result (TreesFit table.now rows.now) }
    ensures too_large { IfErr result (λ fault. (tree : ℕ) → fault ≡ BuildFault.TooLarge tree →
        IsTooLarge table.now rows.now tree) }
{
    let columns = columns_of(alloc, table.schema.fields.as_slice(), rows)?;
    write_columns(alloc, depot, table, name, columns)
}

/// Puts bytes under a name, as the one part that files are published by.
pub fn publish_file<D: Depot>(
    alloc: Global,
    depot: &mut D,
    name: &str,
    bytes: &[u8],
) -> Result<(), DepotFault>
    ensures published { OnOk result
        (D.held depot.new ≡ with_file name.now bytes.now (D.held depot.old)) }
    ensures kept { OnErr result (D.held depot.new ≡ D.held depot.old) }
    ensures gone { OnOk result (D.parts depot.new ≡ without_file incoming (D.parts depot.old)) }
    ensures only_writes { OnlyWrites (IsErrOf result DepotFault.Failed) incoming
        (seen D.Shelf depot.old) (seen D.Shelf depot.new) }
    ensures never_missing { ¬ IsErrOf result DepotFault.Missing }
{
    depot.begin(alloc, INCOMING)?;
    give_bytes(alloc, &mut Appending, depot, bytes)?;
    depot.publish(alloc, INCOMING, name)
}

// Puts a segment's file under a name, a section after the other, in the same way.
fn publish_made<D: Depot>(
    alloc: Global,
    depot: &mut D,
    name: &str,
    made: MadeFile,
) -> Result<(), DepotFault>
    ensures published { OnOk result (D.held depot.new ≡ with_file name.now
        (file_bytes made) (D.held depot.old)) }
    ensures kept { OnErr result (D.held depot.new ≡ D.held depot.old) }
    ensures gone { OnOk result (D.parts depot.new ≡ without_file incoming (D.parts depot.old)) }
    ensures only_writes { OnlyWrites (IsErrOf result DepotFault.Failed) incoming
        (seen D.Shelf depot.old) (seen D.Shelf depot.new) }
    ensures never_missing { ¬ IsErrOf result DepotFault.Missing }
{
    depot.begin(alloc, INCOMING)?;
    made.give(alloc, &mut Appending, depot)?;
    depot.publish(alloc, INCOMING, name)
}
