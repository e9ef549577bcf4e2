//! The command `build`: a segment from a CSV file.
ghost use Rattle.std.specs.Prelude.{◌≡◌, ◌∷◌, [], ◌++◌, length, codes, Some, Ok, IfOk, IsErrOf};
ghost use Rattle.std.specs.Fmt.{decimal};
ghost use Rattle.outside.specs.Seen.{Seen, seen};
ghost use Rattle.values.specs.Columns.{rows_of};
ghost use Rattle.segment_file.specs.Names.{IsSegmentName, file_of};
ghost use Rattle.table_schema.specs.ValidTable.{AreRows, IsValidTable};
ghost use Rattle.command_words.specs.Command.{Build, CsvFile};
ghost use Rattle.command_model.specs.Gives.{FindsPlace, Publishes};
ghost use Rattle.command_model.specs.Profile.{NoFile};
ghost use Rattle.command_model.specs.Ran.{Ran};
ghost use Rattle.command_model.specs.Touched.{WritesThese};
ghost use Rattle.command_model.specs.World.{devices};

use command_model::{read_rows, table_with_place};
use command_words::{Counted, Fault, Note, Stop};
use outside::{Bytes, Depot, Seq, Shelf};
use segment_build::{BuildFault, MOST_TREE_BYTES, write_columns};
use std::alloc::{AllocError, Global};
use table_schema::Table;
use values::Columns;

/// The reply to `build`. Where the store has no place for the segment, the CSV file is not looked
/// at.
pub fn build<I: Shelf, D: Depot>(
    alloc: Global,
    name: &str,
    csv: &str,
    inputs: &mut I,
    depot: &mut D,
) -> Result<Bytes, Stop>
    requires { IsSegmentName name.now }
    ensures { Ran (Some (Build name.now (CsvFile csv.now)))
        (devices I.Shelf D.Shelf inputs.old depot.old)
        (devices I.Shelf D.Shelf inputs.new depot.new) result }
{
    let table = table_with_place(alloc, name, depot)?;
    build_in(alloc, &table, name, csv, inputs, depot)
}

// The reply to `build` where the store has a place for the segment.
fn build_in<I: Shelf, D: Depot>(
    alloc: Global,
    table: &Table,
    name: &str,
    csv: &str,
    inputs: &mut I,
    depot: &mut D,
) -> Result<Bytes, Stop>
    requires name { IsSegmentName name.now }
    requires valid { IsValidTable table.now }
    ensures { (first : Seen) → FindsPlace name.now first (seen D.Shelf depot.old) (Ok table.now)
        → Ran (Some (Build name.now (CsvFile csv.now)))
        (record { inputs = seen I.Shelf inputs.old; depot = first })
        (devices I.Shelf D.Shelf inputs.new depot.new) result }
{
    let columns = read_rows(alloc, csv, table, inputs)?;
    publish(alloc, table, name, columns, depot)
}

/// Publishes a segment of rows, where their star-trees are not too large. The reply is made before
/// the store is written.
pub(crate) fn publish<D: Depot>(
    alloc: Global,
    table: &Table,
    name: &str,
    columns: Columns,
    depot: &mut D,
) -> Result<Bytes, Stop>
    requires valid { IsValidTable table.now }
    requires name { IsSegmentName name.now }
    requires width { length columns.columns ≡ length table.now.schema.fields }
    requires rows { AreRows table.now.schema.fields (rows_of columns) }
    ensures publishes { Publishes table.now name.now (rows_of columns)
        (seen D.Shelf depot.old) (seen D.Shelf depot.new) result }
    ensures reads_still { D.read_faults depot.new ≡ D.read_faults depot.old }
    ensures writes_still { ¬ IsErrOf result (Stop.Fault Fault.Write) →
        D.write_faults depot.new ≡ D.write_faults depot.old }
    ensures writes { WritesThese NoFile (file_of name.now ∷ [])
        (seen D.Shelf depot.old) (seen D.Shelf depot.new) }
{
    let reply = built(alloc, name, columns.len())?;
    match write_columns(alloc, depot, table, name, columns) {
        Ok(()) => Ok(reply),
        Err(BuildFault::WriteFault) => Err(Stop::Fault(Fault::Write)),
        Err(BuildFault::NoMemory) => Err(Stop::Fault(Fault::Memory)),
        Err(BuildFault::TooLarge(_)) => Err(Stop::Refused(Note::TooLarge(
            Counted::TreeBytes,
            MOST_TREE_BYTES,
        ))),
    }
}

// The reply that a segment of so many rows was published.
fn built(alloc: Global, name: &str, rows: usize) -> Result<Bytes, AllocError>
    ensures { IfOk result (λ text.
        text ≡ codes "built " ++ name.now ++ codes ", " ++ decimal rows ++ codes " rows\n") }
{
    let mut text = b"built ".to_vec(alloc)?;
    text.extend_from_slice(name.as_bytes())?;
    text.extend_from_slice(b", ")?;
    let digits = rows.to_string(alloc)?;
    text.extend_from_slice(digits.as_bytes())?;
    text.extend_from_slice(b" rows\n")?;
    Ok(Seq::from_vec(text))
}
