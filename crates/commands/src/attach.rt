//! The command `attach`: a segment from the file of one.
ghost use Rattle.std.specs.Prelude.{◌≡◌, ◌∷◌, [], Some, Ok, IfOk, IsErrOf};
ghost use Rattle.outside.specs.Seen.{Seen, seen};
ghost use Rattle.values.specs.Columns.{rows_of};
ghost use Rattle.segment_file.specs.Names.{IsSegmentName, IsSegmentOf, file_of};
ghost use Rattle.command_words.specs.Command.{Attach};
ghost use Rattle.command_model.specs.Attach.{attached_text};
ghost use Rattle.command_model.specs.Gives.{FindsPlace};
ghost use Rattle.command_model.specs.InputImages.{ArePublishable, PutsIn};
ghost use Rattle.command_model.specs.Profile.{NoFile};
ghost use Rattle.command_model.specs.Ran.{Ran};
ghost use Rattle.command_model.specs.Touched.{WritesThese};
ghost use Rattle.command_model.specs.World.{devices};

use command_model::{read_image, table_with_place};
use command_words::{Fault, Stop};
use outside::{Bytes, Depot, Seq, Shelf};
use segment_build::{BuildFault, write_columns};
use std::alloc::{AllocError, Global};
use table_schema::Table;
use values::Columns;

/// The reply to `attach`. Where the store has no place for the segment, the file is not looked at.
pub fn attach<I: Shelf, D: Depot>(
    alloc: Global,
    name: &str,
    file: &str,
    inputs: &mut I,
    depot: &mut D,
) -> Result<Bytes, Stop>
    requires { IsSegmentName name.now }
    ensures { Ran (Some (Attach name.now file.now))
        (devices I.Shelf D.Shelf inputs.old depot.old)
        (devices I.Shelf D.Shelf inputs.new depot.new) result }
{
    let table = table_with_place(alloc, name, depot)?;
    attach_in(alloc, &table, name, file, inputs, depot)
}

// The reply to `attach` where the store has a place for the segment. What is published is made of
// the rows that were read, and the file is not read for it again.
fn attach_in<I: Shelf, D: Depot>(
    alloc: Global,
    table: &Table,
    name: &str,
    file: &str,
    inputs: &mut I,
    depot: &mut D,
) -> Result<Bytes, Stop>
    requires { IsSegmentOf table.now name.now }
    ensures { (first : Seen) → FindsPlace name.now first (seen D.Shelf depot.old) (Ok table.now)
        → Ran (Some (Attach name.now file.now))
        (record { inputs = seen I.Shelf inputs.old; depot = first })
        (devices I.Shelf D.Shelf inputs.new depot.new) result }
{
    let columns = read_image(alloc, table, name, file, inputs)?;
    put_in(alloc, table, name, columns, depot)
}

// Publishes a segment of these rows. The reply is made before the store is written.
fn put_in<D: Depot>(
    alloc: Global,
    table: &Table,
    name: &str,
    columns: Columns,
    depot: &mut D,
) -> Result<Bytes, Stop>
    requires asked { IsSegmentOf table.now name.now }
    requires rows { ArePublishable table.now columns }
    ensures puts { PutsIn table.now name.now (rows_of columns)
        (seen D.Shelf depot.old) (seen D.Shelf depot.new) result }
    ensures reads_still { D.read_faults depot.new ≡ D.read_faults depot.old }
    ensures writes_still { ¬ IsErrOf result (Stop.Fault Fault.Write) →
        D.write_faults depot.new ≡ D.write_faults depot.old }
    ensures writes { WritesThese NoFile (file_of name.now ∷ [])
        (seen D.Shelf depot.old) (seen D.Shelf depot.new) }
{
    let reply = attached(alloc, name, columns.len())?;
    match write_columns(alloc, depot, table, name, columns) {
        Ok(()) => Ok(reply),
        Err(BuildFault::WriteFault) => Err(Stop::Fault(Fault::Write)),
        Err(BuildFault::NoMemory) => Err(Stop::Fault(Fault::Memory)),
        Err(BuildFault::TooLarge(_)) => unreachable!(),
    }
}

// The reply that a segment of so many rows was attached.
fn attached(alloc: Global, name: &str, rows: usize) -> Result<Bytes, AllocError>
    ensures { IfOk result (λ text. text ≡ attached_text name.now rows) }
{
    let mut text = b"attached ".to_vec(alloc)?;
    text.extend_from_slice(name.as_bytes())?;
    text.extend_from_slice(b", ")?;
    let digits = rows.to_string(alloc)?;
    text.extend_from_slice(digits.as_bytes())?;
    text.extend_from_slice(b" rows\n")?;
    Ok(Seq::from_vec(text))
}
