//! The command `create`: a table from the files of its schema and of its settings.
ghost use Rattle.std.specs.Prelude.{◌≡◌, true, false, [], ◌∷◌, Some, IfOk, IfErr, IsErrOf, Ok, codes, ◌++◌};
ghost use Rattle.outside.specs.Counts.{Rose};
ghost use Rattle.outside.specs.Files.{Has, Lacks};
ghost use Rattle.table_store.specs.TableFile.{FitsTable, table_name};
ghost use Rattle.command_words.specs.Command.{Create, TextFiles};
ghost use Rattle.command_model.specs.Gives.{Makes, StopsLook};
ghost use Rattle.command_model.specs.Profile.{NoFile};
ghost use Rattle.command_model.specs.Ran.{Ran};
ghost use Rattle.command_model.specs.Touched.{OnlyLooks, WritesThese};
ghost use Rattle.outside.specs.Seen.{seen};
ghost use Rattle.command_model.specs.World.{devices};

use command_model::{NewTable, read_table};
use command_words::{Fault, Note, Stop};
use outside::{Bytes, Depot, Seq, Shelf, ShelfFault};
use std::alloc::{AllocError, Global};
use table_store::{StoreFault, create_table, has_table};

/// The reply to `create`. Where there is a table, no input file is looked at.
pub fn create<I: Shelf, D: Depot>(
    alloc: Global,
    schema: &str,
    settings: &str,
    inputs: &mut I,
    depot: &mut D,
) -> Result<Bytes, Stop>
    ensures { Ran (Some (Create (TextFiles schema.now settings.now)))
        (devices I.Shelf D.Shelf inputs.old depot.old)
        (devices I.Shelf D.Shelf inputs.new depot.new) result }
{
    if finds_table(alloc, depot)? {
        return Err(Stop::Refused(Note::TableExists));
    }
    let new = read_table(alloc, schema, settings, inputs)?;
    make(alloc, &new, depot)
}

// The reply that a table was made.
fn created(alloc: Global, table: &[u8]) -> Result<Bytes, AllocError>
    ensures { IfOk result (λ text. text ≡ codes "created " ++ table.now ++ codes "\n") }
{
    let mut text = b"created ".to_vec(alloc)?;
    text.extend_from_slice(table)?;
    text.push(b'\n')?;
    Ok(Seq::from_vec(text))
}

/// Makes a table. The reply is made before the store is written.
pub(crate) fn make<D: Depot>(alloc: Global, new: &NewTable, depot: &mut D) -> Result<Bytes, Stop>
    requires { FitsTable (record { schema = new.now.schema; settings = new.now.settings }) }
    ensures makes { Makes (record { schema = new.now.schema; settings = new.now.settings })
        new.now.table (seen D.Shelf depot.old) (seen D.Shelf depot.new) result }
    ensures reads_still { ¬ IsErrOf result (Stop.Fault Fault.Read) →
        D.read_faults depot.new ≡ D.read_faults depot.old }
    ensures writes_still { ¬ IsErrOf result (Stop.Fault Fault.Write) →
        D.write_faults depot.new ≡ D.write_faults depot.old }
    ensures writes { WritesThese NoFile (table_name ∷ [])
        (seen D.Shelf depot.old) (seen D.Shelf depot.new) }
{
    let reply = created(alloc, new.table.settings.table.as_slice())?;
    match create_table(alloc, depot, new.schema.as_slice(), new.settings.as_slice()) {
        Ok(()) => Ok(reply),
        Err(StoreFault::TableExists) => Err(Stop::Refused(Note::TableExists)),
        Err(StoreFault::ReadFault) => Err(Stop::Fault(Fault::Read)),
        Err(StoreFault::WriteFault) => Err(Stop::Fault(Fault::Write)),
        Err(StoreFault::NoMemory) => Err(Stop::Fault(Fault::Memory)),
        Err(
            StoreFault::NoTable
            | StoreFault::NameTaken
            | StoreFault::NoSegment
            | StoreFault::TooManySegments
            | StoreFault::TooLarge
            | StoreFault::NotASegment(_),
        ) => unreachable!(),
    }
}

/// Whether the store has a table.
pub(crate) fn finds_table<D: Depot>(alloc: Global, depot: &mut D) -> Result<bool, Stop>
    ensures yes { result ≡ Ok true → Has (D.held depot.old) table_name }
    ensures no { result ≡ Ok false → Lacks (D.held depot.old) table_name }
    ensures stops { IfErr result (StopsLook
        (Rose (D.read_faults depot.old) (D.read_faults depot.new))) }
    ensures unchanged { ¬ IsErrOf result (Stop.Fault Fault.Read) →
        D.read_faults depot.new ≡ D.read_faults depot.old }
    ensures looks { OnlyLooks NoFile (seen D.Shelf depot.old) (seen D.Shelf depot.new) }
{
    match has_table(alloc, depot) {
        Ok(found) => Ok(found),
        Err(ShelfFault::Failed) => Err(Stop::Fault(Fault::Read)),
        Err(ShelfFault::NoMemory) => Err(Stop::Fault(Fault::Memory)),
        Err(ShelfFault::Missing) => unreachable!(),
    }
}
