//! The command `drop`: a segment goes.
ghost use Rattle.std.specs.Prelude.{◌≡◌, ◌∷◌, [], Some, IfOk, IsErrOf};
ghost use Rattle.outside.specs.Seen.{Seen, seen};
ghost use Rattle.segment_file.specs.Names.{file_of};
ghost use Rattle.command_words.specs.Command.{Drop};
ghost use Rattle.command_model.specs.Drop.{dropped_text};
ghost use Rattle.command_model.specs.Gives.{Removes};
ghost use Rattle.command_model.specs.Profile.{NoFile};
ghost use Rattle.command_model.specs.Ran.{Ran};
ghost use Rattle.command_model.specs.Touched.{WritesThese};

use command_model::{no_segment, stored_table};
use command_words::{Fault, Stop};
use outside::{Bytes, Depot, Seq};
use std::alloc::{AllocError, Global};
use table_store::{StoreFault, drop_segment};

/// The reply to `drop`. The segment's file is not opened.
pub fn drop_named<D: Depot>(alloc: Global, name: &str, depot: &mut D) -> Result<Bytes, Stop>
    ensures { (inputs : Seen) → Ran (Some (Drop name.now))
        (record { inputs = inputs; depot = seen D.Shelf depot.old })
        (record { inputs = inputs; depot = seen D.Shelf depot.new }) result }
{
    stored_table(alloc, depot)?;
    remove(alloc, name, depot)
}

// Takes the segment away. The reply is made before the store is written.
fn remove<D: Depot>(alloc: Global, name: &str, depot: &mut D) -> Result<Bytes, Stop>
    ensures removes { Removes name.now (seen D.Shelf depot.old) (seen D.Shelf depot.new) result }
    ensures reads_still { ¬ IsErrOf result (Stop.Fault Fault.Read) →
        D.read_faults depot.new ≡ D.read_faults depot.old }
    ensures writes_still { ¬ IsErrOf result (Stop.Fault Fault.Write) →
        D.write_faults depot.new ≡ D.write_faults depot.old }
    ensures writes { WritesThese NoFile (file_of name.now ∷ [])
        (seen D.Shelf depot.old) (seen D.Shelf depot.new) }
{
    let reply = dropped(alloc, name)?;
    match drop_segment(alloc, depot, name) {
        Ok(()) => Ok(reply),
        Err(StoreFault::NoSegment) => Err(no_segment(alloc, name)),
        Err(StoreFault::ReadFault) => Err(Stop::Fault(Fault::Read)),
        Err(StoreFault::WriteFault) => Err(Stop::Fault(Fault::Write)),
        Err(StoreFault::NoMemory) => Err(Stop::Fault(Fault::Memory)),
        Err(
            StoreFault::TableExists
            | StoreFault::NoTable
            | StoreFault::NameTaken
            | StoreFault::TooManySegments
            | StoreFault::TooLarge
            | StoreFault::NotASegment(_),
        ) => unreachable!(),
    }
}

/// The reply that a segment was dropped.
pub fn dropped(alloc: Global, name: &str) -> Result<Bytes, AllocError>
    ensures { IfOk result (λ text. text ≡ dropped_text name.now) }
{
    let mut text = b"dropped ".to_vec(alloc)?;
    text.extend_from_slice(name.as_bytes())?;
    text.push(b'\n')?;
    Ok(Seq::from_vec(text))
}
