//! A store's table is made.

ghost use Rattle.std.specs.Prelude.{◌≡◌, ◌⊎◌, true, false, Ok, OnOk, OnErr, IsErrOf};
ghost use Rattle.outside.specs.Files.{Has, Lacks, with_file, without_file};
ghost use Rattle.outside.specs.Seen.{seen};
ghost use Rattle.segment_build.specs.Publishing.{incoming};
ghost use Rattle.table_store.specs.Calls.{OnlyPublishes, ReadsNoByte};
ghost use Rattle.table_store.specs.TableFile.{FitsTable, table_file, table_name};

use crate::StoreFault;
use crate::table_file::{NAME, file_of};
use outside::{Depot, DepotFault, ShelfFault};
use segment_build::publish_file;
use std::alloc::Global;

/// Whether there is a table.
pub fn has_table<D: Depot>(alloc: Global, depot: &mut D) -> Result<bool, ShelfFault>
    ensures yes { result ≡ Ok true → Has (D.held depot.old) table_name }
    ensures no { result ≡ Ok false → Lacks (D.held depot.old) table_name }
    ensures never_missing { ¬ IsErrOf result ShelfFault.Missing }
    ensures looks { ReadsNoByte (IsErrOf result ShelfFault.Failed)
        (seen D.Shelf depot.old) (seen D.Shelf depot.new) }
{
    match depot.length(alloc, NAME) {
        Ok(_) => Ok(true),
        Err(ShelfFault::Missing) => Ok(false),
        Err(ShelfFault::Failed) => Err(ShelfFault::Failed),
        Err(ShelfFault::NoMemory) => Err(ShelfFault::NoMemory),
    }
}

/// Makes the table of a store from two texts. For the store to stand for a table, the checks of
/// schemas and of settings have to accept them.
pub fn create_table<D: Depot>(
    alloc: Global,
    depot: &mut D,
    schema: &[u8],
    settings: &[u8],
) -> Result<(), StoreFault>
    requires { FitsTable (record { schema = schema.now; settings = settings.now }) }
    ensures created { OnOk result (D.held depot.new
        ≡ with_file table_name (table_file
        (record { schema = schema.now; settings = settings.now })) (D.held depot.old)) }
    ensures was_none { OnOk result (Lacks (D.held depot.old) table_name) }
    ensures kept { OnErr result (D.held depot.new ≡ D.held depot.old) }
    ensures exists { IsErrOf result StoreFault.TableExists → Has (D.held depot.old) table_name }
    ensures only { OnErr result
        (IsErrOf result StoreFault.TableExists ⊎ IsErrOf result StoreFault.ReadFault
        ⊎ IsErrOf result StoreFault.WriteFault ⊎ IsErrOf result StoreFault.NoMemory) }
    ensures part_gone { OnOk result
        (D.parts depot.new ≡ without_file incoming (D.parts depot.old)) }
    ensures only_publishes { OnlyPublishes (IsErrOf result StoreFault.ReadFault)
        (IsErrOf result StoreFault.WriteFault) (seen D.Shelf depot.old) (seen D.Shelf depot.new) }
    ensures untouched { IsErrOf result StoreFault.TableExists ⊎ IsErrOf result StoreFault.ReadFault
        → D.parts depot.new ≡ D.parts depot.old }
{
    if has_table(alloc, depot)? {
        return Err(StoreFault::TableExists);
    }
    let file = file_of(alloc, schema, settings)?;
    match publish_file(alloc, depot, NAME, &file) {
        Ok(()) => Ok(()),
        Err(DepotFault::Failed) => Err(StoreFault::WriteFault),
        Err(DepotFault::NoMemory) => Err(StoreFault::NoMemory),
        Err(DepotFault::Missing) => unreachable!(),
    }
}
