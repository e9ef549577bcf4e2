//! The table of a store.

ghost use Rattle.std.specs.Prelude.{◌≡◌, ◌≢◌, ◌⊎◌, IfOk, IfErr, IsErrOf, OnErr};
ghost use Rattle.outside.specs.Files.{Has, Lacks, OfFile};
ghost use Rattle.outside.specs.Seen.{OnlyReads, seen};
ghost use Rattle.outside.specs.Whole.{LogsFront};
ghost use Rattle.table_store.specs.Accepted.{IsNoTableFile, IsTableFile};
ghost use Rattle.table_store.specs.TableFile.{file_limit, table_name};
ghost use Rattle.segment_file.specs.declared.part.Part.TheVariants as part;
ghost use Rattle.table_store.specs.declared.fault.StoreFault.TheVariants.{NoMemory, NotASegment};
ghost use Rattle.table_schema.specs.ValidTable.{IsValidTable};

use crate::{FILE_LIMIT, NAME, StoreFault, texts_of};
use json_keys::TextFault;
use outside::{Depot, ReadAllFault, read_all};
use schema_json::read_schema;
use segment_file::Part;
use settings_json::read_settings;
use std::alloc::Global;
use table_schema::Table;

/// The table of a store. It reads the file of the table alone, and no more of it than two texts at
/// their limit need.
pub fn open_table<D: Depot>(alloc: Global, depot: &mut D) -> Result<Table, StoreFault>
    ensures table { IfOk result (λ table.
        OfFile (D.held depot.old) table_name (λ bytes. IsTableFile bytes table)) }
    ensures valid { IfOk result (λ table. IsValidTable table) }
    ensures none { IsErrOf result StoreFault.NoTable → Lacks (D.held depot.old) table_name }
    ensures other { IsErrOf result (StoreFault.NotASegment Part.Table) →
        OfFile (D.held depot.old) table_name IsNoTableFile }
    ensures present { IsErrOf result StoreFault.NoMemory → Has (D.held depot.old) table_name }
    ensures only_reads { OnlyReads (IsErrOf result StoreFault.ReadFault)
        (seen D.Shelf depot.old) (seen D.Shelf depot.new) }
    ensures only { OnErr result
        (IsErrOf result StoreFault.NoTable ⊎ IsErrOf result (StoreFault.NotASegment Part.Table)
        ⊎ IsErrOf result StoreFault.ReadFault ⊎ IsErrOf result StoreFault.NoMemory) }
    ensures log { LogsFront table_name file_limit (D.log depot.old) (D.log depot.new) }
{
    match read_all(alloc, depot, NAME, FILE_LIMIT) {
        Ok(file) => read_table(alloc, file.as_slice()),
        Err(ReadAllFault::Missing) => Err(StoreFault::NoTable),
        Err(ReadAllFault::TooLong) => Err(StoreFault::NotASegment(Part::Table)),
        Err(ReadAllFault::Failed) => Err(StoreFault::ReadFault),
        Err(ReadAllFault::NoMemory) => Err(StoreFault::NoMemory),
    }
}

// What a refused text is for the file that it is in.
fn of_text(fault: TextFault) -> StoreFault
    ensures text { fault ≢ TextFault.NoMemory → result ≡ NotASegment part.Table }
    ensures memory { fault ≡ TextFault.NoMemory → result ≡ NoMemory }
{
    match fault {
        TextFault::At(_, _) => StoreFault::NotASegment(Part::Table),
        TextFault::NoMemory => StoreFault::NoMemory,
    }
}

// The table that a file is of.
fn read_table(alloc: Global, file: &[u8]) -> Result<Table, StoreFault>
    ensures ok { IfOk result (IsTableFile file.now) }
    ensures valid { IfOk result (λ table. IsValidTable table) }
    ensures err { IfErr result (λ fault.
        fault ≢ NoMemory → (fault ≡ NotASegment part.Table) × IsNoTableFile file.now) }
{
    let Some((schema, settings)) = texts_of(file) else {
        return Err(StoreFault::NotASegment(Part::Table));
    };
    let schema = match read_schema(alloc, schema) {
        Ok(schema) => schema,
        Err(fault) => return Err(of_text(fault)),
    };
    match read_settings(alloc, &schema, settings) {
        Ok(settings) => Ok(Table { schema, settings }),
        Err(fault) => Err(of_text(fault)),
    }
}
