//! The rows of a CSV file over the fields of a table.
ghost use Rattle.std.specs.Prelude.{◌≡◌, ◌≢◌, ◌≤◌, length, Ok, Err, IfOk, IfErr, IfSome, IsErrOf};
ghost use Rattle.std.specs.FinMap as map;
ghost use Rattle.std.specs.List.{All};
ghost use Rattle.outside.specs.Counts.{Rose};
ghost use Rattle.outside.specs.Seen.{seen};
ghost use Rattle.values.specs.Columns.{rows_of};
ghost use Rattle.csv_row.specs.Row.{csv_limits};
ghost use Rattle.csv_ingest.specs.Rows.{records_of, rows_in};
ghost use Rattle.csv_ingest.specs.Unicode.{IsUnicode};
ghost use Rattle.table_schema.specs.ValidTable.{IsValidTable};
ghost use Rattle.command_model.specs.Build.{csv_rows};
ghost use Rattle.command_model.specs.Columns.{MakesColumns};
ghost use Rattle.command_model.specs.Gives.{StopsRows, StopsText};
ghost use Rattle.command_words.specs.Notes.{csv_note};
ghost use Rattle.command_model.specs.Profile.{csv_limit};
ghost use Rattle.command_model.specs.Touched.{ReadsFront};

use crate::input::read_input;
use command_words::{Counted, Fault, Note, Stop};
use csv_ingest::{CSV_LIMIT, CsvFault, read_columns};
use outside::Shelf;
use std::alloc::Global;
use table_schema::{Field, Table};
use values::{Columns, Value};

/// The rows of a CSV file over the fields of a table, column by column.
pub fn read_rows<I: Shelf>(
    alloc: Global,
    csv: &str,
    table: &Table,
    inputs: &mut I,
) -> Result<Columns, Stop>
    requires valid { IsValidTable table.now }
    ensures rows { IfOk result (λ columns. IfSome (I.held inputs.old) (λ files.
        csv_rows table.now.schema.fields csv.now (map.get files csv.now) ≡ Ok (rows_of columns))) }
    ensures made { MakesColumns table.now.schema.fields result }
    ensures stops { IfErr result (StopsRows table.now.schema.fields csv.now (I.held inputs.old)
        (Rose (I.read_faults inputs.old) (I.read_faults inputs.new))) }
    ensures unchanged { ¬ IsErrOf result (Stop.Fault Fault.Read) →
        I.read_faults inputs.new ≡ I.read_faults inputs.old }
    ensures reads { ReadsFront csv.now csv_limit
        (seen I.Shelf inputs.old) (seen I.Shelf inputs.new) }
{
    let text = read_input(alloc, csv, Counted::CsvBytes, CSV_LIMIT, inputs)?;
    columns_of(alloc, table, text.as_slice())
}

/// The rows of a CSV text over the fields of a table, column by column.
pub fn csv_columns(alloc: Global, table: &Table, text: &[u8]) -> Result<Columns, CsvFault>
    requires valid { IsValidTable table.now }
    requires short { length text.now ≤ csv_limit }
    ensures rows { IfOk result (λ columns.
        rows_in csv_limits table.now.schema.fields (records_of text.now) ≡ Ok (rows_of columns)) }
    ensures made { MakesColumns table.now.schema.fields result }
    ensures refused { IfErr result (λ fault. fault ≢ CsvFault.NoMemory →
        rows_in csv_limits table.now.schema.fields (records_of text.now) ≡ Err fault) }
{
    look_at_defaults(table.schema.fields.as_slice());
    match read_columns(alloc, &table.schema, text) {
        Ok(columns) => Ok(columns),
        Err(fault) => Err(fault),
    }
}

// The same for a command.
fn columns_of(alloc: Global, table: &Table, text: &[u8]) -> Result<Columns, Stop>
    requires valid { IsValidTable table.now }
    requires short { length text.now ≤ csv_limit }
    ensures rows { IfOk result (λ columns.
        rows_in csv_limits table.now.schema.fields (records_of text.now) ≡ Ok (rows_of columns)) }
    ensures made { MakesColumns table.now.schema.fields result }
    ensures stops { IfErr result
        (StopsText (rows_in csv_limits table.now.schema.fields (records_of text.now))) }
{
    match csv_columns(alloc, table, text) {
        Ok(columns) => Ok(columns),
        Err(fault) => Err(stop_of(fault)),
    }
}

// What a CSV text without rows over the fields of a table is refused for.
fn stop_of(fault: CsvFault) -> Stop
    requires { fault ≢ CsvFault.TooManyColumns }
    ensures refused { fault ≢ CsvFault.NoMemory → result ≡ Stop.Refused (csv_note fault) }
    ensures memory { fault ≡ CsvFault.NoMemory → result ≡ Stop.Fault Fault.Memory }
{
    match fault {
        CsvFault::At(kind, row, column) => Stop::Refused(Note::BadCsv(kind, row, column)),
        CsvFault::TooManyRows(most) => Stop::Refused(Note::TooLarge(
            Counted::Rows,
            u64::from(most),
        )),
        CsvFault::TooManyColumns => unreachable!(),
        CsvFault::NoMemory => Stop::Fault(Fault::Memory),
    }
}

// Looks at the defaults of fields.
fn look_at_defaults(fields: &[Field])
    ensures { All (λ field. IsUnicode field.default) fields.now }
{
    for field in fields {
        look_at(&field.default);
    }
}

// To look at a text tells that it is UTF-8.
fn look_at(value: &Value)
    ensures { IsUnicode value.now }
{
    if let Value::Text(text) = value {
        let _text = text.as_str();
    }
}
