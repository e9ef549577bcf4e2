//! The rows of a CSV text over the fields of a table.
ghost use Rattle.std.specs.Prelude.{◌≡◌, ◌≢◌, ◌≤◌, ◌<◌, ◌+◌, ◌^◌, ◌∷◌, ℕ, List, length, IfOk, IfErr, IfSome, Ok, Err};
ghost use Rattle.csv.specs.Reading.{default_config, records, records_from};
ghost use Rattle.csv.specs.Records.{fields_of};
ghost use Rattle.csv.specs.declared.parser.State.TheVariants as st;
ghost use Rattle.csv_row.specs.Layouts.{IsLayout, header_of};
ghost use Rattle.csv_ingest.specs.Lines.{AtLineEnd, IsHeaderEnd};
ghost use Rattle.values.specs.Columns.{rows_of as rows_of_columns};
ghost use Rattle.csv_row.specs.Columns.{DefaultsFit, OfSorts};
ghost use Rattle.csv_ingest.specs.Blocks.{text_limit};
ghost use Rattle.csv_ingest.specs.Reading.{Reads, records_left};
ghost use Rattle.csv_row.specs.Row.{csv_limits};
ghost use Rattle.csv_ingest.specs.Rows.{records_of, rows_in, rows_of};
ghost use Rattle.table_schema.specs.Valid.{IsValidSchema};
ghost use Rattle.table_schema.specs.ValidTable.{AreRows};

use crate::first_line::{header_end, header_line};
use crate::header::{check_names, names_in};
use crate::lines::push_lines;
use crate::records::{from_place, next_record, text_reader, unmarked, unmarked_len};
use crate::rows::{columns_below, empty_columns, push_block};
use csv::{ByteRecord, Reader};
use csv_row::{CsvFault, CsvKind, Layout};
use std::alloc::Global;
use table_schema::{Field, Schema};
use values::{Columns, Rows};

/// The rows of a CSV text as RFC 4180 has it, one value for each field of the schema, kept column
/// by column.
///
/// The first record is the header. A field is in the column that has its name; where no column
/// has it, and where the cell is empty, its default is in the row. A whole number is an
/// optional `+` or `-` and one digit or more, within 32 or 64 bits, and a text has at most 512
/// bytes. Columns that the schema lacks are passed over, save that their names have to be UTF-8. A
/// line without any character is no record, and one byte order mark at the start is skipped. There
/// are at most 1,048,576 rows, and at most 16,777,216 values. The fault is the first by record, and
/// within a record by the order of the schema.
pub fn read_columns(alloc: Global, schema: &Schema, bytes: &[u8]) -> Result<Columns, CsvFault>
    requires at_most { length bytes.now ≤ text_limit }
    requires defaults { DefaultsFit schema.now.fields }
    ensures ok { IfOk result (λ table. rows_in csv_limits schema.now.fields (records_of bytes.now)
        ≡ Ok (rows_of_columns table)) }
    ensures sorts { IfOk result (λ table. OfSorts schema.now.fields table.columns) }
    ensures err { IfErr result (λ fault. fault ≢ CsvFault.NoMemory
        → rows_in csv_limits schema.now.fields (records_of bytes.now) ≡ Err fault) }
    ensures valid { IsValidSchema schema.now
        → IfOk result (λ table. AreRows schema.now.fields (rows_of_columns table)) }
{
    let text = unmarked(bytes);
    if let Some(end) = header_end(text) {
        match line_columns(alloc, text, end, schema.fields.as_slice()) {
            Ok(Some(columns)) => return Ok(columns),
            Ok(None) => {}
            Err(fault) => return Err(fault),
        }
    }
    record_columns(alloc, bytes, schema.fields.as_slice())
}

/// The same rows, as one list of values each.
pub fn read_rows(alloc: Global, schema: &Schema, bytes: &[u8]) -> Result<Rows, CsvFault>
    requires at_most { length bytes.now ≤ text_limit }
    requires defaults { DefaultsFit schema.now.fields }
    ensures ok { IfOk result (λ rows. rows_in csv_limits schema.now.fields (records_of bytes.now)
        ≡ Ok rows) }
    ensures err { IfErr result (λ fault. fault ≢ CsvFault.NoMemory
        → rows_in csv_limits schema.now.fields (records_of bytes.now) ≡ Err fault) }
    ensures valid { IsValidSchema schema.now → IfOk result (AreRows schema.now.fields) }
{
    match read_columns(alloc, schema, bytes) {
        Ok(table) => Ok(table.rows(alloc)?),
        Err(fault) => Err(fault),
    }
}

// The rows of a text whose first line has no quotes and ends here, unless a cell of a plain line is
// no value of its field.
fn line_columns(
    alloc: Global,
    text: &[u8],
    end: usize,
    fields: &[Field],
) -> Result<Option<Columns>, CsvFault>
    requires at_most { length text.now ≤ text_limit }
    requires end { IsHeaderEnd text.now end }
    requires defaults { DefaultsFit fields.now }
    ensures ok { IfOk result (λ table. IfSome table (λ columns. rows_in csv_limits fields.now
        (records default_config text.now) ≡ Ok (rows_of_columns columns))) }
    ensures sorts { IfOk result (λ table. IfSome table (λ columns.
        OfSorts fields.now columns.columns)) }
    ensures err { IfErr result (λ fault. fault ≢ CsvFault.NoMemory
        → rows_in csv_limits fields.now (records default_config text.now) ≡ Err fault) }
{
    let header = header_line(alloc, text, end)?;
    let names = names_in(alloc, &header)?;
    if let Err(fault) = check_names(fields, &names) {
        return Err(fault);
    }
    let layout = Layout::new(alloc, fields, &names)?;
    rows_below(alloc, from_place(text, end), &layout, text.len())
}

// The rows of at most `most` records of a text that begins with the end of its header, unless a
// cell of a plain line is no value of its field. From the first other line on, records are read.
fn rows_below(
    alloc: Global,
    text: &[u8],
    layout: &Layout,
    most: usize,
) -> Result<Option<Columns>, CsvFault>
    requires most { most < 2 ^ 31 }
    requires layout { IsLayout layout.now }
    requires end { AtLineEnd text.now }
    ensures ok { IfOk result (λ table. IfSome table (λ columns. rows_of csv_limits
        layout.now.fields.now (header_of layout.now)
        (records_from default_config most st.StartRecord text.now)
        ≡ Ok (rows_of_columns columns))) }
    ensures sorts { IfOk result (λ table. IfSome table (λ columns.
        OfSorts layout.now.fields.now columns.columns)) }
    ensures err { IfErr result (λ fault. fault ≢ CsvFault.NoMemory → rows_of csv_limits
        layout.now.fields.now (header_of layout.now)
        (records_from default_config most st.StartRecord text.now) ≡ Err fault) }
{
    let room = most.min(layout.most as usize);
    let mut columns = empty_columns(alloc, layout.fields, room)?;
    let Some(taken) = push_lines(alloc, text, layout, &mut columns, room)? else {
        return Ok(None);
    };
    let rows = taken.rows;
    let mut reader = text_reader(alloc, from_place(text, taken.bytes));
    match push_block(alloc, &mut reader, layout, &mut columns, rows, most - rows) {
        Ok(added) => Ok(Some(Columns::new(columns, rows + added.count))),
        Err(fault) => Err(fault),
    }
}

// The rows of a text, by its records.
fn record_columns(alloc: Global, bytes: &[u8], fields: &[Field]) -> Result<Columns, CsvFault>
    requires at_most { length bytes.now ≤ text_limit }
    requires defaults { DefaultsFit fields.now }
    ensures ok { IfOk result (λ table. rows_in csv_limits fields.now (records_of bytes.now)
        ≡ Ok (rows_of_columns table)) }
    ensures sorts { IfOk result (λ table. OfSorts fields.now table.columns) }
    ensures err { IfErr result (λ fault. fault ≢ CsvFault.NoMemory
        → rows_in csv_limits fields.now (records_of bytes.now) ≡ Err fault) }
{
    let mut reader = text_reader(alloc, bytes);
    schema_records(alloc, &mut reader, unmarked_len(bytes), fields)
}

// The rows of at most `most` records that are left, below this header.
fn schema_columns(
    alloc: Global,
    reader: &mut Reader<&[u8]>,
    most: usize,
    header: &ByteRecord,
    fields: &[Field],
) -> Result<Columns, CsvFault>
    requires most { most < 2 ^ 31 }
    requires defaults { DefaultsFit fields.now }
    requires at_most { length (fields_of header.now) < 2 ^ 31 }
    ensures ok { IfOk result (λ table. (rest : List ℕ) → Reads reader.old rest
        → rows_in csv_limits fields.now (fields_of header.now ∷ records_left most reader.old rest)
        ≡ Ok (rows_of_columns table)) }
    ensures sorts { IfOk result (λ table. OfSorts fields.now table.columns) }
    ensures err { IfErr result (λ fault. fault ≢ CsvFault.NoMemory → (rest : List ℕ)
        → Reads reader.old rest → rows_in csv_limits fields.now (fields_of header.now
        ∷ records_left most reader.old rest) ≡ Err fault) }
{
    let names = names_in(alloc, header)?;
    if let Err(fault) = check_names(fields, &names) {
        return Err(fault);
    }
    columns_below(alloc, reader, most, fields, &names)
}

// The rows of a header and at most `most` records that are left.
fn schema_records(
    alloc: Global,
    reader: &mut Reader<&[u8]>,
    most: usize,
    fields: &[Field],
) -> Result<Columns, CsvFault>
    requires most { most < 2 ^ 31 }
    requires defaults { DefaultsFit fields.now }
    requires left { (rest : List ℕ) × Reads reader.old rest × (length rest ≤ text_limit) }
    ensures ok { IfOk result (λ table. (rest : List ℕ) → Reads reader.old rest
        → rows_in csv_limits fields.now (records_left (most + 1) reader.old rest)
        ≡ Ok (rows_of_columns table)) }
    ensures sorts { IfOk result (λ table. OfSorts fields.now table.columns) }
    ensures err { IfErr result (λ fault. fault ≢ CsvFault.NoMemory → (rest : List ℕ)
        → Reads reader.old rest
        → rows_in csv_limits fields.now (records_left (most + 1) reader.old rest) ≡ Err fault) }
{
    let mut header = ByteRecord::new(alloc);
    if !next_record(reader, &mut header)? {
        return Err(CsvFault::At(CsvKind::NoHeader, 0, 0));
    }
    schema_columns(alloc, reader, most, &header, fields)
}
