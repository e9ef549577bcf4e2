//! What comes of a CSV text: each value and a `;`, a line a row, or `Kind record column` of the
//! first fault.
ghost use Rattle.table_schema.specs.Valid.{IsValidSchema};

use crate::schemas::show_fault;
use crate::text::Text;
use csv_ingest::{CSV_LIMIT, CsvFault, defaults_law, read_number_rows, read_rows};
use schema_json::read_schema;
use std::alloc::Global;
use table_schema::Schema;
use values::{Row, Rows};

/// The schema of a text, a 64-bit number and a 32-bit number, with a default of each number.
pub const FIELDS: &str =
    r#"{"schemaName":"F","dimensionFieldSpecs":[{"name":"c","dataType":"STRING"},
{"name":"d","dataType":"LONG","defaultNullValue":-9},{"name":"n","dataType":"INT","defaultNullValue":0}]}"#;

/// The schema of a text and two 64-bit numbers, with the defaults of two dimensions and a metric.
pub const VISITS: &str =
    r#"{"schemaName":"F","dimensionFieldSpecs":[{"name":"Country","dataType":"STRING"},
{"name":"day","dataType":"LONG"}],"metricFieldSpecs":[{"name":"Impressions","dataType":"LONG"}]}"#;

fn show_row(row: &Row, out: &Text) {
    for value in row.as_slice() {
        out.add_value(value, ("", ""));
        out.add(";");
    }
    out.add("\n");
}

// Adds rows, from the one of this place on.
fn show_rows(rows: &Rows, from: usize, out: &Text) {
    for at in from..rows.len() {
        show_row(&rows.as_slice()[at], out);
    }
}

fn show_csv_fault(fault: CsvFault, out: &Text) {
    match fault {
        CsvFault::At(kind, record, column) => {
            out.add_debug(&kind);
            out.add(" ");
            out.add_count(u64::from(record));
            out.add(" ");
            out.add_count(u64::from(column));
        }
        CsvFault::TooManyRows(limit) => {
            out.add("TooManyRows ");
            out.add_count(u64::from(limit));
        }
        CsvFault::TooManyColumns => out.add("TooManyColumns"),
        CsvFault::NoMemory => out.add("NoMemory"),
    }
}

/// Adds the rows of a text whose columns are all whole numbers.
pub fn rows_of_numbers(alloc: Global, text: &[u8], out: &Text) {
    if text.len() as u64 > CSV_LIMIT {
        out.add("too long");
        return;
    }
    let table = read_number_rows(alloc, text);
    match &table {
        Ok(table) => show_rows(&table.1, 0, out),
        Err(fault) => show_csv_fault(*fault, out),
    }
    drop(table);
}

fn rows_over(alloc: Global, schema: &Schema, text: &[u8], from: usize, out: &Text)
    requires { IsValidSchema schema.now }
{
    if text.len() as u64 > CSV_LIMIT {
        out.add("too long");
        return;
    }
    defaults_law();
    let rows = read_rows(alloc, schema, text);
    match &rows {
        Ok(rows) => show_rows(rows, from, out),
        Err(fault) => show_csv_fault(*fault, out),
    }
    drop(rows);
}

// Adds the rows of a text over the fields of a schema, from the one of this place on.
fn rows_from(alloc: Global, schema: &str, text: &[u8], from: usize, out: &Text) {
    match read_schema(alloc, schema.as_bytes()) {
        Ok(schema) => rows_over(alloc, &schema, text, from, out),
        Err(fault) => show_fault(&fault, out),
    }
}

/// Adds the rows of a text over the fields of a schema.
pub fn rows_of_fields(alloc: Global, schema: &str, text: &[u8], out: &Text) {
    rows_from(alloc, schema, text, 0, out);
}

/// Adds the rows of a text over the fields `c`, `d` and `n`, from the one of this place on.
pub fn last_rows(alloc: Global, text: &[u8], from: usize, out: &Text) {
    rows_from(alloc, FIELDS, text, from, out);
}
