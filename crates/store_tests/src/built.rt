//! The file that is made of a CSV text, by each call that makes one, compared to one.
ghost use Rattle.segment_file.specs.Names.{IsSegmentName};
ghost use Rattle.table_schema.specs.ValidTable.{AreRows, IsValidTable};

use crate::appends::appends;
use csv_ingest::{CSV_LIMIT, read_columns};
use memory_devices::MemoryDepot;
use outside::{Seq, read_all};
use segment_build::{build_columns, build_image, section_lengths, write_segment};
use segment_file::{is_segment_name, segment_file_name};
use std::alloc::{AllocError, Global};
use table_schema::Table;
use table_store::publish_segment;
use values::Rows;

/// Whether the file of the segment of these rows is this one: made of columns, made of lists of
/// values, written, and put in a store.
pub fn compared(
    alloc: Global,
    table: &Table,
    name: &str,
    csv: &[u8],
    file: &[u8],
) -> Result<String, AllocError>
    requires valid { IsValidTable table.now }
{
    if !is_segment_name(name) || csv.len() as u64 > CSV_LIMIT {
        return String::from_str(alloc, "not tried");
    }
    let columns = match read_columns(alloc, &table.schema, csv) {
        Ok(columns) => columns,
        Err(fault) => return format!(in alloc; "{fault:?}"),
    };
    let rows = columns.rows(alloc)?;
    let of_columns = match build_columns(alloc, table, name, &columns) {
        Ok(made) => made.as_slice() == file,
        Err(_) => false,
    };
    let of_rows = match build_image(alloc, table, name, &rows) {
        Ok(made) => made.as_slice() == file,
        Err(_) => false,
    };
    let written = is_stored(alloc, table, name, &rows, file, false)?;
    let published = is_stored(alloc, table, name, &rows, file, true)?;
    if of_columns && of_rows && written && published {
        let given = appends(alloc, table, name, columns)?;
        format!(in alloc; "the same file, {given}")
    } else {
        format!(in alloc; "columns {of_columns}, rows {of_rows}, {written}, {published}")
    }
}

// Whether the file of the segment of these rows is this one where it is written to a folder, or
// published as one of a store's.
fn is_stored(
    alloc: Global,
    table: &Table,
    name: &str,
    rows: &Rows,
    file: &[u8],
    in_store: bool,
) -> Result<bool, AllocError>
    requires valid { IsValidTable table.now }
    requires name { IsSegmentName name.now }
    requires rows { AreRows table.now.schema.fields rows.now }
{
    let mut depot = MemoryDepot::new(alloc, Seq::new(alloc), Seq::new(alloc))?;
    if in_store {
        if publish_segment(alloc, &mut depot, table, name, rows).is_err() {
            return Ok(false);
        }
    } else if write_segment(alloc, &mut depot, table, name, rows).is_err() {
        return Ok(false);
    }
    let stored = segment_file_name(alloc, name)?;
    match read_all(alloc, &mut depot, stored.as_str(), CSV_LIMIT) {
        Ok(bytes) => Ok(bytes.as_slice() == file),
        Err(_) => Ok(false),
    }
}

/// How long the sections of the file of these rows are, in the order of its directory.
pub fn lengths(alloc: Global, table: &Table, name: &str, csv: &[u8]) -> Result<String, AllocError>
    requires valid { IsValidTable table.now }
{
    if !is_segment_name(name) || csv.len() as u64 > CSV_LIMIT {
        return String::from_str(alloc, "not tried");
    }
    let columns = match read_columns(alloc, &table.schema, csv) {
        Ok(columns) => columns,
        Err(fault) => return format!(in alloc; "{fault:?}"),
    };
    match section_lengths(alloc, table, name, &columns.rows(alloc)?) {
        Ok(lengths) => format!(in alloc; "{:?}", lengths.as_slice()),
        Err(fault) => format!(in alloc; "{fault:?}"),
    }
}

/// How the file of so many rows is given to a depot: the number of each, from 0 on, and what is
/// left of it by 7 and by 11.
pub fn generated(alloc: Global, table: &Table, name: &str, rows: u32) -> Result<String, AllocError>
    requires valid { IsValidTable table.now }
{
    let text = numbered(alloc, rows)?;
    if !is_segment_name(name) || text.len() as u64 > CSV_LIMIT {
        return String::from_str(alloc, "not tried");
    }
    match read_columns(alloc, &table.schema, text.as_bytes()) {
        Ok(columns) => appends(alloc, table, name, columns),
        Err(fault) => format!(in alloc; "{fault:?}"),
    }
}

// The CSV text of these rows.
fn numbered(alloc: Global, rows: u32) -> Result<String, AllocError> {
    let mut text = String::from_str(alloc, "a,b,m\n")?;
    for row in 0..rows {
        let line = format!(in alloc; "{},{},{row}\n", row % 7, row % 11)?;
        text.push_str(line.as_str())?;
    }
    Ok(text)
}
