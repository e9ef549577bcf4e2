//! Records of names, and of rows that are kept column by column.
ghost use Rattle.std.specs.Prelude.{◌≡◌, ◌≤◌, ◌<◌, ◌++◌, IfOk, length, map};
ghost use Rattle.std.specs.List.{All};
ghost use Rattle.csv.specs.Writing.{default_writer, row_text};
ghost use Rattle.values.specs.Columns.{row_of, rows_of};
ghost use Rattle.values.specs.Printed.{text_of};
ghost use Rattle.csv_text.specs.Cells.{AreCells, IsPut};
ghost use Rattle.csv_text.specs.Coded.{HasRow, IsCodedColumn, listed, listed_columns};
ghost use Rattle.csv_text.specs.Rows.{names_of, records_text, rows_text};

use crate::CodedColumn;
use crate::cells::{Cells, cells_of};
use crate::field::{end_record, push_field, separate};
use crate::putting::put_cell;
use data_types::{Bytes, Seq};
use std::alloc::{AllocError, Global};
use table_schema::Field;

// How long a row is likely to be is known of so many.
const FIRST_ROWS: usize = 65_536;

/// The text of so many rows in these columns: the names of the fields, and a record for each row.
pub fn coded_text(
    alloc: Global,
    fields: &[Field],
    columns: &[CodedColumn<'_>],
    rows: usize,
) -> Result<Bytes, AllocError>
    requires some { 0 < length columns.now }
    requires coded { All (IsCodedColumn rows) columns.now }
    ensures { IfOk result (λ text. text
        ≡ rows_text fields.now (rows_of (listed_columns rows columns.now))) }
{
    let cells = cells_of(alloc, columns)?;
    let mut text = names_text(alloc, fields)?;
    let end = put_rows(columns, &cells, rows, &mut text)?;
    text.truncate(end);
    Ok(Seq::from_vec(text))
}

// The record of the names of fields, which a text begins with.
fn names_text(alloc: Global, fields: &[Field]) -> Result<Vec<u8>, AllocError>
    ensures { IfOk result (λ text. text.items ≡ row_text default_writer (names_of fields.now)) }
{
    let mut text = Vec::new(alloc);
    'names: for at in 0..fields.len() {
        separate(at, &mut text)?;
        push_field(fields[at].name.as_slice(), &mut text)?;
    }
    end_record(fields.len(), 0, &mut text)?;
    Ok(text)
}

// Puts a record for each of the rows at the end of a text, and answers where it ends then.
fn put_rows(
    columns: &[CodedColumn<'_>],
    cells: &[Cells],
    rows: usize,
    text: &mut Vec<u8>,
) -> Result<usize, AllocError>
    requires some { 0 < length columns.now }
    requires coded { All (IsCodedColumn rows) columns.now }
    requires cells { AreCells columns.now (length columns.now) cells.now }
    ensures { IfOk result (IsPut text.old.items (length text.old.items)
        (records_text (rows_of (listed_columns rows columns.now))) text.new.items) }
{
    let mut end = text.len();
    'rows: for row in 0..rows {
        make_room(row, rows, text);
        end = put_row(columns, cells, row, text, end)?;
    }
    Ok(end)
}

// Makes room at once for all rows after the first ones, as long as these are, where it comes to
// them. Where there is none, a text grows by and by.
#[inline(always)]
fn make_room(row: usize, rows: usize, text: &mut Vec<u8>)
    ensures { text.new.items ≡ text.old.items }
{
    if row == FIRST_ROWS {
        let each = text.len() / FIRST_ROWS + 1;
        let _ = text.reserve(each.saturating_mul(rows));
    }
}

// Puts the record of a row at the end of a text, and answers where it ends then.
#[inline(always)]
fn put_row(
    columns: &[CodedColumn<'_>],
    cells: &[Cells],
    row: usize,
    text: &mut Vec<u8>,
    at: usize,
) -> Result<usize, AllocError>
    requires at { at ≤ length text.old.items }
    requires some { 0 < length columns.now }
    requires row { All (HasRow row) columns.now }
    requires cells { AreCells columns.now (length columns.now) cells.now }
    ensures { IfOk result (IsPut text.old.items at (row_text default_writer
        (map text_of (row_of (map listed columns.now) row))) text.new.items) }
{
    let last = columns.len() - 1;
    let mut end = at;
    'cells: for k in 0..last {
        end = put_cell(&cells[k], columns[k].ids.at(row) as usize, text, end)?;
    }
    put_cell(&cells[last], columns[last].ids.at(row) as usize, text, end)
}
