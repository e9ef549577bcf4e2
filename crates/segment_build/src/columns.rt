//! Rows are put into columns.
ghost use Rattle.std.specs.Prelude.{◌≡◌, [], length, IfOk, OnOk};
ghost use Rattle.std.specs.List.{All};
ghost use Rattle.values.specs.Columns.{Counts, row_pushed, rows_of};
ghost use Rattle.table_schema.specs.ValidTable.{AreRows};
ghost use Rattle.segment_build.specs.RowColumns.{AreThose, OfFields, SuitsRow, is_of_texts};

use data_types::FieldKind;
use outside::NoMemory;
use std::alloc::Global;
use table_schema::Field;
use values::{Column, Columns, Row, Rows};

/// The columns of rows, one a field.
pub fn columns_of(alloc: Global, fields: &[Field], rows: &Rows) -> Result<Columns, NoMemory>
    requires { AreRows fields.now rows.now }
    ensures rows { IfOk result (λ t. rows_of t ≡ rows.now) }
    ensures width { IfOk result (λ t. length t.columns ≡ length fields.now) }
{
    let count = rows.len();
    let columns = filled(alloc, fields, rows.as_slice())?;
    Ok(Columns::new(columns, count))
}

// The columns of rows, in one pass over these.
fn filled(alloc: Global, fields: &[Field], rows: &[Row]) -> Result<Vec<Column>, NoMemory>
    requires { AreRows fields.now rows.now }
    ensures { IfOk result (λ columns. AreThose fields.now rows.now columns.items) }
{
    let mut columns = empty_columns(alloc, fields, rows.len())?;
    for row in rows {
        push_row(row, &mut columns)?;
    }
    Ok(columns)
}

// Puts the values of a row at the ends of the columns.
fn push_row(row: &Row, columns: &mut [Column]) -> Result<(), NoMemory>
    requires { SuitsRow columns.old row.now }
    ensures { OnOk result (columns.new ≡ row_pushed columns.old row.now) }
{
    'values: for at in 0..row.len() {
        let column = &mut columns[at];
        column.push(row.at(at))?;
    }
    Ok(())
}

// A column for each field, with room for so many rows.
fn empty_columns(alloc: Global, fields: &[Field], rows: usize) -> Result<Vec<Column>, NoMemory>
    ensures sorts { IfOk result (λ columns. OfFields fields.now columns.items) }
    ensures counts { IfOk result (λ columns. All (Counts 0) columns.items) }
{
    let mut columns = Vec::with_capacity(alloc, fields.len())?;
    for field in fields {
        columns.push(empty_column(alloc, field, rows)?)?;
    }
    Ok(columns)
}

fn empty_column(alloc: Global, field: &Field, rows: usize) -> Result<Column, NoMemory>
    ensures { IfOk result (λ c. c ≡ record { are_texts = is_of_texts field.now; values = [] }) }
{
    let mut column = match field.kind {
        FieldKind::Int | FieldKind::Long => Column::numbers(alloc),
        FieldKind::Text => Column::texts(alloc),
    };
    column.reserve(rows)?;
    Ok(column)
}
