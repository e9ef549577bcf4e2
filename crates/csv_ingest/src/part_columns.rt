//! The rows of a part of a text, column by column.
ghost use Rattle.std.specs.Prelude.{◌≡◌, ◌<◌, ◌≤◌, ◌+◌, ◌*◌, ℕ, true, false, length, get_or, IfOk, IfSome, Ok};
ghost use Rattle.csv_row.specs.Columns.{DefaultFits, Pushes, is_text_kind};
ghost use Rattle.csv_row.specs.Layouts.{header_of};
ghost use Rattle.csv_row.specs.Row.{cell_value};
ghost use Rattle.values.specs.Columns.{is_text};
ghost use Rattle.values.specs.declared.value.Value.TheVariants as value;
ghost use Rattle.csv_ingest.specs.Parts.{AddsPart, AddsValues, AreMarks, FitsPart, IsPart, ReadsPart, cell_at, field_value, line_cells};

use crate::parts::Part;
use csv_row::{Layout, push_value};
use data_types::FieldKind;
use std::alloc::AllocError;
use table_schema::Field;
use values::{Column, Value};

/// Adds the rows of a part at the ends of columns, if each of its cells has a value.
pub fn push_part(
    part: Part<'_>,
    layout: &Layout,
    columns: &mut Vec<Column>,
) -> Result<bool, AllocError>
    requires fits { FitsPart part layout.now columns.old.items }
    requires some { 0 < part.rows }
    ensures { IfOk result (λ done. done ≡ true → ReadsPart layout.now.fields.now
        (header_of layout.now) part.entry.text.now columns.old.items columns.new.items
        part.entry.rows (get_or part.entry.places.now part.entry.last 0)) }
{
    push_fields(part, layout, columns)
}

// Adds the values of a part, field by field.
fn push_fields(
    part: Part<'_>,
    layout: &Layout,
    columns: &mut Vec<Column>,
) -> Result<bool, AllocError>
    requires { FitsPart part layout.now columns.old.items }
    ensures { IfOk result (λ done. done ≡ true → AddsPart part.entry layout.now.fields.now
        layout.now.places.items columns.old.items columns.new.items) }
{
    let fields = layout.fields;
    let places = layout.places.as_slice();
    'fields: for i in 0..fields.len() {
        let column = &mut columns[i];
        if !push_field(part, &fields[i], places[i], column)? {
            return Ok(false);
        }
    }
    Ok(true)
}

/// Adds the values of a field.
pub fn push_field(
    part: Part<'_>,
    field: &Field,
    place: Option<usize>,
    column: &mut Column,
) -> Result<bool, AllocError>
    requires part { IsPart part }
    requires first { IfSome place (λ n. 1 ≤ n) }
    requires within { IfSome place (λ n. n ≤ part.width) }
    requires sort { column.old.are_texts ≡ is_text_kind field.now.kind }
    requires default { DefaultFits field.now }
    ensures { IfOk result (λ done. done ≡ true → AddsValues
        (λ r. field_value field.now place (line_cells part.entry r)) part.entry.rows
        column.old column.new) }
{
    match place {
        Some(at) => push_cells(part, field, at - 1, column),
        None => {
            push_defaults(part.rows, &field.default, column)?;
            Ok(true)
        }
    }
}

// Adds a value for each row.
fn push_defaults(rows: usize, value: &Value, column: &mut Column) -> Result<(), AllocError>
    requires { column.old.are_texts ≡ is_text value.now }
    ensures { IfOk result (λ _. AddsValues (λ _. Ok value.now) rows column.old column.new) }
{
    'rows: for _i in 0..rows {
        column.push(value)?;
    }
    Ok(())
}

// Adds the values of the cells that are in one place of each line.
fn push_cells(
    part: Part<'_>,
    field: &Field,
    at: usize,
    column: &mut Column,
) -> Result<bool, AllocError>
    requires part { IsPart part }
    requires within { at < part.width }
    requires sort { column.old.are_texts ≡ is_text_kind field.now.kind }
    requires default { DefaultFits field.now }
    ensures { IfOk result (λ done. done ≡ true → AddsValues (λ r. cell_value field.now
        (cell_at part.entry.text.now part.entry.places.now (r * part.entry.step + at)))
        part.entry.rows column.old column.new) }
{
    let mut place = at;
    'rows: for _i in 0..part.rows {
        if !push_cell(part, field, place, column)? {
            return Ok(false);
        }
        place += part.step;
    }
    Ok(true)
}

// Adds the value of the cell after one of the places, if it has one.
#[inline(always)]
fn push_cell(
    part: Part<'_>,
    field: &Field,
    place: usize,
    column: &mut Column,
) -> Result<bool, AllocError>
    requires marks { AreMarks part.text.now part.places.now }
    requires within { place + 1 < length part.places.now }
    requires sort { column.old.are_texts ≡ is_text_kind field.now.kind }
    requires default { DefaultFits field.now }
    ensures { IfOk result (λ done. done ≡ true → Pushes (cell_value field.now
        (cell_at part.entry.text.now part.entry.places.now place)) column.old column.new) }
{
    if let Some(number) = number_at(part, field, place) {
        column.push_whole(number)?;
        return Ok(true);
    }
    push_value(column, field, part.cell(place))
}

// The number in the cell after one of the places, if it is one of few digits in a field of numbers.
#[inline(always)]
fn number_at(part: Part<'_>, field: &Field, place: usize) -> Option<i64>
    requires marks { AreMarks part.text.now part.places.now }
    requires within { place + 1 < length part.places.now }
    ensures { IfSome result (λ number. (is_text_kind field.now.kind ≡ false) × (cell_value field.now
        (cell_at part.entry.text.now part.entry.places.now place) ≡ Ok (value.Whole number))) }
{
    match field.kind {
        FieldKind::Text => None,
        kind => part.whole(kind, place),
    }
}
