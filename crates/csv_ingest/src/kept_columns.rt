//! The rows of a part of a text, where some columns are not kept.
ghost use Rattle.std.specs.Prelude.{◌≡◌, ◌<◌, ◌≤◌, ℕ, true, false, length, get_or, IfOk, IfSome, OnOk};
ghost use Rattle.csv_row.specs.Columns.{DefaultFits, is_text_kind};
ghost use Rattle.csv_row.specs.Layouts.{header_of};
ghost use Rattle.csv_ingest.specs.Parts.{FitsPart, IsPart, field_value, line_cells};
ghost use Rattle.csv_ingest.specs.Kept.{Grown, KeepsPart, KeepsValues, ReadsKept};
ghost use Rattle.csv_ingest.specs.Plain.{HasPlainCells};

use crate::part_columns::{push_field, push_part};
use crate::parts::Part;
use csv_row::Layout;
use data_types::FieldKind;
use std::alloc::AllocError;
use table_schema::Field;
use values::Column;

// Zeros that are added at once.
const ZEROS: [i64; 256] = [0; 256];

/// Adds the rows of a part at the ends of columns, if each of its cells has a value. Where all
/// cells are plain, a column that is not kept has other numbers.
pub fn push_kept(
    part: Part<'_>,
    layout: &Layout,
    kept: &[bool],
    columns: &mut Vec<Column>,
) -> Result<bool, AllocError>
    requires fits { FitsPart part layout.now columns.old.items }
    requires some { 0 < part.rows }
    ensures { IfOk result (λ done. done ≡ true → ReadsKept layout.now.fields.now
        (header_of layout.now) kept.now part.entry.text.now columns.old.items columns.new.items
        part.entry.rows (get_or part.entry.places.now part.entry.last 0)) }
{
    if are_all(kept) || !part.is_plain() {
        return push_part(part, layout, columns);
    }
    push_plain(part, layout, kept, columns)
}

// Whether all are kept.
fn are_all(kept: &[bool]) -> bool
    ensures { result ≡ true → (i : ℕ) → get_or kept.now i true ≡ true }
{
    'marks: for i in 0..kept.len() {
        if !kept[i] {
            return false;
        }
    }
    true
}

// Whether a column is kept.
fn is_kept(kept: &[bool], i: usize) -> bool
    ensures { result ≡ get_or kept.now i true }
{
    match kept.get(i) {
        Some(keep) => *keep,
        None => true,
    }
}

// Adds the values of a part whose cells are plain, field by field.
fn push_plain(
    part: Part<'_>,
    layout: &Layout,
    kept: &[bool],
    columns: &mut Vec<Column>,
) -> Result<bool, AllocError>
    requires fits { FitsPart part layout.now columns.old.items }
    requires plain { HasPlainCells part }
    ensures { IfOk result (λ done. done ≡ true → KeepsPart kept.now part.entry
        layout.now.fields.now layout.now.places.items columns.old.items columns.new.items) }
{
    let fields = layout.fields;
    let places = layout.places.as_slice();
    'fields: for i in 0..fields.len() {
        let keep = is_kept(kept, i);
        let column = &mut columns[i];
        if !keep_field(part, &fields[i], places[i], keep, column)? {
            return Ok(false);
        }
    }
    Ok(true)
}

// Adds the values of a field, or zeros where it is not kept.
fn keep_field(
    part: Part<'_>,
    field: &Field,
    place: Option<usize>,
    keep: bool,
    column: &mut Column,
) -> Result<bool, AllocError>
    requires part { IsPart part }
    requires plain { HasPlainCells part }
    requires first { IfSome place (λ n. 1 ≤ n) }
    requires within { IfSome place (λ n. n ≤ part.width) }
    requires sort { column.old.are_texts ≡ is_text_kind field.now.kind }
    requires default { DefaultFits field.now }
    ensures { IfOk result (λ done. done ≡ true → KeepsValues keep
        (λ r. field_value field.now place (line_cells part.entry r)) part.entry.rows
        column.old column.new) }
{
    match field.kind {
        FieldKind::Long => {
            if keep {
                return push_field(part, field, place, column);
            }
            push_zeros(part.rows, column)?;
            Ok(true)
        }
        _ => push_field(part, field, place, column),
    }
}

// Adds a zero for each row.
fn push_zeros(rows: usize, column: &mut Column) -> Result<(), AllocError>
    requires { column.old.are_texts ≡ false }
    ensures { OnOk result (Grown rows column.old column.new) }
{
    let mut left = rows;
    'zeros: while left > 0 {
        let count = left.min(ZEROS.len());
        column.push_wholes(&ZEROS[..count])?;
        left -= count;
    }
    Ok(())
}
