//! The values of a record at the ends of columns.
ghost use Rattle.std.specs.Prelude.{◌≡◌, ◌≢◌, length, OnOk, IfOk, IfErr, MatchBool, true, false, Ok, Err};
ghost use Rattle.std.specs.Str.{is_utf8};
ghost use Rattle.csv.specs.Records.{fields_of};
ghost use Rattle.values.specs.declared.value.Value.TheVariants as value;
ghost use Rattle.csv_row.specs.Row.{cell_value, csv_limits, row_at, value_at, value_in, values_of};
ghost use Rattle.csv_row.specs.Columns.{DefaultFits, HasPlace, OfSorts, Pushes, PushesCell, PushesOr, PushesRow, is_text_kind};
ghost use Rattle.csv_row.specs.Layouts.{IsLayout, header_of};

use crate::cells::{cell, number_in, read_field};
use crate::layout::Layout;
use crate::{CsvFault, CsvKind};
use csv::ByteRecord;
use data_types::FieldKind;
use std::alloc::{AllocError, Global};
use table_schema::Field;
use values::{Column, MOST_TEXT_BYTES};

/// Adds the value of a field in a cell to its column, if the cell has one: the number or the short
/// text that the bytes are, or the field's default where there are none.
#[inline(always)]
pub fn push_value(column: &mut Column, field: &Field, bytes: &[u8]) -> Result<bool, AllocError>
    requires sort { column.old.are_texts ≡ is_text_kind field.now.kind }
    requires default { DefaultFits field.now }
    ensures { IfOk result (λ done. done ≡ true
        → Pushes (cell_value field.now bytes.now) column.old column.new) }
{
    if bytes.is_empty() {
        column.push(&field.default)?;
        return Ok(true);
    }
    push_cell(column, field.kind, bytes)
}

// Whether some bytes are few enough for a text.
#[inline(always)]
fn is_short(bytes: &[u8]) -> bool
    ensures { result ≡ true → is_utf8 bytes.now ≡ true
        → value_in FieldKind.Text bytes.now ≡ Ok (value.Text bytes.now) }
{
    bytes.len() <= MOST_TEXT_BYTES
}

// Adds the value of a cell that has characters, if it is a number or a short text as the kind
// wants.
#[inline(always)]
fn push_cell(column: &mut Column, kind: FieldKind, bytes: &[u8]) -> Result<bool, AllocError>
    requires { column.old.are_texts ≡ is_text_kind kind }
    ensures { IfOk result (λ done. MatchBool done
        (PushesCell kind bytes.now column.old column.new)
        (column.new ≡ column.old)) }
{
    if bytes.is_empty() {
        return Ok(false);
    }
    if let FieldKind::Text = kind {
        if !is_short(bytes) {
            return Ok(false);
        }
        return column.push_bytes(bytes);
    }
    let Some(number) = number_in(kind, bytes) else {
        return Ok(false);
    };
    column.push_whole(number)?;
    Ok(true)
}

// Adds the value of a field that has to be looked at more closely.
#[inline(never)]
fn push_field_slowly(
    alloc: Global,
    column: &mut Column,
    field: &Field,
    place: Option<usize>,
    cells: &ByteRecord,
    row: u32,
) -> Result<(), CsvFault>
    requires place { HasPlace (fields_of cells.now) place }
    requires sort { column.old.are_texts ≡ is_text_kind field.now.kind }
    requires default { DefaultFits field.now }
    ensures { PushesOr (value_at row (fields_of cells.now) field.now place)
        column.old column.new result }
{
    match read_field(alloc, field, place, cells, row) {
        Ok(value) => {
            column.push(&value)?;
            Ok(())
        }
        Err(fault) => Err(fault),
    }
}

// Adds the value of a field in a record of that number to its column.
#[inline(always)]
fn push_field(
    alloc: Global,
    column: &mut Column,
    field: &Field,
    place: Option<usize>,
    cells: &ByteRecord,
    row: u32,
) -> Result<(), CsvFault>
    requires place { HasPlace (fields_of cells.now) place }
    requires sort { column.old.are_texts ≡ is_text_kind field.now.kind }
    requires default { DefaultFits field.now }
    ensures { PushesOr (value_at row (fields_of cells.now) field.now place)
        column.old column.new result }
{
    if let Some(at) = place {
        if push_cell(column, field.kind, cell(cells, at - 1))? {
            return Ok(());
        }
    }
    push_field_slowly(alloc, column, field, place, cells, row)
}

impl Layout<'_> {
    // Adds the values of a record, field by field.
    #[inline(never)]
    fn push_values(
        &self,
        alloc: Global,
        columns: &mut Vec<Column>,
        cells: &ByteRecord,
        row: u32,
    ) -> Result<(), CsvFault>
        requires layout { IsLayout self.now }
        requires width { length (fields_of cells.now) ≡ length self.now.names.now }
        requires sorts { OfSorts self.now.fields.now columns.old.items }
        ensures ok { OnOk result (PushesRow
            (values_of self.now.fields.now (header_of self.now) row (fields_of cells.now))
            columns.old.items columns.new.items) }
        ensures err { IfErr result (λ fault. fault ≢ CsvFault.NoMemory
            → values_of self.now.fields.now (header_of self.now) row (fields_of cells.now)
            ≡ Err fault) }
    {
        let fields = self.fields;
        let places = self.places.as_slice();
        'values: for i in 0..fields.len() {
            let column = &mut columns[i];
            match push_field(alloc, column, &fields[i], places[i], cells, row) {
                Ok(()) => {}
                Err(fault) => return Err(fault),
            }
        }
        Ok(())
    }

    /// Adds the row of a number, from 1, that a record is.
    pub fn push_row(
        &self,
        alloc: Global,
        columns: &mut Vec<Column>,
        cells: &ByteRecord,
        row: u32,
    ) -> Result<(), CsvFault>
        requires layout { IsLayout self.now }
        requires sorts { OfSorts self.now.fields.now columns.old.items }
        ensures ok { OnOk result (PushesRow
            (row_at csv_limits self.now.fields.now (header_of self.now) (row, fields_of cells.now))
            columns.old.items columns.new.items) }
        ensures err { IfErr result (λ fault. fault ≢ CsvFault.NoMemory
            → row_at csv_limits self.now.fields.now (header_of self.now) (row, fields_of cells.now)
            ≡ Err fault) }
    {
        if row > self.most {
            return Err(CsvFault::TooManyRows(self.most));
        }
        if cells.len() != self.names.len() {
            return Err(CsvFault::At(CsvKind::WrongLength, row, 0));
        }
        self.push_values(alloc, columns, cells, row)
    }
}
