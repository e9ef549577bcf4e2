//! The values in the cells of a record.
ghost use Rattle.std.specs.Prelude.{◌≡◌, ◌≢◌, ◌<◌, [], true, false, length, slice_index_or, ℤ, IfOk, IfErr, IfSome, MatchOption, None, Ok, Err};
ghost use Rattle.std.specs.Str.{is_utf8};
ghost use Rattle.csv.specs.Records.{fields_of};
ghost use Rattle.csv_row.specs.Columns.{HasPlace};
ghost use Rattle.csv_row.specs.Row.{cell_value, placed, value_at, value_in};

use crate::{CsvFault, CsvKind};
use csv::ByteRecord;
use data_types::{FieldKind, read_whole, text_of};
use std::alloc::Global;
use table_schema::Field;
use values::{MOST_TEXT_BYTES, Value, ValueFault, read_value};

/// The cell of a record at a place.
pub fn cell(cells: &ByteRecord, at: usize) -> &[u8]
    requires { at < length (fields_of cells.now) }
    ensures { result.now ≡ slice_index_or (fields_of cells.now) at [] }
{
    match cells.get(at) {
        Some(cell) => cell,
        None => unreachable!(),
    }
}

// The value of a text.
#[inline(never)]
fn read_text(
    alloc: Global,
    kind: FieldKind,
    bytes: &[u8],
    row: u32,
    column: u32,
) -> Result<Value, CsvFault>
    ensures ok { IfOk result (λ value. placed row column (value_in kind bytes.now) ≡ Ok value) }
    ensures err { IfErr result (λ fault. fault ≢ CsvFault.NoMemory
        → placed row column (value_in kind bytes.now) ≡ Err fault) }
{
    let Some(text) = text_of(bytes) else {
        return Err(CsvFault::At(CsvKind::NotUtf8, row, column));
    };
    match read_value(alloc, kind, text) {
        Ok(value) => Ok(value),
        Err(ValueFault::NotANumber) => Err(CsvFault::At(CsvKind::NotANumber, row, column)),
        Err(ValueFault::OutOfRange) => Err(CsvFault::At(CsvKind::OutOfRange, row, column)),
        Err(ValueFault::TooLong) => Err(CsvFault::At(CsvKind::TooLong, row, column)),
        Err(ValueFault::NoMemory) => Err(CsvFault::NoMemory),
    }
}

/// The number that some bytes spell, where the field takes numbers: such bytes are UTF-8.
#[inline(always)]
pub(crate) fn number_in(kind: FieldKind, bytes: &[u8]) -> Option<i64>
    ensures found { IfSome result (λ number. value_in kind bytes.now ≡ Ok (Value.Whole number)) }
    ensures none { result ≡ None
        → (number : ℤ) → value_in kind bytes.now ≢ Ok (Value.Whole number) }
{
    match kind {
        FieldKind::Text => None,
        FieldKind::Int => read_whole(FieldKind::Int, bytes).ok(),
        FieldKind::Long => read_whole(FieldKind::Long, bytes).ok(),
    }
}

// The value of a field in its cell.
fn read_cell(
    alloc: Global,
    field: &Field,
    bytes: &[u8],
    row: u32,
    column: u32,
) -> Result<Value, CsvFault>
    ensures ok { IfOk result (λ value. placed row column (cell_value field.now bytes.now)
        ≡ Ok value) }
    ensures err { IfErr result (λ fault. fault ≢ CsvFault.NoMemory
        → placed row column (cell_value field.now bytes.now) ≡ Err fault) }
{
    if bytes.is_empty() {
        return Ok(field.default.copy(alloc)?);
    }
    if let Some(number) = number_in(field.kind, bytes) {
        return Ok(Value::Whole(number));
    }
    read_text(alloc, field.kind, bytes, row, column)
}

/// The value of a field in a record of that number, by its place in the header.
pub(crate) fn read_field(
    alloc: Global,
    field: &Field,
    place: Option<usize>,
    cells: &ByteRecord,
    row: u32,
) -> Result<Value, CsvFault>
    requires { HasPlace (fields_of cells.now) place }
    ensures ok { IfOk result (λ value. value_at row (fields_of cells.now) field.now place
        ≡ Ok value) }
    ensures err { IfErr result (λ fault. fault ≢ CsvFault.NoMemory
        → value_at row (fields_of cells.now) field.now place ≡ Err fault) }
{
    match place {
        None => Ok(field.default.copy(alloc)?),
        Some(column) => read_cell(alloc, field, cell(cells, column - 1), row, column as u32),
    }
}
