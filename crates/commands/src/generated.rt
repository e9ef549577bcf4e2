//! The rows that the program generates, column by column.
ghost use Rattle.std.specs.Prelude.{◌≡◌, ◌<◌, ◌≤◌, ◌∷◌, [], ◌++◌, ◌+◌, OnOk, IfOk, IfErr, Ok, true, false, length, map};
ghost use Rattle.std.specs.Fmt.{decimal};
ghost use Rattle.values.specs.Columns.{rows_of};
ghost use Rattle.table_schema.specs.ValidTable.{IsValidTable};
ghost use Rattle.command_model.specs.Columns.{MakesColumns};
ghost use Rattle.commands.specs.GeneratedColumns.{AddsRow, HasSorts};
ghost use Rattle.command_model.specs.Generated as spec;
ghost use Rattle.command_model.specs.Gives.{StopsGenerated};

use command_model::MOST_GENERATED;
use command_words::{Counted, Fault, Note, Stop};
use csv_ingest::CsvKind;
use std::alloc::{AllocError, Global};
use table_schema::{Field, Table};
use values::{Column, Columns, Value};

/// So many rows that the program generates, column by column, where the fields of the table are
/// those of such rows.
pub(crate) fn generated_columns(alloc: Global, rows: u32, table: &Table) -> Result<Columns, Stop>
    requires valid { IsValidTable table.now }
    ensures rows { IfOk result (λ columns.
        spec.rows_generated table.now.schema.fields rows ≡ Ok (rows_of columns)) }
    ensures made { MakesColumns table.now.schema.fields result }
    ensures stops { IfErr result (StopsGenerated
        (spec.rows_generated table.now.schema.fields rows)) }
{
    if !are_generated(table.schema.fields.as_slice()) {
        return Err(Stop::Refused(Note::BadCsv(CsvKind::WrongLength, 0, 0)));
    }
    if rows > MOST_GENERATED {
        return Err(Stop::Refused(Note::TooLarge(Counted::Rows, u64::from(MOST_GENERATED))));
    }
    Ok(columns_of(alloc, rows)?)
}

// The columns so far.
#[derive(Drop)]
struct Generated {
    a: Column,
    b: Column,
    c: Column,
    m: Column,
}

// The columns of so many rows.
fn columns_of(alloc: Global, rows: u32) -> Result<Columns, AllocError>
    requires { rows ≤ 1048576 }
    ensures rows { IfOk result (λ columns. rows_of columns ≡ spec.generated_rows rows) }
    ensures width { IfOk result (λ columns. length columns.columns ≡ 4) }
{
    let mut made = Generated {
        a: Column::texts(alloc),
        b: Column::numbers(alloc),
        c: Column::numbers(alloc),
        m: Column::numbers(alloc),
    };
    make_room(rows as usize, &mut made)?;
    'each: for row in 0..rows {
        push_row(row, &mut made)?;
    }
    let columns = list_of(alloc, made)?;
    Ok(Columns::new(columns, rows as usize))
}

// Makes room for so many rows.
fn make_room(rows: usize, made: &mut Generated) -> Result<(), AllocError>
    ensures { made.new ≡ made.old }
{
    made.a.reserve(rows)?;
    made.b.reserve(rows)?;
    made.c.reserve(rows)?;
    made.m.reserve(rows)?;
    Ok(())
}

// The columns in a list.
fn list_of(alloc: Global, made: Generated) -> Result<Vec<Column>, AllocError>
    ensures { IfOk result (λ columns. columns.items ≡ made.a ∷ made.b ∷ made.c ∷ made.m ∷ []) }
{
    let mut columns = Vec::with_capacity(alloc, 4)?;
    columns.push(made.a)?;
    columns.push(made.b)?;
    columns.push(made.c)?;
    columns.push(made.m)?;
    Ok(columns)
}

// Adds a row.
fn push_row(row: u32, made: &mut Generated) -> Result<(), AllocError>
    requires small { row < 1048576 }
    requires sorts { HasSorts made.old }
    ensures { OnOk result (AddsRow row made.old made.new) }
{
    let row = u64::from(row);
    made.a.push_text(text_of(row % 7))?;
    made.b.push_whole((row * row % 11) as i64)?;
    made.c.push_whole((row / 3 % 50) as i64)?;
    made.m.push_whole(less_half(31 * row % 1000))?;
    Ok(())
}

// A number below a thousand less 500.
fn less_half(number: u64) -> i64
    requires { number < 1000 }
    ensures { result ≡ spec.less_half number }
{
    if number < 500 {
        -((500 - number) as i64)
    } else {
        (number - 500) as i64
    }
}

// The text of a number below seven.
fn text_of(number: u64) -> &'static str
    requires { number < 7 }
    ensures { result.now ≡ 97 ∷ (48 + number) ∷ [] }
{
    match number {
        0 => "a0",
        1 => "a1",
        2 => "a2",
        3 => "a3",
        4 => "a4",
        5 => "a5",
        _ => "a6",
    }
}

// Whether the rows are of these fields.
fn are_generated(fields: &[Field]) -> bool
    ensures { result ≡ spec.are_generated fields.now }
{
    match fields {
        [a, b, c, m] => !has_numbers(a) && has_numbers(b) && has_numbers(c) && has_numbers(m),
        _ => false,
    }
}

// Whether a field is one of numbers, as its default tells.
fn has_numbers(field: &Field) -> bool
    ensures { result ≡ spec.has_numbers field.now }
{
    match field.default {
        Value::Whole(_) => true,
        Value::Text(_) => false,
    }
}

/// What is printed of so many rows, by the replies of `stats` by a star-tree and without one.
pub(crate) fn generated_line(
    alloc: Global,
    rows: u32,
    tree: &[u8],
    scan: &[u8],
) -> Result<Vec<u8>, AllocError>
    ensures { IfOk result (λ line. line.items ≡ spec.generated_line rows tree.now scan.now) }
{
    let mut line = b"rows ".to_vec(alloc)?;
    push_number(alloc, u64::from(rows), &mut line)?;
    line.extend_from_slice(b", groups ")?;
    push_number(alloc, line_ends(tree).saturating_sub(3) as u64, &mut line)?;
    line.extend_from_slice(b", tree ")?;
    push_cell(alloc, tree, &mut line)?;
    line.extend_from_slice(b", scan ")?;
    push_cell(alloc, scan, &mut line)?;
    line.push(b'\n')?;
    Ok(line)
}

// Adds a number.
fn push_number(alloc: Global, number: u64, line: &mut Vec<u8>) -> Result<(), AllocError>
    ensures { OnOk result (line.new.items ≡ line.old.items ++ decimal number) }
{
    let digits = number.to_string(alloc)?;
    line.extend_from_slice(digits.as_bytes())?;
    Ok(())
}

// Adds what comes after the last comma of a text, without line ends.
fn push_cell(alloc: Global, text: &[u8], line: &mut Vec<u8>) -> Result<(), AllocError>
    ensures { OnOk result (line.new.items ≡ line.old.items ++ spec.last_cell [] text.now) }
{
    let mut cell = Vec::new(alloc);
    last_cell(text, &mut cell)?;
    line.extend_from_slice(cell.as_slice())?;
    Ok(())
}

// What comes after the last comma of a text, without line ends, after this cell.
fn last_cell(text: &[u8], cell: &mut Vec<u8>) -> Result<(), AllocError>
    ensures { OnOk result (cell.new.items ≡ spec.last_cell cell.old.items text.now) }
{
    match text {
        [] => Ok(()),
        [byte, rest @ ..] => {
            push_byte(*byte, cell)?;
            last_cell(rest, cell)
        }
    }
}

// A cell with one byte more.
fn push_byte(byte: u8, cell: &mut Vec<u8>) -> Result<(), AllocError>
    ensures { OnOk result (cell.new.items ≡ spec.cell_with cell.old.items byte) }
{
    match byte {
        b',' => cell.clear(),
        b'\n' => {}
        _ => cell.push(byte)?,
    }
    Ok(())
}

// How many lines end in a text.
fn line_ends(text: &[u8]) -> usize
    ensures count { result ≡ spec.line_ends text.now }
    ensures at_most { result ≤ length text.now }
{
    match text {
        [] => 0,
        [byte, rest @ ..] => line_ends(rest) + usize::from(*byte == b'\n'),
    }
}
