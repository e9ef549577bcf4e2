//! The texts of answers.

ghost use Rattle.std.specs.Prelude.{◌≡◌, ◌++◌, IfOk, OnOk, flat_map, map};
ghost use Rattle.std.specs.Io.KnownBytes.{Appends};
ghost use Rattle.std.specs.Fmt.{signed_decimal};
ghost use Rattle.csv.specs.Records.{fields_of, partial_of};
ghost use Rattle.csv.specs.Writing.{default_writer, row_text, text_written};
ghost use Rattle.broker_merge.specs.Answer as spec;
ghost use Rattle.broker_merge.specs.Answer.{IsWhole};
ghost use Rattle.broker_merge.specs.Written.{IsBetween};

use crate::answer::{Answer, Cell};
use csv::{ByteRecord, Writer, WriterBuilder};
use data_types::{Name, Seq};
use itoa::Buffer;
use std::alloc::{AllocError, Global};
use std::io::Write;
use values::{NoMemory, Value};

/// The CSV text of an answer: a record of its labels, and one for each row.
pub fn answer_text(alloc: Global, answer: &Answer) -> Result<Vec<u8>, NoMemory>
    requires { IsWhole answer.now }
    ensures { IfOk result (λ text. text.items ≡ spec.answer_text answer.now) }
{
    let mut writer = WriterBuilder::new().from_writer(Vec::new(alloc));
    let mut line = ByteRecord::new(alloc);
    fill_labels(answer.labels.as_slice(), &mut line)?;
    write(&line, &mut writer)?;
    write_rows(alloc, answer.rows.as_slice(), &mut line, &mut writer)?;
    match writer.into_inner() {
        Ok(text) => Ok(text),
        Err(_) => Err(AllocError),
    }
}

// Writes a record.
fn write<W: Write + Drop>(line: &ByteRecord, writer: &mut Writer<W>) -> Result<(), NoMemory>
    requires { IsBetween writer.old }
    ensures between { OnOk result (IsBetween writer.new) }
    ensures text { OnOk result (Appends (text_written W.contents writer.old)
        (text_written W.contents writer.new) (row_text default_writer (fields_of line.now))) }
{
    match writer.write_byte_record(line) {
        Ok(()) => Ok(()),
        Err(_) => Err(AllocError),
    }
}

// Writes a record for each row.
fn write_rows<W: Write + Drop>(
    alloc: Global,
    rows: &[Seq<Cell>],
    line: &mut ByteRecord,
    writer: &mut Writer<W>,
) -> Result<(), NoMemory>
    requires { IsBetween writer.old }
    ensures { OnOk result (Appends (text_written W.contents writer.old)
        (text_written W.contents writer.new)
        (flat_map (λ row. row_text default_writer (map spec.cell_text row)) rows.now)) }
{
    let mut text = Vec::new(alloc);
    for row in rows {
        fill_cells(row.as_slice(), &mut text, line)?;
        write(line, writer)?;
    }
    Ok(())
}

// A record of the labels.
fn fill_labels(labels: &[Name], line: &mut ByteRecord) -> Result<(), NoMemory>
    ensures { OnOk result (fields_of line.new ≡ labels.now) }
{
    line.clear();
    for label in labels {
        line.push_field(label.as_slice())?;
    }
    Ok(())
}

// A record of the texts of some cells.
fn fill_cells(row: &[Cell], text: &mut Vec<u8>, line: &mut ByteRecord) -> Result<(), NoMemory>
    ensures { OnOk result (fields_of line.new ≡ map spec.cell_text row.now) }
{
    line.clear();
    for cell in row {
        text.clear();
        push_cell(cell, text)?;
        line.push_field(text)?;
    }
    Ok(())
}

// Appends the text of a cell.
fn push_cell(cell: &Cell, text: &mut Vec<u8>) -> Result<(), NoMemory>
    ensures { OnOk result (text.new.items ≡ text.old.items ++ spec.cell_text cell.now) }
{
    match cell {
        Cell::Kept(Value::Whole(number)) => push_digits(i128::from(*number), text),
        Cell::Kept(Value::Text(name)) => text.extend_from_slice(name.as_slice()),
        Cell::Whole(number) => push_digits(*number, text),
        Cell::Fraction(sum, count) => {
            push_digits(*sum, text)?;
            text.extend_from_slice(b"/")?;
            push_digits(i128::from(*count), text)
        }
        Cell::Null => text.extend_from_slice(b"null"),
    }
}

// Appends a number in decimal.
fn push_digits(number: i128, text: &mut Vec<u8>) -> Result<(), NoMemory>
    ensures { OnOk result (text.new.items ≡ text.old.items ++ signed_decimal number) }
{
    let mut digits = Buffer::new();
    text.extend_from_slice(digits.format(number).as_bytes())
}
