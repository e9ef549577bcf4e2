//! What is written of each value of a column, made once.
ghost use Rattle.std.specs.Prelude.{◌≡◌, ◌<◌, ◌++◌, IfOk, OnOk, get_or, length, pos};
ghost use Rattle.csv.specs.Writing.{default_writer, field_text};
ghost use Rattle.values.specs.declared.value.Value.TheVariants as value;
ghost use Rattle.values.specs.Printed.{text_of};
ghost use Rattle.csv_text.specs.Cells.{AreCells, HasCells, cell_text, cell_texts};

use crate::CodedColumn;
use crate::field::{end_record, push_field, push_number, separate};
use dictionary::Dictionary;
use std::alloc::{AllocError, Global};

/// So many bytes of a cell are copied at once.
pub(crate) const CHUNK: usize = 16;

/// What is written of each value of a column, with what stands around it in a record: one after the
/// other, with a chunk after the last; and where each begins, with the end of the last.
#[derive(Drop)]
pub(crate) struct Cells {
    pub(crate) bytes: Vec<u8>,
    pub(crate) starts: Vec<usize>,
}

/// The cells of each of some columns.
pub(crate) fn cells_of(alloc: Global, columns: &[CodedColumn<'_>]) -> Result<Vec<Cells>, AllocError>
    ensures { IfOk result (λ cells. AreCells columns.now (length columns.now) cells.items) }
{
    let width = columns.len();
    let mut cells = Vec::with_capacity(alloc, width)?;
    'columns: for at in 0..width {
        let own = column_cells(alloc, columns[at].dictionary, at, width)?;
        cells.push(own)?;
    }
    Ok(cells)
}

// The cells of a column with the values of a dictionary, at a place among so many.
fn column_cells(
    alloc: Global,
    dictionary: &Dictionary,
    at: usize,
    width: usize,
) -> Result<Cells, AllocError>
    requires { at < width }
    ensures { IfOk result (HasCells (cell_texts at width dictionary.now.values)) }
{
    let count = dictionary.count();
    let mut bytes = Vec::new(alloc);
    let mut starts = Vec::with_capacity(alloc, count as usize)?;
    'values: for id in 0..count {
        starts.push(bytes.len())?;
        push_cell(dictionary, id, at, width, &mut bytes)?;
    }
    starts.push(bytes.len())?;
    bytes.extend_from_slice(&[0; CHUNK])?;
    Ok(Cells { bytes, starts })
}

// Appends what is written of a value in a column, with what stands around it in a record.
fn push_cell(
    dictionary: &Dictionary,
    id: u32,
    at: usize,
    width: usize,
    text: &mut Vec<u8>,
) -> Result<(), AllocError>
    requires id { id < length dictionary.now.values }
    requires at { at < width }
    ensures { OnOk result (text.new.items ≡ text.old.items ++ cell_text at width
        (text_of (get_or dictionary.now.values id (value.Whole (pos 0))))) }
{
    separate(at, text)?;
    let start = text.len();
    push_value(dictionary, id, text)?;
    if at + 1 == width {
        return end_record(width, start, text);
    }
    Ok(())
}

// Appends what is written of a value.
fn push_value(dictionary: &Dictionary, id: u32, text: &mut Vec<u8>) -> Result<(), AllocError>
    requires { id < length dictionary.now.values }
    ensures { OnOk result (text.new.items ≡ text.old.items ++ field_text default_writer
        (text_of (get_or dictionary.now.values id (value.Whole (pos 0))))) }
{
    if let Some(numbers) = dictionary.numbers() {
        return push_number(numbers[id as usize], text);
    }
    match dictionary.text_at(id) {
        Some(value) => push_field(value.as_bytes(), text),
        None => unreachable!(),
    }
}
