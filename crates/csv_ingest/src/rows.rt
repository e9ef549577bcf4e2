//! The records of a CSV text as columns of a table.
ghost use Rattle.std.specs.Prelude.{◌≡◌, ◌≢◌, ◌≤◌, ◌<◌, ◌+◌, ◌^◌, ℕ, List, map, length, IfOk, IfErr, MatchBool, Ok, Err, []};
ghost use Rattle.std.specs.List.{All};
ghost use Rattle.values.specs.Columns.{Counts, rows_of as rows_of_columns};
ghost use Rattle.csv_ingest.specs.Blocks.{AddsBlock, IsFullBlock, IsLastBlock, rows_from};
ghost use Rattle.csv_ingest.specs.Reading.{Reads, records_left};
ghost use Rattle.csv_row.specs.Row.{csv_limits};
ghost use Rattle.csv_ingest.specs.Rows.{rows_of};
ghost use Rattle.csv_row.specs.Columns.{DefaultsFit, OfSorts, is_text_kind};
ghost use Rattle.csv_row.specs.Layouts.{IsLayout, header_of};

use crate::records::next_record;
use csv::{ByteRecord, Reader};
use csv_row::{CsvFault, Layout};
use data_types::FieldKind;
use std::alloc::{AllocError, Global};
use table_schema::Field;
use values::{Column, Columns};

/// A column with no value for each field, and with room for so many.
pub fn empty_columns(
    alloc: Global,
    fields: &[Field],
    rows: usize,
) -> Result<Vec<Column>, AllocError>
    ensures sorts { IfOk result (λ columns. OfSorts fields.now columns.items) }
    ensures empty { IfOk result (λ columns. All (Counts 0) columns.items) }
{
    let mut columns = Vec::with_capacity(alloc, fields.len())?;
    for field in fields {
        let mut column = empty_column(alloc, field.kind);
        column.reserve(rows)?;
        columns.push(column)?;
    }
    Ok(columns)
}

/// Some rows of a text, and whether they are the last.
#[derive(Drop)]
pub struct Block {
    pub columns: Columns,
    pub last: bool,
}

/// The next rows of a text, of which `before` were read: as many as there is room for, or else the
/// last.
pub fn read_block(
    alloc: Global,
    reader: &mut Reader<&[u8]>,
    layout: &Layout,
    before: usize,
    room: usize,
) -> Result<Block, CsvFault>
    requires at_most { before + room < 2 ^ 31 }
    requires layout { IsLayout layout.now }
    ensures ok { IfOk result (λ b. (rest : List ℕ) → Reads reader.old rest → MatchBool b.last
        (IsLastBlock layout.now.fields.now
        (header_of layout.now) before room reader.old rest b.columns)
        (IsFullBlock layout.now.fields.now (header_of layout.now) before room reader.old reader.new
        rest b.columns)) }
    ensures sorts { IfOk result (λ b. OfSorts layout.now.fields.now b.columns.columns) }
    ensures most { IfOk result (λ b. b.columns.count ≤ room) }
    ensures err { IfErr result (λ fault. fault ≢ CsvFault.NoMemory → (rest : List ℕ)
        → Reads reader.old rest → (n : ℕ) → room ≤ n
        → rows_from before layout.now.fields.now (header_of layout.now)
        (records_left n reader.old rest) ≡ Err fault) }
{
    let mut columns = empty_columns(alloc, layout.fields, room.min(layout.most as usize))?;
    match push_block(alloc, reader, layout, &mut columns, before, room) {
        Ok(Added { count, last }) => {
            let columns = Columns::new(columns, count);
            Ok(Block { columns, last })
        }
        Err(fault) => Err(fault),
    }
}

/// How many rows were added to columns, and whether they are the last of a text.
#[derive(Clone, Copy)]
pub struct Added {
    pub count: usize,
    pub last: bool,
}

/// Adds the next rows of a text, of which `before` were read, at the ends of columns: as many as
/// there is room for, or else the last.
pub fn push_block(
    alloc: Global,
    reader: &mut Reader<&[u8]>,
    layout: &Layout,
    columns: &mut Vec<Column>,
    before: usize,
    room: usize,
) -> Result<Added, CsvFault>
    requires at_most { before + room < 2 ^ 31 }
    requires layout { IsLayout layout.now }
    requires sorts { OfSorts layout.now.fields.now columns.old.items }
    ensures ok { IfOk result (λ added. (rest : List ℕ) → Reads reader.old rest
        → AddsBlock layout.now.fields.now (header_of layout.now) before room reader.old reader.new
        rest columns.old.items columns.new.items added) }
    ensures sorts { IfOk result (λ _. OfSorts layout.now.fields.now columns.new.items) }
    ensures counts { IfOk result (λ added. (c : ℕ) → All (Counts c) columns.old.items
        → All (Counts (c + added.count)) columns.new.items) }
    ensures most { IfOk result (λ added. added.count ≤ room) }
    ensures err { IfErr result (λ fault. fault ≢ CsvFault.NoMemory → (rest : List ℕ)
        → Reads reader.old rest → (n : ℕ) → room ≤ n
        → rows_from before layout.now.fields.now (header_of layout.now)
        (records_left n reader.old rest) ≡ Err fault) }
{
    let mut record = ByteRecord::new(alloc);
    'rows: for i in 0..room {
        if !next_record(reader, &mut record)? {
            return Ok(Added {
                count: i,
                last: true,
            });
        }
        let row = (before + i) as u32 + 1;
        match layout.push_row(alloc, columns, &record, row) {
            Ok(()) => {}
            Err(fault) => return Err(fault),
        }
    }
    Ok(Added {
        count: room,
        last: false,
    })
}

/// The rows of at most `most` records that are left, below a header of these names.
pub fn columns_below(
    alloc: Global,
    reader: &mut Reader<&[u8]>,
    most: usize,
    fields: &[Field],
    names: &[&[u8]],
) -> Result<Columns, CsvFault>
    requires most { most < 2 ^ 31 }
    requires at_most { length names.now < 2 ^ 32 }
    requires defaults { DefaultsFit fields.now }
    ensures ok { IfOk result (λ table. (rest : List ℕ) → Reads reader.old rest
        → rows_of csv_limits fields.now (map (λ f. f.now) names.now)
        (records_left most reader.old rest) ≡ Ok (rows_of_columns table)) }
    ensures sorts { IfOk result (λ table. OfSorts fields.now table.columns) }
    ensures err { IfErr result (λ fault. fault ≢ CsvFault.NoMemory → (rest : List ℕ)
        → Reads reader.old rest → rows_of csv_limits fields.now (map (λ f. f.now) names.now)
        (records_left most reader.old rest) ≡ Err fault) }
{
    let layout = Layout::new(alloc, fields, names)?;
    match read_block(alloc, reader, &layout, 0, most) {
        Ok(Block { columns, last: _ }) => Ok(columns),
        Err(fault) => Err(fault),
    }
}

fn empty_column(alloc: Global, kind: FieldKind) -> Column
    ensures { result ≡ record { are_texts = is_text_kind kind; values = [] } }
{
    match kind {
        FieldKind::Int => Column::numbers(alloc),
        FieldKind::Long => Column::numbers(alloc),
        FieldKind::Text => Column::texts(alloc),
    }
}
