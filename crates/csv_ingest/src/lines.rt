//! Lines without quotes, read straight from a text.
ghost use Rattle.std.specs.Prelude.{◌≡◌, ◌≤◌, ◌<◌, ◌^◌, ℕ, List, false, length, IfOk, IfSome, OnOk};
ghost use Rattle.std.specs.List.{All};
ghost use Rattle.values.specs.Columns.{Counts};
ghost use Rattle.csv_row.specs.Columns.{OfSorts};
ghost use Rattle.csv_row.specs.Layouts.{IsLayout, header_of};
ghost use Rattle.csv_ingest.specs.Kept.{ReadsLines};
ghost use Rattle.csv_ingest.specs.Lines.{StartsCell};
ghost use Rattle.csv_ingest.specs.Parts.{AddsLines, AreMarks};

use crate::kept_columns::push_kept;
use crate::marks::push_separators;
use crate::part_columns::push_part;
use crate::parts::part_of;
use crate::records::from_place;
use crate::rows::empty_columns;
use csv_row::Layout;
use std::alloc::{AllocError, Global};
use values::{Column, Columns};

// So many bytes are looked at together, and those after them up to the end of a line, if there are
// no more than so many.
const PART_BYTES: usize = 49_152;

const MOST_AFTER: usize = 1_048_576;

// Room for so many places is taken at once.
const PART_PLACES: usize = 16_384;

/// How many rows were added to columns, and how many bytes of a text they are.
#[derive(Clone, Copy)]
pub struct Taken {
    pub rows: usize,
    pub bytes: usize,
}

/// Adds the rows of the plain lines at the start of a text to columns without any, part by part and
/// at most so many, if each of their cells has a value.
pub fn push_lines(
    alloc: Global,
    text: &[u8],
    layout: &Layout,
    columns: &mut Vec<Column>,
    most: usize,
) -> Result<Option<Taken>, AllocError>
    requires layout { IsLayout layout.now }
    requires at_most { most ≤ layout.now.most }
    requires sorts { OfSorts layout.now.fields.now columns.old.items }
    requires empty { All (Counts 0) columns.old.items }
    ensures { IfOk result (λ t. IfSome t (λ taken. AddsLines layout.now.fields.now
        (header_of layout.now) text.now columns.new.items most taken)) }
{
    let mut places = Vec::with_capacity(alloc, PART_PLACES)?;
    let mut rows = 0;
    let mut bytes = 0;
    'parts: while rows < most {
        let rest = from_place(text, bytes);
        mark_part(rest, &mut places)?;
        let Some(part) = part_of(rest, &places, layout.names.len(), most - rows) else {
            return Ok(Some(Taken { rows, bytes }));
        };
        if !push_part(part, layout, columns)? {
            return Ok(None);
        }
        rows += part.rows;
        bytes += part.len();
    }
    Ok(Some(Taken { rows, bytes }))
}

/// Some rows of a text, and how many of its bytes they are.
#[derive(Drop)]
pub struct Lines {
    pub columns: Columns,
    pub taken: usize,
}

/// The rows of the plain lines at the start of a text, after `before` others: those of its next
/// part, and at most as many as there is room for. Columns that are not kept may have other values.
pub fn read_lines(
    alloc: Global,
    text: &[u8],
    layout: &Layout,
    kept: &[bool],
    before: usize,
    room: usize,
) -> Result<Lines, AllocError>
    requires { IsLayout layout.now }
    ensures { IfOk result (λ l. ReadsLines layout.now.fields.now (header_of layout.now) kept.now
        before room text.now l.columns l.taken) }
{
    let room = (layout.most as usize).saturating_sub(before).min(room);
    let mut places = Vec::with_capacity(alloc, PART_PLACES)?;
    mark_part(text, &mut places)?;
    if let Some(part) = part_of(text, &places, layout.names.len(), room) {
        let mut columns = empty_columns(alloc, layout.fields, part.rows)?;
        if push_kept(part, layout, kept, &mut columns)? {
            let columns = Columns::new(columns, part.rows);
            return Ok(Lines {
                columns,
                taken: part.len(),
            });
        }
    }
    let columns = empty_columns(alloc, layout.fields, 0)?;
    let columns = Columns::new(columns, 0);
    Ok(Lines { columns, taken: 0 })
}

/// The places of the separators in the next part of a text.
pub fn mark_part(text: &[u8], places: &mut Vec<u32>) -> Result<(), AllocError>
    ensures { OnOk result (AreMarks text.now places.new.items) }
{
    places.clear();
    push_separators(&text[..part_len(text)], places)?;
    Ok(())
}

// How many bytes the next part of a text has.
fn part_len(text: &[u8]) -> usize
    ensures within { result ≤ length text.now }
    ensures few { result < 2 ^ 32 }
{
    let start = text.len().min(PART_BYTES);
    let end = text.len().min(PART_BYTES + MOST_AFTER);
    'bytes: for i in start..end {
        if text[i] == b'\n' {
            return i + 1;
        }
    }
    start
}

/// Whether a line has no character.
pub fn is_blank(line: &[u8]) -> bool
    ensures { result ≡ false → StartsCell line.now }
{
    line.is_empty() || line[0] == b'\n' || line[0] == b'\r'
}
