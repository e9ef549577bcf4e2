//! The columns of a file are read by the ids of their values.
ghost use Rattle.std.specs.Prelude.{◌≡◌, ◌≤◌, ◌<◌, ◌++◌, ◌∷◌, [], ℕ, List, IfErr, IfOk, IsSome, OnOk, length};
ghost use Rattle.outside.specs.Seen.{seen};
ghost use Rattle.bit_column.specs.Column.{width_of};
ghost use Rattle.bit_column.specs.Reading.{ReadsRange};
ghost use Rattle.bit_column.specs.Sections.{AppendsRange};
ghost use Rattle.segment_file.specs.declared.part.Part.TheVariants as part;
ghost use Rattle.segment_build.specs.FileReads.{LogsFile};
ghost use Rattle.segment_head.specs.Heads.{AreIn, IsLoaded, place_in};
ghost use Rattle.segment_check.specs.Coded.{ReadsCoded, ReadsCodedColumn};
ghost use Rattle.segment_check.specs.Reading.{IsSomeHead, LogsColumn};

use crate::head::FileHead;
use bit_column::{ColumnFault, IdRange, NarrowIds, Width, append_narrow, append_range, width_for};
use csv_text::CodedColumn;
use outside::{NoMemory, Place, Shelf};
use row_ids::RowIds;
use segment_file::{HeadFault, Part};
use segment_head::Head;
use std::alloc::Global;
use table_schema::Table;

/// The columns of the rows of a file with this head, by ids, or the first whose forward index has
/// no id of one of its values for each row.
pub(crate) fn read_coded<'a, S: Shelf>(
    alloc: Global,
    shelf: &mut S,
    table: &Table,
    name: &str,
    read: &'a FileHead,
) -> Result<Vec<CodedColumn<'a>>, HeadFault>
    requires { IsSomeHead table.now name.now read.now }
    ensures { ReadsCoded (λ columns. columns.items) table.now read.now.head
        (seen S.Shelf shelf.old) (seen S.Shelf shelf.new) result }
{
    let count = table.schema.fields.len();
    let mut columns = Vec::new(alloc);
    let mut room = NarrowIds::with_room(alloc, 0)?;
    'columns: for at in 0..count {
        match read_coded_column(alloc, shelf, &read.head, at as u16, &mut room) {
            Ok(column) => {
                if let Err(_) = keep(column, &mut columns) {
                    return Err(HeadFault::NoMemory);
                }
            }
            Err(fault) => return Err(fault),
        }
    }
    Ok(columns)
}

fn keep<'a>(column: CodedColumn<'a>, columns: &mut Vec<CodedColumn<'a>>) -> Result<(), NoMemory>
    ensures { OnOk result (columns.new.items ≡ columns.old.items ++ column.entry ∷ []) }
{
    columns.push(column)?;
    Ok(())
}

/// A column, whose values are those of its dictionary. Its ids are read into room that is used
/// again.
pub(crate) fn read_coded_column<'a, S: Shelf>(
    alloc: Global,
    shelf: &mut S,
    head: &'a Head,
    column: u16,
    room: &mut NarrowIds,
) -> Result<CodedColumn<'a>, HeadFault>
    requires loaded { IsLoaded head.now column }
    requires placed { IsSome (place_in head.now.sections (part.Forward column)) }
    ensures reads { ReadsCodedColumn head.now column
        (seen S.Shelf shelf.old) (seen S.Shelf shelf.new) result }
    ensures log { (file : List ℕ) → AreIn file head.now.sections
        → LogsFile file (S.log shelf.old) (S.log shelf.new) }
    ensures once { LogsColumn head.now column (S.log shelf.old) (S.log shelf.new) }
{
    let Some(place) = head.place(Part::Forward(column)) else {
        unreachable!();
    };
    let dictionary = head.dictionary(column);
    match read_ids(alloc, shelf, place, dictionary.count(), head.rows(), room) {
        Ok(ids) => Ok(CodedColumn { dictionary, ids }),
        Err(ColumnFault::BadId) => Err(HeadFault::NotASegment(Part::Forward(column))),
        Err(ColumnFault::ReadFault) => Err(HeadFault::ReadFault),
        Err(ColumnFault::NoMemory) => Err(HeadFault::NoMemory),
    }
}

// The ids of the rows in a column of so many values.
fn read_ids<S: Shelf>(
    alloc: Global,
    shelf: &mut S,
    place: &Place,
    count: u32,
    rows: u32,
    room: &mut NarrowIds,
) -> Result<RowIds, ColumnFault>
    ensures ids { IfOk result (λ ids. AppendsRange (S.held shelf.old) place.now
        (width_of count) count 0 rows [] ids) }
    ensures reads { ReadsRange result place.now (width_of count) count 0 rows
        (seen S.Shelf shelf.old) (seen S.Shelf shelf.new) }
{
    let range = IdRange {
        width: Width {
            bits: width_for(count),
        },
        count,
        from: 0,
        to: rows,
    };
    if range.width.bits <= 16 {
        return read_narrow(alloc, shelf, place, range, room);
    }
    let mut buffer = Vec::new(alloc);
    let mut ids = Vec::new(alloc);
    match append_range(alloc, shelf, place, range, &mut buffer, &mut ids) {
        Ok(()) => Ok(RowIds::from_wide(ids)),
        Err(fault) => Err(fault),
    }
}

// The ids of a range in two bytes each.
fn read_narrow<S: Shelf>(
    alloc: Global,
    shelf: &mut S,
    place: &Place,
    range: IdRange,
    room: &mut NarrowIds,
) -> Result<RowIds, ColumnFault>
    requires { range.width.bits ≤ 16 }
    ensures ids { IfOk result (λ ids. AppendsRange (S.held shelf.old) place.now
        range.width.bits range.count range.from range.to [] ids) }
    ensures reads { ReadsRange result place.now range.width.bits range.count range.from range.to
        (seen S.Shelf shelf.old) (seen S.Shelf shelf.new) }
{
    room.clear();
    let mut buffer = Vec::new(alloc);
    match append_narrow(alloc, shelf, place, range, &mut buffer, room) {
        Ok(()) => copied(alloc, room),
        Err(fault) => Err(fault),
    }
}

// A copy of ids in two bytes each.
fn copied(alloc: Global, ids: &NarrowIds) -> Result<RowIds, ColumnFault>
    ensures same { IfOk result (λ all. all ≡ ids.now) }
    ensures only { IfErr result (λ fault. fault ≡ ColumnFault.NoMemory) }
{
    let mut all = Vec::new(alloc);
    all.extend_from_slice(ids.as_slice())?;
    Ok(RowIds::from_narrow(all))
}
