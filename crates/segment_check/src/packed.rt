//! The ids of a column of a file are read as they are packed, and put into a list.
ghost use Rattle.std.specs.Prelude.{◌≡◌, ◌≤◌, ◌<◌, ◌*◌, [], ℕ, List, IfOk, IsSome, OnOk, length};
ghost use Rattle.outside.specs.Seen.{seen};
ghost use Rattle.bit_column.specs.Column.{ids_between, width_of};
ghost use Rattle.bit_column.specs.Reading.{ReadsRange};
ghost use Rattle.bit_column.specs.Sections.{AppendsRange};
ghost use Rattle.segment_file.specs.declared.part.Part.TheVariants as part;
ghost use Rattle.segment_build.specs.FileReads.{LogsFile};
ghost use Rattle.segment_head.specs.Heads.{AreIn, IsLoaded, place_in};
ghost use Rattle.segment_check.specs.Codes.{ReadsIds};
ghost use Rattle.segment_check.specs.Reading.{LogsColumn};

use bit_column::{ColumnFault, IdRange, Width, read_bytes, unpack, width_for};
use outside::{Place, Shelf};
use segment_build::PackedIds;
use segment_file::{HeadFault, Part};
use segment_head::Head;
use std::alloc::Global;

/// The ids of the rows in a column, which are put into a list in place of what it has.
pub(crate) fn read_packed_column<S: Shelf>(
    alloc: Global,
    shelf: &mut S,
    head: &Head,
    column: u16,
    list: &mut Vec<u32>,
) -> Result<PackedIds, HeadFault>
    requires loaded { IsLoaded head.now column }
    requires placed { IsSome (place_in head.now.sections (part.Forward column)) }
    ensures list { IfOk result (λ ids. list.new.items ≡ ids) }
    ensures reads { ReadsIds head.now column
        (seen S.Shelf shelf.old) (seen S.Shelf shelf.new) result }
    ensures log { (file : List ℕ) → AreIn file head.now.sections
        → LogsFile file (S.log shelf.old) (S.log shelf.new) }
    ensures once { LogsColumn head.now column (S.log shelf.old) (S.log shelf.new) }
{
    let Some(place) = head.place(Part::Forward(column)) else {
        unreachable!();
    };
    let dictionary = head.dictionary(column);
    match read_packed(alloc, shelf, place, dictionary.count(), head.rows(), list) {
        Ok(ids) => Ok(ids),
        Err(ColumnFault::BadId) => Err(HeadFault::NotASegment(Part::Forward(column))),
        Err(ColumnFault::ReadFault) => Err(HeadFault::ReadFault),
        Err(ColumnFault::NoMemory) => Err(HeadFault::NoMemory),
    }
}

// The ids of the rows in a column of so many values.
fn read_packed<S: Shelf>(
    alloc: Global,
    shelf: &mut S,
    place: &Place,
    count: u32,
    rows: u32,
    list: &mut Vec<u32>,
) -> Result<PackedIds, ColumnFault>
    ensures list { IfOk result (λ ids. list.new.items ≡ ids) }
    ensures ids { IfOk result (λ ids. AppendsRange (S.held shelf.old) place.now
        (width_of count) count 0 rows [] ids) }
    ensures reads { ReadsRange result place.now (width_of count) count 0 rows
        (seen S.Shelf shelf.old) (seen S.Shelf shelf.new) }
{
    let width = Width {
        bits: width_for(count),
    };
    list.resize(rows as usize, 0)?;
    let mut bytes = Vec::new(alloc);
    if rows == 0 {
        return Ok(PackedIds::new(bytes, width, rows));
    }
    let range = IdRange {
        width,
        count,
        from: 0,
        to: rows,
    };
    match read_list(alloc, shelf, place, range, &mut bytes, list.as_mut_slice()) {
        Ok(()) => Ok(PackedIds::new(bytes, width, rows)),
        Err(fault) => Err(fault),
    }
}

// Reads the bytes of the ids of a range from the first of a section on, and puts the ids into a
// list that has place for them.
fn read_list<S: Shelf>(
    alloc: Global,
    shelf: &mut S,
    place: &Place,
    range: IdRange,
    bytes: &mut Vec<u8>,
    list: &mut [u32],
) -> Result<(), ColumnFault>
    requires first { range.from ≡ 0 }
    requires some { 0 < range.to }
    requires room { length list.old ≡ range.to }
    ensures held { OnOk result (range.to * range.width.bits ≤ 8 * length bytes.new.items) }
    ensures list { OnOk result
        (list.new ≡ ids_between range.width.bits 0 range.to bytes.new.items) }
    ensures ids { OnOk result (AppendsRange (S.held shelf.old) place.now range.width.bits
        range.count range.from range.to [] list.new) }
    ensures reads { ReadsRange result place.now range.width.bits range.count range.from range.to
        (seen S.Shelf shelf.old) (seen S.Shelf shelf.new) }
{
    match read_bytes(alloc, shelf, place, range, bytes) {
        Ok(()) => unpack(bytes.as_slice(), 0, range.width, range.count, list),
        Err(fault) => Err(fault),
    }
}
