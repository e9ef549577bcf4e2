//! The ids of a column, read from a segment's file.

ghost use Rattle.std.specs.Prelude.{◌≡◌, ◌≤◌, ◌<◌, ◌+◌, All, IfErr, IfOk, IfSome, IsErrOf, OnOk, length, min};
ghost use Rattle.outside.specs.Reads.{LogsOn, LogsUpTo};
ghost use Rattle.outside.specs.Seen.{seen};
ghost use Rattle.bit_column.specs.Column.{ids_between, width_of};
ghost use Rattle.bit_column.specs.Reading.{ReadsRange};
ghost use Rattle.bit_column.specs.Sections.{AppendsRange, Readable, end_byte, first_byte, section};
ghost use Rattle.coded_columns.specs.Ids.{IsNarrow, ids_in};
ghost use Rattle.segment_file.specs.declared.part.Part.TheVariants.{Forward};
ghost use Rattle.column_reader.specs.Calls.{ReadsSections};
ghost use Rattle.column_reader.specs.Faults.{IsFaultOf};
ghost use Rattle.column_reader.specs.Forward.{AreIdsOf, HasIds, IsReadable, LogsForward, LogsPart};
ghost use Rattle.segment_head.specs.declared.fault.EngineFault.TheVariants.{NotASegment};

use crate::fault::of_column;
use crate::rooms::IdRooms;
use bit_column::{ColumnFault, IdRange, Width, append_narrow, append_range, width_for};
use coded_columns::{IdRoom, Ids};
use outside::{Place, Shelf};
use segment_file::Part;
use segment_head::{EngineFault, Head};
use std::alloc::Global;

/// Ids are read in blocks of so many, which are whole bytes in any width: beside the ids of a
/// column there are the bytes of one block.
const BLOCK: u32 = 32768;

/// The ids of the rows in a column of a segment: its forward section is read, each byte once, and
/// nothing else.
pub fn read_column<S: Shelf>(
    rooms: &mut IdRooms,
    shelf: &mut S,
    head: &Head,
    column: u16,
) -> Result<Ids, EngineFault>
    requires { IsReadable head.now column }
    ensures ids { IfOk result (AreIdsOf (S.held shelf.old) head.now column) }
    ensures bad { IsErrOf result (NotASegment (Forward column)) →
        IfSome (S.held shelf.old) (λ files. ¬ HasIds files head.now column) }
    ensures only { IfErr result (IsFaultOf column) }
    ensures reads { ReadsSections result (λ _. LogsForward head.now column)
        (LogsPart head.now column)
        (seen S.Shelf shelf.old) (seen S.Shelf shelf.new) }
{
    let Some(place) = head.place(Part::Forward(column)) else {
        unreachable!();
    };
    let count = head.dictionary(column).count();
    read_ids(rooms, shelf, place, count, head.rows(), column)
}

// The ids of the rows in a column of so many values: its forward section is read, each byte once,
// and nothing else.
fn read_ids<S: Shelf>(
    rooms: &mut IdRooms,
    shelf: &mut S,
    place: &Place,
    count: u32,
    rows: u32,
    column: u16,
) -> Result<Ids, EngineFault>
    ensures ids { IfOk result (λ ids. IfSome (S.held shelf.old) (λ files.
        Readable (width_of count) count 0 rows (section files place.now)
        × (ids ≡ ids_between (width_of count) 0 rows (section files place.now)))) }
    ensures number { IfOk result (λ ids. length ids ≡ rows) }
    ensures below { IfOk result (λ ids. All (λ id. id < count) ids) }
    ensures bad { IsErrOf result (NotASegment (Forward column)) →
        IfSome (S.held shelf.old) (λ files.
        ¬ Readable (width_of count) count 0 rows (section files place.now)) }
    ensures only { IfErr result (IsFaultOf column) }
    ensures reads { ReadsSections result (λ _. LogsOn place.now.file
        (place.now.offset + first_byte (width_of count) 0)
        (place.now.offset + end_byte (width_of count) 0 rows)) (LogsUpTo place.now.file
        (place.now.offset + first_byte (width_of count) 0)
        (place.now.offset + end_byte (width_of count) 0 rows))
        (seen S.Shelf shelf.old) (seen S.Shelf shelf.new) }
{
    let width = width_for(count);
    let alloc = rooms.alloc();
    let mut buffer = Vec::new(alloc);
    let mut room = rooms.room_for(column, count, rows as usize)?;
    for at in 0..rows / BLOCK + 1 {
        let from = at * BLOCK;
        let to = block_end(from, rows);
        let range = IdRange {
            width: Width { bits: width },
            count,
            from,
            to,
        };
        match append_block(alloc, shelf, place, range, &mut buffer, &mut room) {
            Ok(()) => {}
            Err(fault) => return Err(of_column(fault, column)),
        }
    }
    Ok(room.into_ids())
}

// Adds the ids of a block to those before it, each in as many bytes as the room has for one.
fn append_block<S: Shelf>(
    alloc: Global,
    shelf: &mut S,
    place: &Place,
    range: IdRange,
    buffer: &mut Vec<u8>,
    room: &mut IdRoom,
) -> Result<(), ColumnFault>
    requires narrow { IsNarrow room.old → range.width.bits ≤ 16 }
    ensures ids { OnOk result (AppendsRange (S.held shelf.old) place.now range.width.bits
        range.count range.from range.to (ids_in room.old) (ids_in room.new)) }
    ensures reads { ReadsRange result place.now range.width.bits range.count range.from range.to
        (seen S.Shelf shelf.old) (seen S.Shelf shelf.new) }
    ensures narrow { IsNarrow room.new → IsNarrow room.old }
{
    match room {
        IdRoom::Narrow(ids) => append_narrow(alloc, shelf, place, range, buffer, ids),
        IdRoom::Wide(ids) => append_range(alloc, shelf, place, range, buffer, ids),
    }
}

// The end of the block of ids that begins with one of so many.
fn block_end(from: u32, rows: u32) -> u32
    requires { from ≤ rows }
    ensures { result ≡ min (from + 32768) rows }
{
    let left = rows - from;
    if left < BLOCK {
        return rows;
    }
    from + BLOCK
}
