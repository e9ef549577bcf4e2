//! The file of a segment is looked at: whole, or as far as it spells rows.

ghost use Rattle.outside.specs.Seen.{seen};
ghost use Rattle.segment_file.specs.Names.{IsSegmentOf};
ghost use Rattle.table_store.specs.Calls.{CountsSegment, SpellsSegment};
ghost use Rattle.table_store.specs.Segments.{HasSegment};

use crate::{StoreFault, holds_segment};
use outside::{Bytes, Depot};
use segment_check::{count_image, spell_text};
use segment_file::{HeadFault, segment_file_name};
use std::alloc::Global;
use table_schema::Table;

/// How many rows the segment of this name has, or the part of its file that is wrong. It is looked
/// for by its name, the rows are not made, and the file of no other segment is opened.
pub fn count_segment<D: Depot>(
    alloc: Global,
    depot: &mut D,
    table: &Table,
    name: &str,
) -> Result<u32, StoreFault>
    requires { IsSegmentOf table.now name.now }
    ensures { CountsSegment table.now name.now
        (seen D.Shelf depot.old) (seen D.Shelf depot.new) result }
{
    match holds_segment(alloc, depot, name) {
        Ok(true) => {}
        Ok(false) => return Err(StoreFault::NoSegment),
        Err(fault) => return Err(fault),
    }
    count_there(alloc, depot, table, name)
}

// The same of a segment that is there.
fn count_there<D: Depot>(
    alloc: Global,
    depot: &mut D,
    table: &Table,
    name: &str,
) -> Result<u32, StoreFault>
    requires asked { IsSegmentOf table.now name.now }
    requires there { HasSegment (D.held depot.old) name.now }
    ensures { CountsSegment table.now name.now
        (seen D.Shelf depot.old) (seen D.Shelf depot.new) result }
{
    let file = segment_file_name(alloc, name)?;
    match count_image(alloc, depot, file.as_str(), name, table) {
        Ok(rows) => Ok(rows),
        Err(HeadFault::NotASegment(part)) => Err(StoreFault::NotASegment(part)),
        Err(HeadFault::ReadFault) => Err(StoreFault::ReadFault),
        Err(HeadFault::NoMemory) => Err(StoreFault::NoMemory),
    }
}

/// The text of the rows that the file of the segment of this name spells, or the part of it that
/// spells none. Its indexes and trees are not looked at, nor the file of any other segment.
pub fn spell_segment<D: Depot>(
    alloc: Global,
    depot: &mut D,
    table: &Table,
    name: &str,
) -> Result<Bytes, StoreFault>
    requires { IsSegmentOf table.now name.now }
    ensures { SpellsSegment table.now name.now
        (seen D.Shelf depot.old) (seen D.Shelf depot.new) result }
{
    match holds_segment(alloc, depot, name) {
        Ok(true) => {}
        Ok(false) => return Err(StoreFault::NoSegment),
        Err(fault) => return Err(fault),
    }
    spell_there(alloc, depot, table, name)
}

// The same of a segment that is there.
fn spell_there<D: Depot>(
    alloc: Global,
    depot: &mut D,
    table: &Table,
    name: &str,
) -> Result<Bytes, StoreFault>
    requires asked { IsSegmentOf table.now name.now }
    requires there { HasSegment (D.held depot.old) name.now }
    ensures { SpellsSegment table.now name.now
        (seen D.Shelf depot.old) (seen D.Shelf depot.new) result }
{
    let file = segment_file_name(alloc, name)?;
    match spell_text(alloc, depot, file.as_str(), name, table) {
        Ok(text) => Ok(text),
        Err(HeadFault::NotASegment(part)) => Err(StoreFault::NotASegment(part)),
        Err(HeadFault::ReadFault) => Err(StoreFault::ReadFault),
        Err(HeadFault::NoMemory) => Err(StoreFault::NoMemory),
    }
}
