//! The head of a segment's file is read.
ghost use Rattle.outside.specs.Seen.{seen};
ghost use Rattle.segment_file.specs.Names.{IsSegmentOf};
ghost use Rattle.segment_head.specs.Calls.{ReadsHead};

use crate::{Head, check_head};
use outside::Shelf;
use segment_file::{HeadFault, read_front, read_rest, sections_of};
use std::alloc::Global;
use table_schema::Table;

/// The head of a file that is to be the segment's of this name, with all dictionaries and nodes, or
/// the part of the first rule that fails. A file that is missing is an empty one. No byte past the
/// head is read, and none twice.
pub fn read_head<S: Shelf>(
    alloc: Global,
    shelf: &mut S,
    file: &str,
    name: &str,
    table: &Table,
) -> Result<Head, HeadFault>
    requires { IsSegmentOf table.now name.now }
    ensures { ReadsHead table.now name.now file.now
        (seen S.Shelf shelf.old) (seen S.Shelf shelf.new) result }
{
    let parts = sections_of(alloc, table)?;
    let read = match read_front(alloc, shelf, file, name, table, &parts) {
        Ok(read) => read,
        Err(fault) => return Err(fault),
    };
    let bytes = match read_rest(alloc, shelf, file, name, table, &read) {
        Ok(bytes) => bytes,
        Err(fault) => return Err(fault),
    };
    check_head(alloc, table, file, name, &read.front, &parts, &bytes)
}
