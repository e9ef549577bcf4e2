//! The head of a file is read, with its front and the sections that it has.
ghost use Rattle.outside.specs.Seen.{seen};
ghost use Rattle.segment_file.specs.Names.{IsSegmentOf};
ghost use Rattle.segment_check.specs.Reading.{ReadsFileHead};

use outside::Shelf;
use segment_file::{Front, HeadFault, Part, read_front, read_rest, sections_of};
use segment_head::{Head, check_head};
use std::alloc::Global;
use table_schema::Table;

/// What was read of a file where its rows are not: the sections that it is to have, its front, and
/// its head with all dictionaries and nodes.
#[derive(Drop)]
pub struct FileHead {
    pub parts: Vec<Part>,
    pub front: Front,
    pub head: Head,
}

/// The head of a file that is to be the segment's of this name, or the part of the first rule that
/// fails.
pub(crate) fn read_file_head<S: Shelf>(
    alloc: Global,
    shelf: &mut S,
    file: &str,
    name: &str,
    table: &Table,
) -> Result<FileHead, HeadFault>
    requires { IsSegmentOf table.now name.now }
    ensures { ReadsFileHead table.now name.now file.now
        (seen S.Shelf shelf.old) (seen S.Shelf shelf.new) result }
{
    let parts = sections_of(alloc, table)?;
    let read = match read_front(alloc, shelf, file, name, table, &parts) {
        Ok(read) => read,
        Err(fault) => return Err(fault),
    };
    let bytes = match read_rest(alloc, shelf, file, name, table, &read) {
        Ok(bytes) => bytes,
        Err(fault) => return Err(fault),
    };
    let head = match check_head(alloc, table, file, name, &read.front, &parts, &bytes) {
        Ok(head) => head,
        Err(fault) => return Err(fault),
    };
    Ok(FileHead {
        parts,
        front: read.front,
        head,
    })
}
