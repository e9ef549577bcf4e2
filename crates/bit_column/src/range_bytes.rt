//! The bytes of a range of ids are read from a section of a file.
ghost use Rattle.std.specs.Prelude.{◌<◌, ◌≤◌, ◌+◌, ◌-◌, ◌*◌, ◌%◌, take};
ghost use Rattle.outside.specs.Seen.{seen};
ghost use Rattle.bit_column.specs.Column.{bytes_for};
ghost use Rattle.bit_column.specs.Reading.{ReadsBytes};
ghost use Rattle.bit_column.specs.Sections.{first_byte};

use crate::file_part::FilePart;
use crate::part::{read_few, read_short};
use crate::{ColumnFault, IdRange};
use outside::{Place, Shelf};
use std::alloc::Global;

/// Reads the bytes of a range of ids in place of others. Where there were as many before, as in the
/// range before of as many ids, no place for them is cleared.
pub fn read_bytes<S: Shelf>(
    alloc: Global,
    shelf: &mut S,
    place: &Place,
    range: IdRange,
    buffer: &mut Vec<u8>,
) -> Result<(), ColumnFault>
    requires { range.from < range.to }
    ensures { ReadsBytes result place.now range.width.bits range.from range.to buffer.new.items
        (seen S.Shelf shelf.old) (seen S.Shelf shelf.new) }
{
    let end = (range.to as u64 * range.width.bits as u64 + 7) / 8;
    if end > place.length {
        return Err(ColumnFault::BadId);
    }
    let first = range.from as u64 * range.width.bits as u64 / 8;
    buffer.resize((end - first) as usize, 0)?;
    let name = place.file.as_str();
    let part = FilePart {
        name,
        offset: place.offset,
        from: first,
        to: end,
    };
    match read_short(alloc, shelf, part, &mut *buffer) {
        Ok(()) => Ok(()),
        Err(fault) => Err(fault),
    }
}

/// Reads the bytes of a range of ids, which are at most eight, to the front of `bytes`.
#[inline(always)]
pub fn read_short_range<S: Shelf>(
    alloc: Global,
    shelf: &mut S,
    place: &Place,
    range: IdRange,
    bytes: &mut [u8; 8],
) -> Result<(), ColumnFault>
    requires some { range.from < range.to }
    requires few { range.from * range.width.bits % 8 + (range.to - range.from) * range.width.bits
        ≤ 64 }
    ensures { ReadsBytes result place.now range.width.bits range.from range.to
        (take (bytes_for (range.to * range.width.bits) - first_byte range.width.bits range.from)
        bytes.new)
        (seen S.Shelf shelf.old) (seen S.Shelf shelf.new) }
{
    let end = (range.to as u64 * range.width.bits as u64 + 7) / 8;
    if end > place.length {
        return Err(ColumnFault::BadId);
    }
    let first = range.from as u64 * range.width.bits as u64 / 8;
    let name = place.file.as_str();
    let part = FilePart {
        name,
        offset: place.offset,
        from: first,
        to: end,
    };
    match read_few(alloc, shelf, part, bytes) {
        Ok(()) => Ok(()),
        Err(fault) => Err(fault),
    }
}
