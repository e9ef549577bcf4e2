//! Bytes of a place are read.
ghost use Rattle.std.specs.Prelude.{◌≡◌, ◌≤◌, ◌<◌, ◌+◌, ◌^◌, ◌↔◌, IfOk, IfSome, IsErrOf, length};
ghost use Rattle.outside.specs.Seen.{OnlyReads, seen};
ghost use Rattle.bit_column.specs.Sections.{section};
ghost use Rattle.dictionary_reading.specs.InFile.{LogsInside, part};

use crate::LookupFault;
use outside::{Bytes, Place, Shelf, ShelfFault, read_bytes};
use std::alloc::Global;

/// So many bytes of a place from one on.
pub fn read_part<S: Shelf>(
    alloc: Global,
    shelf: &mut S,
    place: &Place,
    from: u64,
    count: u64,
) -> Result<Bytes, LookupFault>
    requires fits { place.now.offset + place.now.length < 2 ^ 64 }
    requires some { 0 < place.now.length }
    requires within { from + count ≤ place.now.length }
    ensures bytes { IfOk result (λ bytes. IfSome (S.held shelf.old) (λ files.
        bytes ≡ part from count (section files place.now))) }
    ensures size { IfOk result (λ bytes. length bytes ≡ count) }
    ensures short { IsErrOf result LookupFault.NoDictionary → IfSome (S.held shelf.old) (λ files.
        length (section files place.now) < place.now.length) }
    ensures only_reads { OnlyReads (IsErrOf result LookupFault.ReadFault)
        (seen S.Shelf shelf.old) (seen S.Shelf shelf.new) }
    ensures log { LogsInside place.now count (S.log shelf.old) (S.log shelf.new) }
{
    let file = place.file.as_str();
    let bytes = match read_bytes(alloc, shelf, file, place.offset + from, count) {
        Ok(bytes) => bytes,
        Err(fault) => return Err(of_shelf(fault)),
    };
    if (bytes.len() as u64) < count {
        return Err(LookupFault::NoDictionary);
    }
    Ok(bytes)
}

// What a shelf's fault is for a dictionary: a file that is missing is an empty one.
fn of_shelf(fault: ShelfFault) -> LookupFault
    ensures missing { result ≡ LookupFault.NoDictionary ↔ (fault ≡ ShelfFault.Missing) }
    ensures failed { result ≡ LookupFault.ReadFault ↔ (fault ≡ ShelfFault.Failed) }
{
    match fault {
        ShelfFault::Missing => LookupFault::NoDictionary,
        ShelfFault::Failed => LookupFault::ReadFault,
        ShelfFault::NoMemory => LookupFault::NoMemory,
    }
}
