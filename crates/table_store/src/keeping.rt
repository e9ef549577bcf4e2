//! The file of a segment that is dropped or replaced while it is still read is kept under a name of
//! its own.

ghost use Rattle.std.specs.Prelude.{◌≡◌, ◌⊎◌, ◌≤◌, ◌<◌, ◌+◌, ◌^◌, IfOk, IsErrOf, MatchBool, OnErr, OnOk};
ghost use Rattle.outside.specs.Files.{Has, IsLengthOf, Lacks, bytes_of, with_file, without_file};
ghost use Rattle.outside.specs.Seen.{seen};
ghost use Rattle.segment_build.specs.Publishing.{incoming};
ghost use Rattle.segment_file.specs.Names.{file_of};
ghost use Rattle.table_store.specs.Calls.{CopiesFile, OnlyRemoves};
ghost use Rattle.table_store.specs.Copies.{IsCopied, IsGrown};
ghost use Rattle.table_store.specs.Kept.{IsKeptName, kept_name};
ghost use Rattle.table_store.specs.Segments.{HasSegment, LacksSegment};

use crate::StoreFault;
use outside::{Depot, DepotFault, Name, NoMemory, ShelfFault, read_bytes};
use segment_build::INCOMING;
use segment_file::segment_file_name;
use std::alloc::Global;

/// The most bytes of a file that are copied at once.
const PIECE: u64 = 65_536;

/// Whether a name is that of a kept file.
pub fn is_kept_name(name: &str) -> bool
    ensures { MatchBool result (IsKeptName name.now) (¬ IsKeptName name.now) }
{
    name.strip_suffix(".kept").is_some()
}

// The name that the file of a segment is kept under from a numbered line on.
fn kept_file_name(alloc: Global, name: &str, line: u32) -> Result<Name, NoMemory>
    ensures { IfOk result (λ kept. kept ≡ kept_name name.now line) }
{
    let mut kept = String::from_str(alloc, name)?;
    kept.push_str(".")?;
    let digits = line.to_string(alloc)?;
    kept.push_str(digits.as_str())?;
    kept.push_str(".kept")?;
    Ok(Name::from_string(alloc, kept)?)
}

/// Keeps the file of the segment of this name: its bytes are put under the name of a kept file of
/// this line, a piece after the other, and that name is answered. The segment's own file stays.
pub fn keep_segment<D: Depot>(
    alloc: Global,
    depot: &mut D,
    name: &str,
    line: u32,
) -> Result<Name, StoreFault>
    ensures named { IfOk result (λ kept. kept ≡ kept_name name.now line) }
    ensures put { OnOk result (D.held depot.new ≡ with_file (kept_name name.now line)
        (bytes_of (D.held depot.old) (file_of name.now)) (D.held depot.old)) }
    ensures part_gone { OnOk result
        (D.parts depot.new ≡ without_file incoming (D.parts depot.old)) }
    ensures was_there { OnOk result (HasSegment (D.held depot.old) name.now) }
    ensures unchanged { OnErr result (D.held depot.new ≡ D.held depot.old) }
    ensures missing { IsErrOf result StoreFault.NoSegment →
        LacksSegment (D.held depot.old) name.now }
    ensures only { OnErr result
        (IsErrOf result StoreFault.NoSegment ⊎ IsErrOf result StoreFault.ReadFault
        ⊎ IsErrOf result StoreFault.WriteFault ⊎ IsErrOf result StoreFault.NoMemory) }
    ensures copies { CopiesFile (file_of name.now) (IsErrOf result StoreFault.ReadFault)
        (IsErrOf result StoreFault.WriteFault) (seen D.Shelf depot.old) (seen D.Shelf depot.new) }
{
    let file = segment_file_name(alloc, name)?;
    let kept = kept_file_name(alloc, name, line)?;
    match publish_copy(alloc, depot, file.as_str(), kept.as_str()) {
        Ok(()) => Ok(kept),
        Err(fault) => Err(fault),
    }
}

// Puts the bytes of a file under another name, as the one part that files are published by.
fn publish_copy<D: Depot>(
    alloc: Global,
    depot: &mut D,
    file: &str,
    kept: &str,
) -> Result<(), StoreFault>
    ensures put { OnOk result (D.held depot.new ≡ with_file kept.now
        (bytes_of (D.held depot.old) file.now) (D.held depot.old)) }
    ensures part_gone { OnOk result
        (D.parts depot.new ≡ without_file incoming (D.parts depot.old)) }
    ensures was_there { OnOk result (Has (D.held depot.old) file.now) }
    ensures unchanged { OnErr result (D.held depot.new ≡ D.held depot.old) }
    ensures missing { IsErrOf result StoreFault.NoSegment → Lacks (D.held depot.old) file.now }
    ensures only { OnErr result
        (IsErrOf result StoreFault.NoSegment ⊎ IsErrOf result StoreFault.ReadFault
        ⊎ IsErrOf result StoreFault.WriteFault ⊎ IsErrOf result StoreFault.NoMemory) }
    ensures copies { CopiesFile file.now (IsErrOf result StoreFault.ReadFault)
        (IsErrOf result StoreFault.WriteFault) (seen D.Shelf depot.old) (seen D.Shelf depot.new) }
{
    let length = match depot.length(alloc, file) {
        Ok(length) => length,
        Err(ShelfFault::Missing) => return Err(StoreFault::NoSegment),
        Err(ShelfFault::Failed) => return Err(StoreFault::ReadFault),
        Err(ShelfFault::NoMemory) => return Err(StoreFault::NoMemory),
    };
    match copy_file(alloc, depot, file, length) {
        Ok(()) => {}
        Err(fault) => return Err(fault),
    }
    match depot.publish(alloc, INCOMING, kept) {
        Ok(()) => Ok(()),
        Err(DepotFault::Failed) => Err(StoreFault::WriteFault),
        Err(DepotFault::NoMemory) => Err(StoreFault::NoMemory),
        Err(DepotFault::Missing) => unreachable!(),
    }
}

// Makes the part that files are published by a copy of a file of this length.
fn copy_file<D: Depot>(
    alloc: Global,
    depot: &mut D,
    file: &str,
    length: u64,
) -> Result<(), StoreFault>
    requires { IsLengthOf (D.held depot.old) file.now length }
    ensures copied { OnOk result (IsCopied file.now
        (seen D.Shelf depot.old) (seen D.Shelf depot.new)) }
    ensures held { D.held depot.new ≡ D.held depot.old }
    ensures missing { IsErrOf result StoreFault.NoSegment → Lacks (D.held depot.old) file.now }
    ensures only { OnErr result
        (IsErrOf result StoreFault.NoSegment ⊎ IsErrOf result StoreFault.ReadFault
        ⊎ IsErrOf result StoreFault.WriteFault ⊎ IsErrOf result StoreFault.NoMemory) }
    ensures copies { CopiesFile file.now (IsErrOf result StoreFault.ReadFault)
        (IsErrOf result StoreFault.WriteFault) (seen D.Shelf depot.old) (seen D.Shelf depot.new) }
{
    match depot.begin(alloc, INCOMING) {
        Ok(()) => {}
        Err(DepotFault::Failed) => return Err(StoreFault::WriteFault),
        Err(DepotFault::NoMemory) => return Err(StoreFault::NoMemory),
        Err(DepotFault::Missing) => unreachable!(),
    }
    let mut done: u64 = 0;
    'pieces: while done < length {
        let count = piece_of(length - done);
        let n = match append_piece(alloc, depot, file, done, count) {
            Ok(n) => n,
            Err(fault) => return Err(fault),
        };
        if n == 0 {
            return Ok(());
        }
        done += n;
    }
    Ok(())
}

// How many of the bytes that are left are copied next.
fn piece_of(left: u64) -> u64
    ensures at_most { result ≤ left }
    ensures small { result ≤ 65536 }
    ensures some { 0 < left → 0 < result }
{
    if left < PIECE { left } else { PIECE }
}

// Adds so many bytes of a file, from an offset on, to the part that files are published by, and
// says how many there were.
fn append_piece<D: Depot>(
    alloc: Global,
    depot: &mut D,
    file: &str,
    offset: u64,
    count: u64,
) -> Result<u64, StoreFault>
    requires fits { offset + count < 2 ^ 64 }
    requires small { count ≤ 65536 }
    ensures grown { IfOk result (λ n. IsGrown file.now offset count n
        (seen D.Shelf depot.old) (seen D.Shelf depot.new)) }
    ensures held { D.held depot.new ≡ D.held depot.old }
    ensures missing { IsErrOf result StoreFault.NoSegment → Lacks (D.held depot.old) file.now }
    ensures only { OnErr result
        (IsErrOf result StoreFault.NoSegment ⊎ IsErrOf result StoreFault.ReadFault
        ⊎ IsErrOf result StoreFault.WriteFault ⊎ IsErrOf result StoreFault.NoMemory) }
    ensures copies { CopiesFile file.now (IsErrOf result StoreFault.ReadFault)
        (IsErrOf result StoreFault.WriteFault) (seen D.Shelf depot.old) (seen D.Shelf depot.new) }
{
    let piece = match read_bytes(alloc, depot, file, offset, count) {
        Ok(piece) => piece,
        Err(ShelfFault::Missing) => return Err(StoreFault::NoSegment),
        Err(ShelfFault::Failed) => return Err(StoreFault::ReadFault),
        Err(ShelfFault::NoMemory) => return Err(StoreFault::NoMemory),
    };
    match depot.append(alloc, INCOMING, piece.as_slice()) {
        Ok(()) => Ok(piece.len() as u64),
        Err(DepotFault::Failed) => Err(StoreFault::WriteFault),
        Err(DepotFault::NoMemory) => Err(StoreFault::NoMemory),
        Err(DepotFault::Missing) => unreachable!(),
    }
}

/// Takes a kept file away. One that is gone by then counts as taken away.
pub fn remove_kept<D: Depot>(alloc: Global, depot: &mut D, kept: &str) -> Result<(), StoreFault>
    requires { IsKeptName kept.now }
    ensures removed { OnOk result
        (D.held depot.new ≡ without_file kept.now (D.held depot.old)) }
    ensures unchanged { OnErr result (D.held depot.new ≡ D.held depot.old) }
    ensures only { OnErr result
        (IsErrOf result StoreFault.WriteFault ⊎ IsErrOf result StoreFault.NoMemory) }
    ensures only_removes { OnlyRemoves ⊥ (IsErrOf result StoreFault.WriteFault)
        (seen D.Shelf depot.old) (seen D.Shelf depot.new) }
{
    match depot.remove(alloc, kept) {
        Ok(()) => Ok(()),
        Err(DepotFault::Missing) => Ok(()),
        Err(DepotFault::Failed) => Err(StoreFault::WriteFault),
        Err(DepotFault::NoMemory) => Err(StoreFault::NoMemory),
    }
}
