//! Bytes of a segment's file are read.
ghost use Rattle.std.specs.Prelude.{◌≡◌, ◌<◌, ◌+◌, ◌^◌, IfOk, IfErr, IfSome, OnErr, OnOk, IsErrOf, Some, length};
ghost use Rattle.outside.specs.Files.{bytes_at, bytes_of};
ghost use Rattle.outside.specs.Reads.{LogsThrough, LogsUpTo};
ghost use Rattle.outside.specs.Seen.{OnlyReads, seen};
ghost use Rattle.segment_file.specs.declared.fault.HeadFault.TheVariants.{NotASegment};
ghost use Rattle.segment_file.specs.declared.part.Part.{Part};
ghost use Rattle.segment_file.specs.declared.part.Part.TheVariants as part;

use crate::{HeadFault, Part};
use outside::{Bytes, Shelf, ShelfFault, read_bytes, read_into};
use std::alloc::Global;

/// So many bytes of a file from an offset on. Where the file ends before, its front says what it is
/// not.
pub fn read_exactly<S: Shelf>(
    alloc: Global,
    shelf: &mut S,
    file: &str,
    offset: u64,
    count: u64,
) -> Result<Bytes, HeadFault>
    requires some { 0 < offset + count }
    requires fits { offset + count < 2 ^ 64 }
    ensures bytes { IfOk result (λ bytes. IfSome (S.held shelf.old) (λ files.
        bytes ≡ bytes_at files file.now offset count)) }
    ensures size { IfOk result (λ bytes. length bytes ≡ count) }
    ensures short { IfErr result (λ fault. (p : Part) → fault ≡ NotASegment p →
        (p ≡ part.Head) × IfSome (S.held shelf.old) (λ files.
        length (bytes_of (Some files) file.now) < offset + count)) }
    ensures only_reads { OnlyReads (IsErrOf result HeadFault.ReadFault)
        (seen S.Shelf shelf.old) (seen S.Shelf shelf.new) }
    ensures log { IfOk result (λ bytes. LogsThrough file.now offset (offset + count)
        (S.log shelf.old) (S.log shelf.new)) }
    ensures log_of_fault { OnErr result
        (LogsUpTo file.now offset (offset + count) (S.log shelf.old) (S.log shelf.new)) }
{
    let bytes = match read_bytes(alloc, shelf, file, offset, count) {
        Ok(bytes) => bytes,
        Err(fault) => return Err(HeadFault::from(fault)),
    };
    if (bytes.len() as u64) < count {
        return Err(HeadFault::NotASegment(Part::Head));
    }
    Ok(bytes)
}

/// The same, in place of other bytes.
pub fn fill_exactly<S: Shelf>(
    alloc: Global,
    shelf: &mut S,
    file: &str,
    offset: u64,
    count: u64,
    into: &mut Vec<u8>,
) -> Result<(), HeadFault>
    requires some { 0 < offset + count }
    requires fits { offset + count < 2 ^ 64 }
    ensures bytes { OnOk result (IfSome (S.held shelf.old) (λ files.
        into.new.items ≡ bytes_at files file.now offset count)) }
    ensures size { OnOk result (length into.new.items ≡ count) }
    ensures short { IfErr result (λ fault. (p : Part) → fault ≡ NotASegment p →
        (p ≡ part.Head) × IfSome (S.held shelf.old) (λ files.
        length (bytes_of (Some files) file.now) < offset + count)) }
    ensures only_reads { OnlyReads (IsErrOf result HeadFault.ReadFault)
        (seen S.Shelf shelf.old) (seen S.Shelf shelf.new) }
    ensures log { OnOk result (LogsThrough file.now offset (offset + count)
        (S.log shelf.old) (S.log shelf.new)) }
    ensures log_of_fault { OnErr result
        (LogsUpTo file.now offset (offset + count) (S.log shelf.old) (S.log shelf.new)) }
{
    into.resize(count as usize, 0)?;
    let read = match read_into(alloc, shelf, file, offset, into) {
        Ok(read) => read,
        Err(fault) => return Err(HeadFault::from(fault)),
    };
    if (read as u64) < count {
        return Err(HeadFault::NotASegment(Part::Head));
    }
    Ok(())
}

/// How many bytes a file has; one that is missing has none.
pub(crate) fn file_length<S: Shelf>(
    alloc: Global,
    shelf: &mut S,
    file: &str,
) -> Result<u64, HeadFault>
    ensures length { IfOk result (λ n. IfSome (S.held shelf.old) (λ files.
        n ≡ length (bytes_of (Some files) file.now))) }
    ensures only_reads { OnlyReads (IsErrOf result HeadFault.ReadFault)
        (seen S.Shelf shelf.old) (seen S.Shelf shelf.new) }
    ensures log { S.log shelf.new ≡ S.log shelf.old }
    ensures never { IfErr result (λ fault. (p : Part) → ¬ (fault ≡ NotASegment p)) }
{
    match shelf.length(alloc, file) {
        Ok(length) => Ok(length),
        Err(ShelfFault::Missing) => Ok(0),
        Err(ShelfFault::Failed) => Err(HeadFault::ReadFault),
        Err(ShelfFault::NoMemory) => Err(HeadFault::NoMemory),
    }
}
