//! A part of a file is read.
ghost use Rattle.std.specs.Prelude.{◌≡◌, ◌≤◌, ◌<◌, ◌+◌, ◌-◌, IfOk, IsErrOf, length, take};
ghost use Rattle.outside.specs.Files.{Lacks};
ghost use Rattle.outside.specs.Reads.{Fills, LogsOn, LogsUpTo};
ghost use Rattle.outside.specs.Seen.{OnlyReads, seen};
ghost use Rattle.bit_column.specs.Reading.{ReadsPart};

use crate::ColumnFault;
use crate::file_part::FilePart;
use outside::{Shelf, ShelfFault, past_all, read_into};
use std::alloc::Global;

/// Reads a part of a file into `into`, which has place for just its bytes. A file that is not there
/// has no bytes.
#[inline(never)]
pub fn read_part<S: Shelf>(
    alloc: Global,
    shelf: &mut S,
    part: FilePart<'_>,
    into: &mut [u8],
) -> Result<(), ColumnFault>
    requires { length into.old ≡ part.to - part.from }
    ensures { ReadsPart result part.entry.name.now (part.entry.offset + part.entry.from)
        (part.entry.offset + part.entry.to) into.new
        (seen S.Shelf shelf.old) (seen S.Shelf shelf.new) }
{
    if part.to > u64::MAX - part.offset {
        return Err(ColumnFault::from(past_all(alloc, shelf, part.name)));
    }
    let count = match read_into(alloc, shelf, part.name, part.offset + part.from, into) {
        Ok(count) => count,
        Err(fault) => return Err(ColumnFault::from(fault)),
    };
    if count < into.len() {
        return Err(ColumnFault::BadId);
    }
    Ok(())
}

/// Reads a part of a file, which is of at most eight bytes, to the front of `bytes`.
#[inline(always)]
pub fn read_few<S: Shelf>(
    alloc: Global,
    shelf: &mut S,
    part: FilePart<'_>,
    bytes: &mut [u8; 8],
) -> Result<(), ColumnFault>
    requires { part.to ≤ part.from + 8 }
    ensures { ReadsPart result part.entry.name.now (part.entry.offset + part.entry.from)
        (part.entry.offset + part.entry.to) (take (part.entry.to - part.entry.from) bytes.new)
        (seen S.Shelf shelf.old) (seen S.Shelf shelf.new) }
{
    let size = (part.to - part.from) as usize;
    match read_short(alloc, shelf, part, &mut bytes[..size]) {
        Ok(()) => Ok(()),
        Err(fault) => Err(fault),
    }
}

/// Reads a part of a file into `into`, which has place for just its bytes. Nearly always one read
/// gives them all, and what goes on after fewer is out of the way.
#[inline(always)]
pub fn read_short<S: Shelf>(
    alloc: Global,
    shelf: &mut S,
    part: FilePart<'_>,
    into: &mut [u8],
) -> Result<(), ColumnFault>
    requires { length into.old ≡ part.to - part.from }
    ensures { ReadsPart result part.entry.name.now (part.entry.offset + part.entry.from)
        (part.entry.offset + part.entry.to) into.new
        (seen S.Shelf shelf.old) (seen S.Shelf shelf.new) }
{
    if part.to > u64::MAX - part.offset {
        return Err(ColumnFault::from(past_all(alloc, shelf, part.name)));
    }
    let n = match read_once(alloc, shelf, part.name, part.offset + part.from, into) {
        Ok(n) => n,
        Err(fault) => return Err(ColumnFault::from(fault)),
    };
    if n == into.len() {
        return Ok(());
    }
    if n == 0 {
        return Err(ColumnFault::BadId);
    }
    let rest = FilePart {
        name: part.name,
        offset: part.offset,
        from: part.from + n as u64,
        to: part.to,
    };
    match read_part(alloc, shelf, rest, &mut into[n..]) {
        Ok(()) => Ok(()),
        Err(fault) => Err(fault),
    }
}

// Reads bytes of a file from an offset on once, and says how many they are.
#[inline(always)]
fn read_once<S: Shelf>(
    alloc: Global,
    shelf: &mut S,
    name: &str,
    offset: u64,
    into: &mut [u8],
) -> Result<usize, ShelfFault>
    ensures front { IfOk result (λ n. Fills (S.held shelf.old) name.now offset n into.new) }
    ensures bound { IfOk result (λ n. n ≤ length into.old) }
    ensures only_reads { OnlyReads (IsErrOf result ShelfFault.Failed)
        (seen S.Shelf shelf.old) (seen S.Shelf shelf.new) }
    ensures some { IfOk result (λ n. 0 < n →
        LogsOn name.now offset (offset + n) (S.log shelf.old) (S.log shelf.new)) }
    ensures log { LogsUpTo name.now offset (offset + length into.old)
        (S.log shelf.old) (S.log shelf.new) }
    ensures missing { IsErrOf result ShelfFault.Missing → Lacks (S.held shelf.old) name.now }
{
    match shelf.read_at(alloc, name, offset, into) {
        Ok(n) => Ok(n),
        Err(fault) => Err(fault),
    }
}
