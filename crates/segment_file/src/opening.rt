//! The front of a segment's file and the rest of its head are read.
ghost use Rattle.std.specs.Prelude.{◌≡◌, ◌++◌, IfOk, IfErr, IfSome, OnErr, IsErrOf, None, Some, take};
ghost use Rattle.outside.specs.Files.{bytes_of};
ghost use Rattle.outside.specs.Reads.{LogsThrough, LogsUpTo};
ghost use Rattle.outside.specs.Seen.{OnlyReads, seen};
ghost use Rattle.table_schema.specs.ValidTable.{IsValidTable};
ghost use Rattle.segment_file.specs.Front as spec;
ghost use Rattle.segment_file.specs.Front.{front_size, head_end};
ghost use Rattle.segment_file.specs.Names.{IsSegmentName};
ghost use Rattle.segment_file.specs.Parts.{sections_of};
ghost use Rattle.segment_file.specs.Reading.{IsFrontOf, IsHeadCut};
ghost use Rattle.segment_file.specs.Rules.{HasFront};
ghost use Rattle.segment_file.specs.declared.fault.HeadFault.TheVariants.{NotASegment};
ghost use Rattle.segment_file.specs.declared.part.Part.{Part};
ghost use Rattle.segment_file.specs.declared.part.Part.TheVariants as part;

use crate::reading::file_length;
use crate::{Front, HeadFault, NoMemory, Part, front_size, read_exactly};
use outside::Shelf;
use std::alloc::Global;
use table_schema::Table;

/// The front of a file, and its bytes.
#[derive(Drop)]
pub struct FrontRead {
    pub front: Front,
    pub bytes: Vec<u8>,
}

/// The front of a file.
pub fn read_front<S: Shelf>(
    alloc: Global,
    shelf: &mut S,
    file: &str,
    name: &str,
    table: &Table,
    parts: &[Part],
) -> Result<FrontRead, HeadFault>
    requires valid { IsValidTable table.now }
    requires name { IsSegmentName name.now }
    requires parts { parts.now ≡ sections_of table.now }
    ensures front { IfOk result (λ read.
        IsFrontOf table.now name.now file.now (S.held shelf.old) read.bytes.items read.front) }
    ensures refused { IfErr result (λ fault. (p : Part) → fault ≡ NotASegment p →
        (p ≡ part.Head) × IfSome (S.held shelf.old) (λ files. (front : spec.Front) →
        ¬ HasFront table.now name.now (bytes_of (Some files) file.now) front)) }
    ensures only_reads { OnlyReads (IsErrOf result HeadFault.ReadFault)
        (seen S.Shelf shelf.old) (seen S.Shelf shelf.new) }
    ensures log { IfOk result (λ read. LogsThrough file.now 0 (front_size table.now name.now)
        (S.log shelf.old) (S.log shelf.new)) }
    ensures log_of_fault { OnErr result (LogsUpTo file.now 0 (front_size table.now name.now)
        (S.log shelf.old) (S.log shelf.new)) }
{
    let size = match file_length(alloc, shelf, file) {
        Ok(size) => size,
        Err(fault) => return Err(fault),
    };
    let start = front_size(name, parts) as u64;
    let bytes = match read_exactly(alloc, shelf, file, 0, start) {
        Ok(bytes) => bytes.into_vec(),
        Err(fault) => return Err(fault),
    };
    match Front::read(alloc, table, name, parts, &bytes, size)? {
        Some(front) => Ok(FrontRead { front, bytes }),
        None => Err(HeadFault::NotASegment(Part::Head)),
    }
}

/// The bytes of a file with this front up to the end of its head.
pub fn read_rest<S: Shelf>(
    alloc: Global,
    shelf: &mut S,
    file: &str,
    name: &str,
    table: &Table,
    read: &FrontRead,
) -> Result<Vec<u8>, HeadFault>
    requires front { IsFrontOf table.now name.now file.now (S.held shelf.old)
        read.now.bytes.items read.now.front }
    ensures bytes { IfOk result (λ bytes. IfSome (S.held shelf.old) (λ files.
        bytes.items ≡ take (head_end table.now name.now read.now.front)
        (bytes_of (Some files) file.now))) }
    ensures cut { IfOk result (λ bytes.
        IsHeadCut table.now name.now read.now.front bytes.items) }
    ensures refused { IfErr result (λ fault. (p : Part) → fault ≡ NotASegment p →
        S.held shelf.old ≡ None) }
    ensures only_reads { OnlyReads (IsErrOf result HeadFault.ReadFault)
        (seen S.Shelf shelf.old) (seen S.Shelf shelf.new) }
    ensures log { LogsUpTo file.now (front_size table.now name.now)
        (head_end table.now name.now read.now.front) (S.log shelf.old) (S.log shelf.new) }
{
    let start = read.bytes.len() as u64;
    let rest = read.front.head_size(table);
    let more = match read_exactly(alloc, shelf, file, start, rest) {
        Ok(more) => more,
        Err(fault) => return Err(fault),
    };
    Ok(joined(alloc, &read.bytes, more.as_slice())?)
}

// The bytes of the one, and then of the other.
fn joined(alloc: Global, first: &[u8], second: &[u8]) -> Result<Vec<u8>, NoMemory>
    ensures { IfOk result (λ bytes. bytes.items ≡ first.now ++ second.now) }
{
    let mut bytes = Vec::with_capacity(alloc, first.len() + second.len())?;
    bytes.extend_from_slice(first)?;
    bytes.extend_from_slice(second)?;
    Ok(bytes)
}
