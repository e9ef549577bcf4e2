//! A file is compared with the image of rows.
ghost use Rattle.std.specs.Prelude.{◌≡◌, ◌<◌, ℕ, ◌+◌, ◌^◌, IfErr, IfOk, IsErrOf, MatchOption, length, sum, take};
ghost use Rattle.outside.specs.Seen.{OnlyReads, seen};
ghost use Rattle.values.specs.Columns.{rows_of};
ghost use Rattle.segment_file.specs.declared.fault.HeadFault.TheVariants.{NotASegment};
ghost use Rattle.segment_file.specs.declared.part.Part.{Part};
ghost use Rattle.segment_file.specs.Front.{extents_from};
ghost use Rattle.segment_build.specs.Coded.{columns_in};
ghost use Rattle.segment_build.specs.Compared.{DifferAt};
ghost use Rattle.segment_build.specs.FileReads.{LogsFile, LogsOnce};
ghost use Rattle.segment_build.specs.Made.{file_bytes};
ghost use Rattle.segment_check.specs.Calls.{OfBytes};
ghost use Rattle.segment_check.specs.Checked as spec;
ghost use Rattle.segment_check.specs.Codes.{MayCompare};
ghost use Rattle.segment_check.specs.Reading.{ComparesImage};

use crate::head::FileHead;
use outside::Shelf;
use segment_build::{BuildFault, CodedColumns, CompareFault, Comparing, MadeFile, make_of_codes};
use segment_file::{HeadFault, Part, front_size};
use std::alloc::Global;
use table_schema::Table;

/// Compares a file with this front with the image of the rows of coded columns, of which it is to
/// have the bytes from the first on. The columns are let go before the trees are built.
pub(crate) fn compare<S: Shelf>(
    alloc: Global,
    shelf: &mut S,
    file: &str,
    name: &str,
    table: &Table,
    read: &FileHead,
    coded: CodedColumns<'_>,
) -> Result<(), HeadFault>
    requires { MayCompare table.now name.now read.now coded }
    ensures { ComparesImage table.now name.now file.now read.now.front
        (rows_of (columns_in coded.entry)) (seen S.Shelf shelf.old) (seen S.Shelf shelf.new)
        result }
{
    let made = match make_of_codes(alloc, table, name, coded) {
        Ok(made) => made,
        Err(BuildFault::TooLarge(tree)) => return Err(HeadFault::NotASegment(Part::Nodes(tree))),
        Err(BuildFault::NoMemory) => return Err(HeadFault::NoMemory),
        Err(BuildFault::WriteFault) => unreachable!(),
    };
    match first_difference(alloc, shelf, file, made) {
        Ok(None) => Ok(()),
        Ok(Some(at)) => {
            let start = front_size(name, &read.parts) as u64;
            let part = part_at(&read.parts, read.front.sizes(), start, at);
            Err(HeadFault::NotASegment(part))
        }
        Err(fault) => Err(fault),
    }
}

// The place of the first byte of a file that is another than in the one that was made, if some is.
fn first_difference<S: Shelf>(
    alloc: Global,
    shelf: &mut S,
    file: &str,
    made: MadeFile,
) -> Result<Option<u64>, HeadFault>
    requires { length (file_bytes made) < 2 ^ 64 }
    ensures place { IfOk result (λ place. OfBytes (S.held shelf.old) file.now (λ bytes.
        MatchOption place
        (take (length (file_bytes made)) bytes ≡ file_bytes made)
        (DifferAt (file_bytes made) bytes))) }
    ensures never { IfErr result (λ fault. (p : Part) → ¬ (fault ≡ NotASegment p)) }
    ensures only_reads { OnlyReads (IsErrOf result HeadFault.ReadFault)
        (seen S.Shelf shelf.old) (seen S.Shelf shelf.new) }
    ensures log { LogsFile file.now (S.log shelf.old) (S.log shelf.new) }
    ensures once { (to : ℕ) × LogsOnce file.now 0 to (S.log shelf.old) (S.log shelf.new) }
{
    let mut comparing = Comparing::with_file(alloc, file)?;
    match made.give(alloc, &mut comparing, shelf) {
        Ok(()) => Ok(None),
        Err(CompareFault::Differs) => Ok(Some(comparing.at())),
        Err(CompareFault::Failed) => Err(HeadFault::ReadFault),
        Err(CompareFault::NoMemory) => Err(HeadFault::NoMemory),
    }
}

// The section that a byte is in, of those that begin at a place, and the head for one before them.
fn part_at(parts: &[Part], sizes: &[u64], start: u64, at: u64) -> Part
    requires each { length sizes.now ≡ length parts.now }
    requires short { start + sum sizes.now < 2 ^ 64 }
    ensures { result ≡ spec.part_at (extents_from start parts.now sizes.now) at }
{
    let mut offset = start;
    'parts: for number in 0..parts.len() {
        let end = offset + sizes[number];
        if offset <= at && at < end {
            return parts[number];
        }
        offset = end;
    }
    Part::Head
}
