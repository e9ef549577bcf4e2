//! The names of the segments of a store.

ghost use Rattle.std.specs.Prelude.{◌≡◌, ◌⊎◌, ◌≤◌, ◌++◌, ℕ, List, take, length, true, false, Ok, IfOk, IfSome, OnErr, OnOk, IsErrOf};
ghost use Rattle.std.specs.List.{All};
ghost use Rattle.std.specs.List.Sorted.{IsPermutation, IsSorted};
ghost use Rattle.outside.specs.Files.{name_order};
ghost use Rattle.outside.specs.Seen.{seen};
ghost use Rattle.segment_file.specs.Names.{IsSegmentName};
ghost use Rattle.table_store.specs.Calls.{ReadsNoByte, TellsPlace};
ghost use Rattle.table_store.specs.Segments.{AreFirstNames, HasSegment, LacksSegment, most_segments, name_in, names_among};

use crate::StoreFault;
use outside::{Depot, Name, NoMemory, Seq, ShelfFault};
use segment_file::{is_segment_name, segment_file_name};
use std::alloc::Global;

/// The most segments of a store.
pub const MOST_SEGMENTS: usize = 512;

/// Whether there is a segment of this name: its file is looked for, and no other.
pub fn holds_segment<D: Depot>(alloc: Global, depot: &mut D, name: &str) -> Result<bool, StoreFault>
    ensures yes { result ≡ Ok true → HasSegment (D.held depot.old) name.now }
    ensures no { result ≡ Ok false → LacksSegment (D.held depot.old) name.now }
    ensures only { OnErr result
        (IsErrOf result StoreFault.ReadFault ⊎ IsErrOf result StoreFault.NoMemory) }
    ensures looks { ReadsNoByte (IsErrOf result StoreFault.ReadFault)
        (seen D.Shelf depot.old) (seen D.Shelf depot.new) }
{
    let file = segment_file_name(alloc, name)?;
    match depot.length(alloc, file.as_str()) {
        Ok(_) => Ok(true),
        Err(ShelfFault::Missing) => Ok(false),
        Err(ShelfFault::Failed) => Err(StoreFault::ReadFault),
        Err(ShelfFault::NoMemory) => Err(StoreFault::NoMemory),
    }
}

/// Whether a segment of this name may be put in: there is none, and there are fewer than the most.
pub fn find_room<D: Depot>(alloc: Global, depot: &mut D, name: &str) -> Result<(), StoreFault>
    ensures place { TellsPlace (D.held depot.old) name.now result }
    ensures only { OnErr result
        (IsErrOf result StoreFault.NameTaken ⊎ IsErrOf result StoreFault.TooManySegments
        ⊎ IsErrOf result StoreFault.ReadFault ⊎ IsErrOf result StoreFault.NoMemory) }
    ensures looks { ReadsNoByte (IsErrOf result StoreFault.ReadFault)
        (seen D.Shelf depot.old) (seen D.Shelf depot.new) }
{
    match holds_segment(alloc, depot, name) {
        Ok(true) => return Err(StoreFault::NameTaken),
        Ok(false) => {}
        Err(fault) => return Err(fault),
    }
    match segment_names(alloc, depot) {
        Ok(names) => {
            if names.len() < MOST_SEGMENTS {
                Ok(())
            } else {
                Err(StoreFault::TooManySegments)
            }
        }
        Err(fault) => Err(fault),
    }
}

/// The names of the segments, ascending; the first of them, where there are more than the most.
/// Other files are passed over.
pub fn segment_names<D: Depot>(alloc: Global, depot: &mut D) -> Result<Seq<Name>, StoreFault>
    ensures names { IfOk result (λ names. IfSome (D.held depot.old) (λ files.
        AreFirstNames files names)) }
    ensures named { IfOk result (λ names. All IsSegmentName names) }
    ensures at_most { IfOk result (λ names. length names ≤ most_segments) }
    ensures only { OnErr result
        (IsErrOf result StoreFault.ReadFault ⊎ IsErrOf result StoreFault.NoMemory) }
    ensures looks { ReadsNoByte (IsErrOf result StoreFault.ReadFault)
        (seen D.Shelf depot.old) (seen D.Shelf depot.new) }
{
    let files = match depot.names(alloc) {
        Ok(files) => files,
        Err(ShelfFault::Missing) => unreachable!(),
        Err(ShelfFault::Failed) => return Err(StoreFault::ReadFault),
        Err(ShelfFault::NoMemory) => return Err(StoreFault::NoMemory),
    };
    Ok(first_names(alloc, &files)?)
}

// The names of the segments that have these files, in their order, and no more than the most.
fn first_names(alloc: Global, files: &Seq<Name>) -> Result<Seq<Name>, NoMemory>
    ensures { IfOk result (λ names. (all : List (List ℕ)) ×
        IsPermutation (names_among files.now) all × IsSorted name_order all
        × (names ≡ take most_segments all)) }
{
    let mut names = names_among(alloc, files)?;
    names.sort_unstable();
    names.truncate(MOST_SEGMENTS);
    Ok(Seq::from_vec(names))
}

// The names of the segments that have these files.
fn names_among(alloc: Global, files: &Seq<Name>) -> Result<Vec<Name>, NoMemory>
    ensures { IfOk result (λ names. names.items ≡ names_among files.now) }
{
    let mut names = Vec::with_capacity(alloc, files.len())?;
    for file in files.as_slice() {
        push_name(alloc, file.as_str(), &mut names)?;
    }
    Ok(names)
}

// Adds the name of the segment whose file has this name, if it is one's.
fn push_name(alloc: Global, file: &str, names: &mut Vec<Name>) -> Result<(), NoMemory>
    ensures { OnOk result (names.new.items ≡ names.old.items ++ name_in file.now) }
{
    let Some(name) = file.strip_suffix(".seg") else {
        return Ok(());
    };
    if !is_segment_name(name) {
        return Ok(());
    }
    names.push(Name::from_text(alloc, name)?)?;
    Ok(())
}
