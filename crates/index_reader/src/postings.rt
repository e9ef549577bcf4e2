//! The documents of keys in postings: the offsets of the keys are read, and then their entries.
ghost use Rattle.std.specs.Prelude.{◌≡◌, ◌≤◌, ◌<◌, ◌+◌, ◌*◌, ℕ, List, All, IfOk, IfSome, length, map};
ghost use Rattle.outside.specs.Reads.{LogsOn, LogsUpTo};
ghost use Rattle.outside.specs.Seen.{seen};
ghost use Rattle.bit_column.specs.Sections.{section};
ghost use Rattle.doc_lists.specs.Docs.{Apart, has_doc};
ghost use Rattle.index_reader.specs.Entries.{ArePartsOf, Rising, TellsPostings, entries_at, entries_in, entries_of, offsets_of};
ghost use Rattle.index_reader.specs.Reading.{FindsDocs, NoneTells, ReadsSection};
ghost use Rattle.outside.specs.Stretches.{LogsOver, LogsPartly};

use crate::ListFault;
use crate::ends::{Ends, read_ends};
use crate::list_size::ListSize;
use crate::marks::docs_of_entries;
use crate::word_reading::read_words;
use doc_lists::{DocSet, Run};
use outside::{Place, Shelf};
use std::alloc::Global;

/// Where the entries of runs of keys begin and end. Of each run the offsets of its keys are read,
/// in one read, and nothing else.
pub fn read_parts<S: Shelf>(
    alloc: Global,
    shelf: &mut S,
    place: &Place,
    size: ListSize,
    runs: &[Run],
) -> Result<Vec<Ends>, ListFault>
    requires apart { Apart 0 runs.now }
    requires within { All (λ run. run.last < size.count) runs.now }
    ensures parts { IfOk result (λ parts.
        ArePartsOf (S.held shelf.old) place.now size.count size.rows runs.now parts.items) }
    ensures rising { IfOk result (λ parts. Rising 0 size.rows parts.items) }
    ensures number { IfOk result (λ parts. length parts.items ≡ length runs.now) }
    ensures reads { ReadsSection result
        (LogsOver place.now.file (map (offsets_of place.now.offset) runs.now))
        (LogsPartly place.now.file (map (offsets_of place.now.offset) runs.now))
        (NoneTells (TellsPostings size.count size.rows) place.now)
        (seen S.Shelf shelf.old) (seen S.Shelf shelf.new) }
{
    let mut parts = match Vec::with_capacity(alloc, runs.len()) {
        Ok(parts) => parts,
        Err(_) => return Err(ListFault::NoMemory),
    };
    let mut end = 0;
    for run in runs {
        let part = match read_ends(alloc, shelf, place, size.rows + 1, run.first, run.last + 2) {
            Ok(part) => part,
            Err(fault) => return Err(fault),
        };
        if part.first < end || part.last < part.first {
            return Err(ListFault::BadList);
        }
        match parts.push(part) {
            Ok(()) => end = part.last,
            Err(_) => return Err(ListFault::NoMemory),
        }
    }
    Ok(parts)
}

/// The documents that are the entries of parts, ascending. Each part is read in one read, and
/// nothing else.
pub fn docs_of_parts<S: Shelf>(
    alloc: Global,
    shelf: &mut S,
    place: &Place,
    size: ListSize,
    parts: &[Ends],
) -> Result<DocSet, ListFault>
    requires rising { Rising 0 size.rows parts.now }
    ensures found { FindsDocs result (TellsPostings size.count size.rows)
        (λ keys. has_doc (entries_in size.count keys parts.now)) place.now size.rows
        (S.held shelf.old) }
    ensures reads { ReadsSection result
        (LogsOver place.now.file (map (entries_at place.now.offset size.count) parts.now))
        (LogsPartly place.now.file (map (entries_at place.now.offset size.count) parts.now))
        (NoneTells (TellsPostings size.count size.rows) place.now)
        (seen S.Shelf shelf.old) (seen S.Shelf shelf.new) }
{
    if let [part] = parts {
        return docs_of_part(alloc, shelf, place, size, *part);
    }
    let entries = match read_entries(alloc, shelf, place, size, parts) {
        Ok(entries) => entries,
        Err(fault) => return Err(fault),
    };
    match docs_of_entries(alloc, size, entries) {
        Ok(docs) => Ok(docs),
        Err(_) => Err(ListFault::NoMemory),
    }
}

// The documents that are the entries of a part, ascending. The part is read in one read, and
// nothing else.
fn docs_of_part<S: Shelf>(
    alloc: Global,
    shelf: &mut S,
    place: &Place,
    size: ListSize,
    part: Ends,
) -> Result<DocSet, ListFault>
    requires order { part.first ≤ part.last }
    requires within { part.last ≤ size.rows }
    ensures found { FindsDocs result (TellsPostings size.count size.rows)
        (λ keys. has_doc (entries_of size.count keys part)) place.now size.rows
        (S.held shelf.old) }
    ensures reads { ReadsSection result
        (LogsOn place.now.file (place.now.offset + 4 * (size.count + 1 + part.first))
        (place.now.offset + 4 * (size.count + 1 + part.last)))
        (LogsUpTo place.now.file (place.now.offset + 4 * (size.count + 1 + part.first))
        (place.now.offset + 4 * (size.count + 1 + part.last)))
        (NoneTells (TellsPostings size.count size.rows) place.now)
        (seen S.Shelf shelf.old) (seen S.Shelf shelf.new) }
{
    let start = size.count + 1;
    let entries = match read_words(
        alloc,
        shelf,
        place,
        size.rows,
        start + part.first,
        start + part.last,
    ) {
        Ok(entries) => entries,
        Err(fault) => return Err(fault),
    };
    match docs_of_entries(alloc, size, entries.into_vec()) {
        Ok(docs) => Ok(docs),
        Err(_) => Err(ListFault::NoMemory),
    }
}

// The entries of parts, one part after the other. Each part is read in one read, and nothing else.
fn read_entries<S: Shelf>(
    alloc: Global,
    shelf: &mut S,
    place: &Place,
    size: ListSize,
    parts: &[Ends],
) -> Result<Vec<u32>, ListFault>
    requires rising { Rising 0 size.rows parts.now }
    ensures entries { IfOk result (λ entries. IfSome (S.held shelf.old) (λ files.
        (keys : List ℕ) → TellsPostings size.count size.rows (section files place.now) keys →
        entries.items ≡ entries_in size.count keys parts.now)) }
    ensures below { IfOk result (λ entries. All (λ doc. doc < size.rows) entries.items) }
    ensures reads { ReadsSection result
        (LogsOver place.now.file (map (entries_at place.now.offset size.count) parts.now))
        (LogsPartly place.now.file (map (entries_at place.now.offset size.count) parts.now))
        (NoneTells (TellsPostings size.count size.rows) place.now)
        (seen S.Shelf shelf.old) (seen S.Shelf shelf.new) }
{
    let mut entries = Vec::new(alloc);
    for part in parts {
        let first = size.count + 1 + part.first;
        let last = size.count + 1 + part.last;
        let words = match read_words(alloc, shelf, place, size.rows, first, last) {
            Ok(words) => words,
            Err(fault) => return Err(fault),
        };
        match entries.extend_from_slice(words.as_slice()) {
            Ok(()) => {}
            Err(_) => return Err(ListFault::NoMemory),
        }
    }
    Ok(entries)
}
