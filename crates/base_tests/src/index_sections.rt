//! Sections of indexes worked by hand, and the documents that are read from them.

ghost use Rattle.std.specs.Prelude.{◌≡◌, ◌<◌, [], ◌∷◌, All, IfOk};

use crate::expect::Expectations;
use crate::fixtures::{name, shelf_of};
use doc_lists::{DocList, DocSet};
use index_reader::{ListFault, ListKind, docs_between, docs_of_ids};
use memory_devices::MemoryShelf;
use outside::{NoMemory, Place};
use std::alloc::Global;
use value_ids::IdSet;

// How many ids the column of the range index has, and how many rows.
const COUNT: u32 = 20;

const ROWS: u32 = 6;

// The rows have the ids 3, 17, 15, 16, 0 and 19: where the entries of both buckets begin and end,
// and then the rows of the first bucket and those of the second.
const RANGED: &[u32] = &[0, 3, 6, 0, 2, 4, 1, 3, 5];

// The same with more entries in the first bucket than there are.
const TOO_MANY: &[u32] = &[0, 7, 6, 0, 2, 4, 1, 3, 5];

// Bounds on ids, the rows that are within them for sure, and those to be checked.
type Between = (u32, u32, &'static [u32], &'static [u32]);

const BETWEEN: &[Between] = &[
    (0, 15, &[0, 2, 4], &[]),
    (16, 19, &[1, 3, 5], &[]),
    (16, 18, &[], &[1, 3, 5]),
    (0, 19, &[0, 1, 2, 3, 4, 5], &[]),
    (0, 17, &[0, 2, 4], &[1, 3, 5]),
    (1, 19, &[1, 3, 5], &[0, 2, 4]),
    (3, 16, &[], &[0, 1, 2, 3, 4, 5]),
    (5, 7, &[], &[0, 2, 4]),
];

// The rows have the ids 0, 0, 1, 1, 1 and 3 of four: the first row of each id, and the one after
// its last.
const SORTED: &[u32] = &[0, 2, 2, 5, 5, 5, 5, 6];

// The rows have the ids 2, 0, 1, 0, 2 and 3 of four: where the entries of each id begin and end,
// and then the rows of each.
const INVERTED: &[u32] = &[0, 2, 3, 5, 6, 1, 3, 2, 0, 4, 5];

// Two ids, and the rows that have one of them.
type Listed = (u32, u32, &'static [u32]);

const OF_SORTED: &[Listed] = &[
    (0, 1, &[0, 1, 2, 3, 4]),
    (0, 2, &[0, 1]),
    (1, 3, &[2, 3, 4, 5]),
    (2, 3, &[5]),
];

const OF_INVERTED: &[Listed] = &[
    (0, 1, &[1, 2, 3]),
    (0, 2, &[0, 1, 3, 4]),
    (1, 3, &[2, 5]),
    (2, 3, &[0, 4, 5]),
];

// Adds these numbers in four bytes each.
fn push_words(bytes: &mut Vec<u8>, words: &[u32]) -> Result<(), NoMemory> {
    for word in words {
        bytes.extend_from_slice(&word.to_be_bytes())?;
    }
    Ok(())
}

// A shelf with the file of these numbers.
fn shelf(alloc: Global, words: &[u32], failing: &[u64]) -> Result<MemoryShelf, NoMemory> {
    let mut bytes = Vec::new(alloc);
    let _pushed = push_words(&mut bytes, words).is_ok();
    let shelf = shelf_of(alloc, bytes.as_slice(), failing);
    drop(bytes);
    shelf
}

// The section that is a file of so many numbers.
fn place(alloc: Global, file: &str, words: usize) -> Place {
    Place {
        file: name(alloc, file),
        offset: 0,
        length: (words as u64).saturating_mul(4),
    }
}

// Whether a list has just these documents.
fn is_list(docs: &DocList, wanted: &[u32]) -> bool {
    for (index, doc) in wanted.iter().enumerate() {
        if index >= docs.len() || docs.at(index) != *doc {
            return false;
        }
    }
    docs.len() == wanted.len()
}

// Whether a set has just these documents.
fn is_set(alloc: Global, docs: DocSet, wanted: &[u32]) -> bool {
    let Ok(list) = docs.into_list(alloc) else {
        return false;
    };
    let is_so = is_list(&list, wanted);
    drop(list);
    is_so
}

fn reads_between(alloc: Global, shelf: &mut MemoryShelf, row: &Between) -> bool {
    let (low, high, sure, check) = *row;
    if low > high || high >= COUNT {
        return false;
    }
    let place = place(alloc, "f", RANGED.len());
    let found = docs_between(alloc, shelf, &place, COUNT, ROWS, low, high);
    drop(place);
    are_sets(alloc, found, sure, check)
}

// Whether these are the documents that are found for sure, and those to be checked.
fn are_sets(
    alloc: Global,
    found: Result<(DocSet, DocSet), ListFault>,
    sure: &[u32],
    check: &[u32],
) -> bool {
    let Ok((found_sure, found_check)) = found else {
        return false;
    };
    let is_sure = is_set(alloc, found_sure, sure);
    let is_check = is_set(alloc, found_check, check);
    is_sure && is_check
}

fn expect_between(alloc: Global, shelf: &mut MemoryShelf, all: &Expectations) {
    for row in BETWEEN {
        let is_found = reads_between(alloc, shelf, row);
        all.expect(is_found, "the rows of ids within bounds");
    }
}

// Why the rows of the ids from 3 to 16 are not found in a section.
fn refusal_over(alloc: Global, shelf: &mut MemoryShelf, place: &Place) -> Option<ListFault> {
    docs_between(alloc, shelf, place, COUNT, ROWS, 3, 16).err()
}

// The same of the section that is a file of these numbers, some of whose calls fail.
fn refusal(alloc: Global, file: &str, words: &[u32], failing: &[u64]) -> Option<ListFault> {
    let Ok(mut shelf) = shelf(alloc, words, failing) else {
        return None;
    };
    let place = place(alloc, file, words.len());
    let refused = refusal_over(alloc, &mut shelf, &place);
    drop(place);
    drop(shelf);
    refused
}

fn expect_refusals(alloc: Global, all: &Expectations) {
    let refused = refusal(alloc, "f", RANGED, &[0]);
    all.equal(refused, Some(ListFault::ReadFault), "call 0 fails");
    let refused = refusal(alloc, "g", RANGED, &[]);
    all.equal(refused, Some(ListFault::BadList), "no file");
    let refused = refusal(alloc, "f", TOO_MANY, &[]);
    all.equal(refused, Some(ListFault::BadList), "too many entries");
}

/// The rows whose ids are within bounds, by a range index.
pub fn range_indexes(alloc: Global, all: &Expectations) {
    if let Ok(mut shelf) = shelf(alloc, RANGED, &[]) {
        expect_between(alloc, &mut shelf, all);
        drop(shelf);
    }
    expect_refusals(alloc, all);
    all.end("range indexes");
}

// A set of two ids.
fn set_of(alloc: Global, first: u32, second: u32) -> Result<IdSet, NoMemory>
    requires { first < second }
    ensures { IfOk result (λ set. set ≡ first ∷ second ∷ []) }
{
    let mut set = IdSet::new(alloc);
    set.push(first)?;
    set.push(second)?;
    Ok(set)
}

// Whether the rows of a set of ids in a section of a kind are these.
fn reads_set(
    alloc: Global,
    section: (ListKind, &Place),
    shelf: &mut MemoryShelf,
    set: &IdSet,
    wanted: &[u32],
) -> bool
    requires { All (λ id. id < 4) set.now }
{
    let (kind, place) = section;
    let found = docs_of_ids(alloc, shelf, place, kind, 4, ROWS, set);
    match found {
        Ok(docs) => is_set(alloc, docs, wanted),
        Err(_) => false,
    }
}

// The same of two ids.
fn reads_ids(
    alloc: Global,
    section: (ListKind, &Place),
    shelf: &mut MemoryShelf,
    row: &Listed,
) -> bool {
    let (first, second, wanted) = *row;
    if first >= second || second >= 4 {
        return false;
    }
    let Ok(set) = set_of(alloc, first, second) else {
        return false;
    };
    let is_found = reads_set(alloc, section, shelf, &set, wanted);
    drop(set);
    is_found
}

fn expect_rows(
    alloc: Global,
    section: (ListKind, &Place),
    shelf: &mut MemoryShelf,
    rows: &[Listed],
    all: &Expectations,
) {
    for row in rows {
        let is_found = reads_ids(alloc, section, shelf, row);
        all.expect(is_found, "the rows of ids");
    }
}

// The rows of ids in a section of a kind that is a file of these numbers.
fn expect_section(
    alloc: Global,
    kind: ListKind,
    words: &[u32],
    rows: &[Listed],
    all: &Expectations,
) {
    let place = place(alloc, "f", words.len());
    if let Ok(mut shelf) = shelf(alloc, words, &[]) {
        expect_rows(alloc, (kind, &place), &mut shelf, rows, all);
        drop(shelf);
    }
    drop(place);
}

/// The rows of ids, by the section of a sorted column and by an inverted index.
pub fn lists_of_rows(alloc: Global, all: &Expectations) {
    expect_section(alloc, ListKind::Sorted, SORTED, OF_SORTED, all);
    expect_section(alloc, ListKind::Inverted, INVERTED, OF_INVERTED, all);
    all.end("lists of rows");
}
