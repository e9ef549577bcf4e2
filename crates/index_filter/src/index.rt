//! The documents that a range index leaves, and those that two indexes leave.

ghost use Rattle.std.specs.Prelude.{◌≡◌, ◌||◌, ℕ, List, IfOk, IfSome};
ghost use Rattle.outside.specs.Seen.{seen};
ghost use Rattle.doc_lists.specs.Docs.{has_doc};
ghost use Rattle.doc_lists.specs.Sets.{AreThose};
ghost use Rattle.segment_file.specs.declared.part.Part.TheVariants.{Range};
ghost use Rattle.index_filter.specs.Calls.{HasReady, ReadsIndexes};
ghost use Rattle.index_filter.specs.Faults.{list_fault};
ghost use Rattle.index_filter.specs.Indexes.{AddsUnsure, AreEndsOf, AreInBoth, IsFoundNear, IsRanged, LogsRange, LogsRangePartly, TellsBuckets};

use doc_lists::{DocSet, join};
use index_reader::{ListFault, docs_between};
use outside::Shelf;
use segment_file::Part;
use segment_head::{EngineFault, Head};
use segment_plan::IndexChoice;
use std::alloc::Global;
use table_schema::Conjunct;
use value_ids::IdSet;
use values::{NoMemory, Test};

/// The documents in the buckets that overlap the ids of the values that satisfy a test, by the
/// range index of a column: those that are sure, and those whose ids are to be checked. The latter
/// are added to others. Of the section what it has of these buckets is read, and nothing else.
pub(crate) fn docs_by_range<S: Shelf>(
    alloc: Global,
    shelf: &mut S,
    head: &Head,
    column: u16,
    test: &Test,
    unsure: &mut DocSet,
) -> Result<Option<DocSet>, EngineFault>
    requires { HasReady head.now (IsRanged head.now column test.now) }
    ensures docs { IfOk result (IsFoundNear (S.held shelf.old) head.now column test.now) }
    ensures unsure { IfOk result (λ _. AddsUnsure (S.held shelf.old) head.now IndexChoice.Range
        (Conjunct.One column test.now) unsure.old unsure.new) }
    ensures reads { ReadsIndexes result (λ part. (part ≡ Range column)
        × IfSome (S.held shelf.old) (λ files. (ids : List ℕ) →
        TellsBuckets files head.now column ids → ⊥))
        (LogsRange (S.held shelf.old) head.now column test.now)
        (LogsRangePartly (S.held shelf.old) head.now column test.now)
        (seen S.Shelf shelf.old) (seen S.Shelf shelf.new) }
{
    let dictionary = head.dictionary(column);
    let ids = match dictionary.ids_matching(alloc, test) {
        Ok(ids) => ids,
        Err(_) => return Err(EngineFault::NoMemory),
    };
    let Some((low, high)) = ends(&ids) else {
        unreachable!();
    };
    let Some(place) = head.place(Part::Range(column)) else {
        unreachable!();
    };
    let count = dictionary.count();
    let (sure, check) = match docs_between(alloc, shelf, place, count, head.rows(), low, high) {
        Ok(docs) => docs,
        Err(fault) => return Err(of_list(fault, Part::Range(column))),
    };
    match add_near(alloc, &sure, &check, unsure) {
        Ok(docs) => Ok(Some(docs)),
        Err(_) => Err(EngineFault::NoMemory),
    }
}

// The documents that are sure and those to be checked, of which the latter are added to others.
fn add_near(
    alloc: Global,
    sure: &DocSet,
    check: &DocSet,
    unsure: &mut DocSet,
) -> Result<DocSet, NoMemory>
    ensures docs { IfOk result (AreThose (λ doc. has_doc sure.now doc || has_doc check.now doc)) }
    ensures unsure { IfOk result (λ _. AreThose
        (λ doc. has_doc unsure.old doc || has_doc check.now doc) unsure.new) }
{
    *unsure = join(alloc, unsure, check)?;
    join(alloc, sure, check)
}

// The first and the last of some ids, if there are any.
fn ends(ids: &IdSet) -> Option<(u32, u32)>
    ensures { AreEndsOf ids.now result }
{
    let ids = ids.as_slice();
    match ids {
        [] => None,
        [first, ..] => Some((*first, ids[ids.len() - 1])),
    }
}

/// What the fault of an index is for a scan, by its section.
pub(crate) fn of_list(fault: ListFault, part: Part) -> EngineFault
    ensures { result ≡ list_fault fault part }
{
    match fault {
        ListFault::ReadFault => EngineFault::ReadFault,
        ListFault::BadList => EngineFault::NotASegment(part),
        ListFault::NoMemory => EngineFault::NoMemory,
    }
}

/// The documents that are in both lists, or in the one that is there.
pub(crate) fn in_both(
    alloc: Global,
    first: Option<DocSet>,
    second: Option<DocSet>,
) -> Result<Option<DocSet>, NoMemory>
    ensures { IfOk result (AreInBoth first second) }
{
    match (first, second) {
        (None, second) => Ok(second),
        (Some(first), None) => Ok(Some(first)),
        (Some(first), Some(second)) => Ok(Some(doc_lists::meet(alloc, &first, &second)?)),
    }
}
