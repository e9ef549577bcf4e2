//! The documents that the indexes of a query's conjuncts leave.

ghost use Rattle.std.specs.Prelude.{◌≡◌, ℕ, List, IfOk, IfSome, length};
ghost use Rattle.outside.specs.Seen.{seen};
ghost use Rattle.index_filter.specs.Calls.{HasReady, ReadsIndexes};
ghost use Rattle.index_filter.specs.Indexes.{AddsUnsure, HasUnsure, IsBadAny, IsBadIndex, IsFoundBy, IsIndexed, IsReady, Leaves, LeavesBy, LogsAt, LogsAtPartly, LogsIndex, LogsIndexPartly, LogsIndexed, LogsIndexedPartly, OfEach, TellsIds, part_of};
ghost use Rattle.outside.specs.Series.{LogsPartOf, LogsTo};
ghost use Rattle.segment_plan.specs.RowsLeft.{indexed};

use crate::index::{docs_by_range, in_both, of_list};
use doc_lists::DocSet;
use index_reader::{ListKind, docs_of_ids};
use outside::Shelf;
use segment_file::Part;
use segment_head::{EngineFault, Head};
use segment_plan::{IndexChoice, choice_at};
use std::alloc::Global;
use table_schema::Conjunct;
use values::Test;

/// The documents that the indexes of conjuncts leave, in ascending order; no list where no conjunct
/// is indexed. Of the section of each index what it has of the matching ids, or of the buckets that
/// overlap them, is read, one conjunct after the other, and nothing else. Those that are not sure
/// are added to others.
pub fn documents<S: Shelf>(
    alloc: Global,
    shelf: &mut S,
    head: &Head,
    conjuncts: &[Conjunct],
    choices: &[IndexChoice],
    unsure: &mut DocSet,
) -> Result<Option<DocSet>, EngineFault>
    requires { HasReady head.now (OfEach (IsReady head.now) choices.now conjuncts.now) }
    ensures docs { IfOk result (Leaves (S.held shelf.old) head.now choices.now conjuncts.now
        (indexed choices.now conjuncts.now)) }
    ensures unsure { IfOk result (λ _. HasUnsure (S.held shelf.old) head.now choices.now
        conjuncts.now (length conjuncts.now) unsure.new) }
    ensures reads { ReadsIndexes result
        (λ part. IsBadAny (S.held shelf.old) head.now part choices.now conjuncts.now)
        (LogsTo (LogsAt (S.held shelf.old) head.now choices.now conjuncts.now)
        (length conjuncts.now))
        (LogsPartOf (LogsAt (S.held shelf.old) head.now choices.now conjuncts.now)
        (LogsAtPartly (S.held shelf.old) head.now choices.now conjuncts.now)
        (length conjuncts.now))
        (seen S.Shelf shelf.old) (seen S.Shelf shelf.new) }
{
    let mut docs: Option<DocSet> = None;
    for at in 0..conjuncts.len() {
        let choice = choice_at(choices, at);
        let more = match docs_by(alloc, shelf, head, choice, &conjuncts[at], unsure) {
            Ok(more) => more,
            Err(fault) => return Err(fault),
        };
        docs = match in_both(alloc, docs, more) {
            Ok(docs) => docs,
            Err(_) => return Err(EngineFault::NoMemory),
        };
    }
    Ok(docs)
}

// The documents that a conjunct leaves by its index, if it is indexed.
fn docs_by<S: Shelf>(
    alloc: Global,
    shelf: &mut S,
    head: &Head,
    choice: IndexChoice,
    conjunct: &Conjunct,
    unsure: &mut DocSet,
) -> Result<Option<DocSet>, EngineFault>
    requires { HasReady head.now (IsReady head.now choice conjunct.now) }
    ensures docs { IfOk result (LeavesBy (S.held shelf.old) head.now choice conjunct.now) }
    ensures unsure { IfOk result (λ _. AddsUnsure (S.held shelf.old) head.now choice conjunct.now
        unsure.old unsure.new) }
    ensures reads { ReadsIndexes result
        (λ part. IsBadIndex (S.held shelf.old) head.now part choice conjunct.now)
        (LogsIndexed (S.held shelf.old) head.now choice conjunct.now)
        (LogsIndexedPartly (S.held shelf.old) head.now choice conjunct.now)
        (seen S.Shelf shelf.old) (seen S.Shelf shelf.new) }
{
    match (choice, conjunct) {
        (IndexChoice::Sorted, Conjunct::One(column, test)) => {
            indexed(alloc, shelf, head, ListKind::Sorted, *column, test)
        }
        (IndexChoice::Inverted, Conjunct::One(column, test)) => {
            indexed(alloc, shelf, head, ListKind::Inverted, *column, test)
        }
        (IndexChoice::Range, Conjunct::One(column, test)) => {
            docs_by_range(alloc, shelf, head, *column, test, unsure)
        }
        (_, _) => Ok(None),
    }
}

// The documents whose values in a column satisfy a test, by the section of a kind.
fn indexed<S: Shelf>(
    alloc: Global,
    shelf: &mut S,
    head: &Head,
    kind: ListKind,
    column: u16,
    test: &Test,
) -> Result<Option<DocSet>, EngineFault>
    requires { HasReady head.now (IsIndexed head.now kind column) }
    ensures docs { IfOk result (IsFoundBy (S.held shelf.old) head.now kind column test.now) }
    ensures reads { ReadsIndexes result (λ part. (part ≡ part_of kind column)
        × IfSome (S.held shelf.old) (λ files. (ids : List ℕ) →
        TellsIds files head.now kind column ids → ⊥))
        (LogsIndex (S.held shelf.old) head.now kind column test.now)
        (LogsIndexPartly (S.held shelf.old) head.now kind column test.now)
        (seen S.Shelf shelf.old) (seen S.Shelf shelf.new) }
{
    let dictionary = head.dictionary(column);
    let ids = match dictionary.ids_matching(alloc, test) {
        Ok(ids) => ids,
        Err(_) => return Err(EngineFault::NoMemory),
    };
    let Some(place) = head.place(part_of(kind, column)) else {
        unreachable!();
    };
    match docs_of_ids(
        alloc,
        shelf,
        place,
        kind,
        dictionary.count(),
        head.rows(),
        &ids,
    ) {
        Ok(docs) => Ok(Some(docs)),
        Err(fault) => Err(of_list(fault, part_of(kind, column))),
    }
}

// The section of a column of a kind.
fn part_of(kind: ListKind, column: u16) -> Part
    ensures { result ≡ part_of kind column }
{
    match kind {
        ListKind::Sorted => Part::Sorted(column),
        ListKind::Inverted => Part::Inverted(column),
    }
}
