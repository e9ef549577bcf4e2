//! The documents of ids in a sorted column.
ghost use Rattle.std.specs.Prelude.{◌≡◌, ◌≤◌, ◌<◌, ℕ, List, All, IfOk, IfSome, map};
ghost use Rattle.outside.specs.Seen.{seen};
ghost use Rattle.bit_column.specs.Sections.{section};
ghost use Rattle.doc_lists.specs.Docs.{Apart};
ghost use Rattle.index_reader.specs.Documents.{TellsSorted, is_doc_of};
ghost use Rattle.index_reader.specs.Reading.{FindsDocs, NoneTells, ReadsSection};
ghost use Rattle.index_reader.specs.Runs.{LogsSorted, LogsSortedPartly, docs_in, ends_of};
ghost use Rattle.outside.specs.Stretches.{LogsOver, LogsPartly};

use crate::ListFault;
use crate::ends::read_ends;
use crate::list_size::ListSize;
use crate::runs::runs_of;
use doc_lists::{DocList, Run};
use outside::{Place, Shelf};
use std::alloc::Global;
use value_ids::IdSet;

/// The documents whose ids are in a set, ascending, by the section of a sorted column: those of a
/// run of ids that follow one another are one range. Of the section the places of these ids are
/// read, in one read a run, and nothing else.
pub fn sorted_docs<S: Shelf>(
    alloc: Global,
    shelf: &mut S,
    place: &Place,
    size: ListSize,
    ids: &IdSet,
) -> Result<DocList, ListFault>
    requires below { All (λ id. id < size.count) ids.now }
    ensures found { FindsDocs result (TellsSorted size.count size.rows) (is_doc_of ids.now)
        place.now size.rows (S.held shelf.old) }
    ensures reads { ReadsSection result
        (LogsSorted ids.now place.now.file place.now.offset)
        (LogsSortedPartly ids.now place.now.file place.now.offset)
        (NoneTells (TellsSorted size.count size.rows) place.now)
        (seen S.Shelf shelf.old) (seen S.Shelf shelf.new) }
{
    let list = match runs_of(alloc, ids) {
        Ok(list) => list,
        Err(_) => return Err(ListFault::NoMemory),
    };
    docs_of_runs(alloc, shelf, place, size, list.runs())
}

// The documents of runs of ids.
fn docs_of_runs<S: Shelf>(
    alloc: Global,
    shelf: &mut S,
    place: &Place,
    size: ListSize,
    runs: &[Run],
) -> Result<DocList, ListFault>
    requires apart { Apart 0 runs.now }
    requires within { All (λ run. run.last < size.count) runs.now }
    ensures docs { IfOk result (λ docs. IfSome (S.held shelf.old) (λ files. (told : List ℕ) →
        TellsSorted size.count size.rows (section files place.now) told
        → docs ≡ docs_in told runs.now)) }
    ensures below { IfOk result (λ docs. All (λ doc. doc < size.rows) docs) }
    ensures reads { ReadsSection result
        (LogsOver place.now.file (map (ends_of place.now.offset) runs.now))
        (LogsPartly place.now.file (map (ends_of place.now.offset) runs.now))
        (NoneTells (TellsSorted size.count size.rows) place.now)
        (seen S.Shelf shelf.old) (seen S.Shelf shelf.new) }
{
    let mut docs = DocList::new(alloc);
    let mut end = 0;
    for run in runs {
        let ends = match read_ends(
            alloc,
            shelf,
            place,
            size.rows + 1,
            2 * run.first,
            2 * run.last + 2,
        ) {
            Ok(ends) => ends,
            Err(fault) => return Err(fault),
        };
        if ends.first < end || ends.last < ends.first {
            return Err(ListFault::BadList);
        }
        match docs.push_range(ends.first, ends.last) {
            Ok(()) => end = ends.last,
            Err(_) => return Err(ListFault::NoMemory),
        }
    }
    Ok(docs)
}
