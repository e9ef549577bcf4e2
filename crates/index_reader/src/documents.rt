//! The documents of ids.
ghost use Rattle.std.specs.Prelude.{◌≡◌, ◌≤◌, ◌<◌, ℕ, List, All, IfOk, IfSome};
ghost use Rattle.outside.specs.Seen.{seen};
ghost use Rattle.bit_column.specs.Sections.{section};
ghost use Rattle.doc_lists.specs.Sets.{AreThose};
ghost use Rattle.index_reader.specs.Documents.{Tells, is_doc_of};
ghost use Rattle.index_reader.specs.Logs.{LogsIds, LogsIdsPartly};
ghost use Rattle.index_reader.specs.Reading.{NoneTells, ReadsSection};

use crate::inverted::inverted_docs;
use crate::list_size::ListSize;
use crate::sorted::sorted_docs;
use crate::{ListFault, ListKind};
use doc_lists::DocSet;
use outside::{Place, Shelf};
use std::alloc::Global;
use value_ids::IdSet;

/// The documents whose ids are in a set, ascending, by the section of a sorted column or of an
/// inverted index. Of the section what it has of these ids is read, each byte once, and nothing
/// else: one read for the ids of a run that follow one another, or in an inverted index two.
pub fn docs_of_ids<S: Shelf>(
    alloc: Global,
    shelf: &mut S,
    place: &Place,
    kind: ListKind,
    count: u32,
    rows: u32,
    ids: &IdSet,
) -> Result<DocSet, ListFault>
    requires below { All (λ id. id < count) ids.now }
    requires at_most { count ≤ 1048576 }
    requires rows { rows ≤ 1048576 }
    ensures docs { IfOk result (λ docs. IfSome (S.held shelf.old) (λ files. (told : List ℕ) →
        Tells kind count rows (section files place.now) told →
        AreThose (is_doc_of ids.now told) docs)) }
    ensures within { IfOk result (λ docs. All (λ doc. doc < rows) docs) }
    ensures reads { ReadsSection result
        (LogsIds kind ids.now (S.held shelf.old) place.now count rows)
        (LogsIdsPartly kind ids.now (S.held shelf.old) place.now count rows)
        (NoneTells (Tells kind count rows) place.now)
        (seen S.Shelf shelf.old) (seen S.Shelf shelf.new) }
{
    let size = ListSize { count, rows };
    match kind {
        ListKind::Sorted => match sorted_docs(alloc, shelf, place, size, ids) {
            Ok(list) => Ok(DocSet::of_list(list)),
            Err(fault) => Err(fault),
        },
        ListKind::Inverted => inverted_docs(alloc, shelf, place, size, ids),
    }
}
