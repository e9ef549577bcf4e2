//! The documents of ids in an inverted index.
ghost use Rattle.std.specs.Prelude.{◌<◌, All};
ghost use Rattle.outside.specs.Seen.{seen};
ghost use Rattle.index_reader.specs.Documents.{TellsInverted, is_doc_of};
ghost use Rattle.index_reader.specs.Entries.{LogsPostings, LogsPostingsPartly};
ghost use Rattle.index_reader.specs.Reading.{FindsDocs, NoneTells, ReadsSection};

use crate::ListFault;
use crate::list_size::ListSize;
use crate::postings::{docs_of_parts, read_parts};
use crate::runs::runs_of;
use doc_lists::DocSet;
use outside::{Place, Shelf};
use std::alloc::Global;
use value_ids::IdSet;

/// The documents whose ids are in a set, ascending, by the section of an inverted index. Of the
/// section the offsets of these ids are read, and then their entries, both in one read a run of ids
/// that follow one another, and nothing else.
pub fn inverted_docs<S: Shelf>(
    alloc: Global,
    shelf: &mut S,
    place: &Place,
    size: ListSize,
    ids: &IdSet,
) -> Result<DocSet, ListFault>
    requires below { All (λ id. id < size.count) ids.now }
    ensures found { FindsDocs result (TellsInverted size.count size.rows) (is_doc_of ids.now)
        place.now size.rows (S.held shelf.old) }
    ensures reads { ReadsSection result
        (LogsPostings ids.now (S.held shelf.old) place.now size.count size.rows)
        (LogsPostingsPartly ids.now (S.held shelf.old) place.now size.count size.rows)
        (NoneTells (TellsInverted size.count size.rows) place.now)
        (seen S.Shelf shelf.old) (seen S.Shelf shelf.new) }
{
    let list = match runs_of(alloc, ids) {
        Ok(list) => list,
        Err(_) => return Err(ListFault::NoMemory),
    };
    let parts = match read_parts(alloc, shelf, place, size, list.runs()) {
        Ok(parts) => parts,
        Err(fault) => return Err(fault),
    };
    docs_of_parts(alloc, shelf, place, size, &parts)
}
