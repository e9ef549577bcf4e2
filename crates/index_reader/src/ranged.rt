//! The documents whose ids are within bounds, by a range index.
ghost use Rattle.std.specs.Prelude.{◌≡◌, ◌≤◌, ◌<◌, ℕ, List, All, IfOk, IfSome};
ghost use Rattle.outside.specs.Seen.{seen};
ghost use Rattle.bit_column.specs.Sections.{section};
ghost use Rattle.doc_lists.specs.Sets.{AreThose};
ghost use Rattle.index_reader.specs.Buckets.{LogsBuckets, LogsBucketsPartly, is_sure, is_to_check};
ghost use Rattle.index_reader.specs.Documents.{TellsRanged};
ghost use Rattle.index_reader.specs.Reading.{NoneTells, ReadsSection};

use crate::ListFault;
use crate::buckets::{buckets_of, overlap_of, read_bucket_parts};
use crate::id_bounds::IdBounds;
use crate::list_size::ListSize;
use crate::postings::docs_of_parts;
use doc_lists::DocSet;
use outside::{Place, Shelf};
use std::alloc::Global;

/// The documents whose ids are from `low` to `high` for sure, and those whose ids are to be
/// checked, both ascending, by the section of a range index: a document is sure where all ids of
/// its bucket are within the bounds. Of the section the offsets of the buckets that overlap the
/// bounds are read, in one read, and then the entries of these buckets, in at most three, and
/// nothing else.
pub fn docs_between<S: Shelf>(
    alloc: Global,
    shelf: &mut S,
    place: &Place,
    count: u32,
    rows: u32,
    low: u32,
    high: u32,
) -> Result<(DocSet, DocSet), ListFault>
    requires order { low ≤ high }
    requires below { high < count }
    requires at_most { count ≤ 1048576 }
    requires rows { rows ≤ 1048576 }
    ensures sure { IfOk result (λ docs. IfSome (S.held shelf.old) (λ files. (told : List ℕ) →
        TellsRanged count rows (section files place.now) told →
        AreThose (is_sure count low high told) docs.0)) }
    ensures check { IfOk result (λ docs. IfSome (S.held shelf.old) (λ files. (told : List ℕ) →
        TellsRanged count rows (section files place.now) told →
        AreThose (is_to_check count low high told) docs.1)) }
    ensures within { IfOk result (λ docs.
        All (λ doc. doc < rows) docs.0 × All (λ doc. doc < rows) docs.1) }
    ensures reads { ReadsSection result
        (LogsBuckets (S.held shelf.old) place.now count rows low high)
        (LogsBucketsPartly (S.held shelf.old) place.now count rows low high)
        (NoneTells (TellsRanged count rows) place.now)
        (seen S.Shelf shelf.old) (seen S.Shelf shelf.new) }
{
    let bounds = IdBounds { low, high, count };
    let overlap = overlap_of(bounds);
    let buckets = buckets_of(bounds);
    let size = ListSize {
        count: buckets,
        rows,
    };
    let parts = match read_bucket_parts(alloc, shelf, place, size, overlap) {
        Ok(parts) => parts,
        Err(fault) => return Err(fault),
    };
    let sure = match docs_of_parts(alloc, shelf, place, size, &[parts.sure]) {
        Ok(docs) => docs,
        Err(fault) => return Err(fault),
    };
    let outer = [parts.before, parts.after];
    let check = match docs_of_parts(alloc, shelf, place, size, &outer) {
        Ok(docs) => docs,
        Err(fault) => return Err(fault),
    };
    Ok((sure, check))
}
