//! A range of documents is read from a section of a file.

ghost use Rattle.std.specs.Prelude.{◌≡◌, ◌<◌, ◌+◌, ◌-◌, ◌*◌, IfOk, OnErr, IfSome, IsErrOf};
ghost use Rattle.std.specs.Prelude.{length, List};
ghost use Rattle.outside.specs.Reads.{LogsOn, LogsUpTo};
ghost use Rattle.outside.specs.Seen.{OnlyReads, seen};
ghost use Rattle.state_columns.specs.Docs.{Doc};
ghost use Rattle.star_file.specs.Reading.{doc_width, section, IsReadableRange, HasDocuments};
ghost use Rattle.star_table.specs.Tables.{IsOfShape};
ghost use Rattle.star_file.specs.declared.docs_fault.DocsFault.TheVariants as DocsFault;

use crate::doc_reading::{docs_from, width_of};
use crate::docs_fault::DocsFault;
use crate::part::read_part;
use crate::spelled_docs::SpelledDocs;
use agg_laws::TreeShape;
use outside::{Place, Shelf};
use std::alloc::Global;

/// The documents of a section between two numbers, the second left out. It reads their bytes and no
/// others, each once. A range without documents is there in any section, and reads nothing.
pub fn read_docs<'a, S: Shelf>(
    alloc: Global,
    shelf: &mut S,
    place: &Place,
    shape: &'a TreeShape,
    counts: &'a [u32],
    from: u32,
    to: u32,
) -> Result<SpelledDocs<'a>, DocsFault>
    requires { IsReadableRange shape.now counts.now from to }
    ensures docs { IfOk result (λ table. IfSome (S.held shelf.old) (λ files.
        HasDocuments shape.now counts.now from to (section files place.now) table.docs)) }
    ensures number { IfOk result (λ table. length table.docs ≡ to - from) }
    ensures shape { IfOk result (IsOfShape shape.now.dims shape.now.kinds) }
    ensures only_reads { OnlyReads (IsErrOf result DocsFault.ReadFault)
        (seen S.Shelf shelf.old) (seen S.Shelf shelf.new) }
    ensures log { IfOk result (λ table. LogsOn place.now.file
        (place.now.offset + from * doc_width shape.now)
        (place.now.offset + to * doc_width shape.now) (S.log shelf.old) (S.log shelf.new)) }
    ensures log_of_fault { OnErr result (LogsUpTo place.now.file
        (place.now.offset + from * doc_width shape.now)
        (place.now.offset + to * doc_width shape.now) (S.log shelf.old) (S.log shelf.new)) }
    // A range past the end of its section is refused before anything is read.
    ensures past { place.now.length < to * doc_width shape.now → from < to →
        S.log shelf.new ≡ S.log shelf.old }
    ensures bad { IsErrOf result DocsFault.BadDocs → IfSome (S.held shelf.old) (λ files.
        (docs : List Doc) → HasDocuments shape.now counts.now from to (section files place.now)
        docs → ⊥) }
{
    if from == to {
        return Ok(SpelledDocs::none(alloc, shape, counts));
    }
    let width = width_of(shape) as u64;
    let first = from as u64 * width;
    let end = to as u64 * width;
    if end > place.length {
        return Err(DocsFault::BadDocs);
    }
    let bytes = match read_part(alloc, shelf, place.file.as_str(), place.offset, first, end) {
        Ok(bytes) => bytes,
        Err(fault) => return Err(fault),
    };
    docs_from(bytes, shape, counts, to - from)
}
