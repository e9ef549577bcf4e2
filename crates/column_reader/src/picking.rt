//! The ids of some documents in the columns of a segment, read from its file.

ghost use Rattle.std.specs.Prelude.{◌≡◌, ◌<◌, ℕ, IfErr, IfOk, None, false, true, get_or, length};
ghost use Rattle.outside.specs.Seen.{seen};
ghost use Rattle.doc_lists.specs.Docs.{docs_of};
ghost use Rattle.column_reader.specs.Bytes.{GrowsBy, column_bytes, most_bytes};
ghost use Rattle.column_reader.specs.Calls.{ReadsSections};
ghost use Rattle.column_reader.specs.Forward.{IsFaultAt, IsFaultIn, IsReadable};
ghost use Rattle.column_reader.specs.Picked.{AreRunsIn, CanPick, IsPicked, LogsIf, LogsIfPartly, LogsPicked, LogsPickedPartly};
ghost use Rattle.outside.specs.Series.{LogsPartOf, LogsTo};

use crate::column::pick_column;
use crate::columns::keep;
use coded_columns::Ids;
use doc_lists::Run;
use outside::Shelf;
use segment_head::{EngineFault, Head};
use std::alloc::Global;

/// The ids of documents in the columns that are named, by the numbers of their fields: of the
/// forward section of each the ids of the runs are read, one run after the other, and nothing else:
/// at most four bytes a document and column.
pub fn pick_columns<S: Shelf>(
    alloc: Global,
    shelf: &mut S,
    head: &Head,
    named: &[bool],
    runs: &[Run],
    count: usize,
) -> Result<Vec<Option<Ids>>, EngineFault>
    requires { CanPick head.now named.now runs.now }
    ensures count { IfOk result (λ all. length all.items ≡ length named.now) }
    ensures ids { IfOk result (λ all. (column : ℕ) → column < length named.now
        → IsPicked (S.held shelf.old) head.now column (docs_of runs.now)
        (get_or named.now column false) (get_or all.items column None)) }
    ensures fault { IfErr result (IsFaultIn (S.held shelf.old) head.now named.now) }
    ensures reads { ReadsSections result
        (λ _. LogsTo (LogsPicked head.now runs.now named.now) (length named.now))
        (LogsPartOf (LogsPicked head.now runs.now named.now)
        (LogsPickedPartly head.now runs.now named.now) (length named.now))
        (seen S.Shelf shelf.old) (seen S.Shelf shelf.new) }
    ensures bytes { IfOk result (λ _. GrowsBy (most_bytes named.now (docs_of runs.now))
        (S.log shelf.old) (S.log shelf.new)) }
{
    let mut all = Vec::with_capacity(alloc, named.len())?;
    for column in 0..named.len() {
        let ids = match pick_named(
            alloc,
            shelf,
            head,
            column as u16,
            named[column],
            runs,
            count,
        ) {
            Ok(ids) => ids,
            Err(fault) => return Err(fault),
        };
        keep(&mut all, ids)?;
    }
    Ok(all)
}

// The ids of documents in a column, if it is named.
fn pick_named<S: Shelf>(
    alloc: Global,
    shelf: &mut S,
    head: &Head,
    column: u16,
    is_named: bool,
    runs: &[Run],
    count: usize,
) -> Result<Option<Ids>, EngineFault>
    requires readable { is_named ≡ true → IsReadable head.now column }
    requires runs { AreRunsIn head.now runs.now }
    ensures ids { IfOk result
        (IsPicked (S.held shelf.old) head.now column (docs_of runs.now) is_named) }
    ensures fault { IfErr result (IsFaultAt (S.held shelf.old) head.now column is_named) }
    ensures reads { ReadsSections result (λ _. LogsIf head.now runs.now column is_named)
        (LogsIfPartly head.now runs.now column is_named)
        (seen S.Shelf shelf.old) (seen S.Shelf shelf.new) }
    ensures bytes { IfOk result (λ _. GrowsBy (column_bytes (docs_of runs.now) is_named)
        (S.log shelf.old) (S.log shelf.new)) }
{
    if !is_named {
        return Ok(None);
    }
    match pick_column(alloc, shelf, head, column, runs, count) {
        Ok(ids) => Ok(Some(ids)),
        Err(fault) => Err(fault),
    }
}
