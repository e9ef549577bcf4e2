//! The ids of some documents in a column of a segment, read from its file.

ghost use Rattle.std.specs.Prelude.{◌*◌, IfErr, IfOk, IfSome, IsErrOf, length};
ghost use Rattle.outside.specs.Seen.{seen};
ghost use Rattle.doc_lists.specs.Docs.{docs_of};
ghost use Rattle.segment_file.specs.declared.part.Part.TheVariants.{Forward};
ghost use Rattle.column_reader.specs.Bytes.{GrowsBy};
ghost use Rattle.column_reader.specs.Calls.{ReadsSections};
ghost use Rattle.column_reader.specs.Faults.{IsFaultOf};
ghost use Rattle.column_reader.specs.Forward.{HasIds, IsReadable};
ghost use Rattle.column_reader.specs.Picked.{AreIdsAt, AreRunsIn, LogsRuns, LogsRunsPartly};
ghost use Rattle.segment_head.specs.declared.fault.EngineFault.TheVariants.{NotASegment};

use crate::fault::of_column;
use bit_column::{IdRange, Width, append_range, width_for};
use coded_columns::Ids;
use doc_lists::Run;
use outside::Shelf;
use segment_file::Part;
use segment_head::{EngineFault, Head};
use std::alloc::Global;

/// The ids of documents in a column: of its forward section the ids of the runs are read, one run
/// after the other, and nothing else.
pub fn pick_column<S: Shelf>(
    alloc: Global,
    shelf: &mut S,
    head: &Head,
    column: u16,
    runs: &[Run],
    count: usize,
) -> Result<Ids, EngineFault>
    requires readable { IsReadable head.now column }
    requires runs { AreRunsIn head.now runs.now }
    ensures ids { IfOk result (AreIdsAt (S.held shelf.old) head.now column (docs_of runs.now)) }
    ensures bad { IsErrOf result (NotASegment (Forward column)) →
        IfSome (S.held shelf.old) (λ files. ¬ HasIds files head.now column) }
    ensures only { IfErr result (IsFaultOf column) }
    ensures reads { ReadsSections result (λ _. LogsRuns head.now runs.now column)
        (LogsRunsPartly head.now runs.now column)
        (seen S.Shelf shelf.old) (seen S.Shelf shelf.new) }
    ensures bytes { IfOk result (λ _. GrowsBy (4 * length (docs_of runs.now))
        (S.log shelf.old) (S.log shelf.new)) }
{
    let Some(place) = head.place(Part::Forward(column)) else {
        unreachable!();
    };
    let values = head.dictionary(column).count();
    let width = width_for(values);
    let mut buffer = Vec::new(alloc);
    let mut ids = Vec::with_capacity(alloc, count)?;
    for run in runs {
        let range = IdRange {
            width: Width { bits: width },
            count: values,
            from: run.first,
            to: run.last + 1,
        };
        match append_range(alloc, shelf, place, range, &mut buffer, &mut ids) {
            Ok(()) => {}
            Err(fault) => return Err(of_column(fault, column)),
        }
    }
    Ok(Ids::from_vec(ids))
}
