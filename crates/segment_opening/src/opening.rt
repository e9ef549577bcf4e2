//! A segment of a table is opened.
ghost use Rattle.std.specs.Prelude.{◌≡◌, Err, IfOk};
ghost use Rattle.outside.specs.Seen.{seen};
ghost use Rattle.segment_file.specs.Names.{IsSegmentOf};
ghost use Rattle.segment_file.specs.declared.part.Part.{Part};
ghost use Rattle.segment_head.specs.declared.fault.EngineFault.TheVariants.{NotASegment};
ghost use Rattle.segment_opening.specs.Calls.{IsOpened, IsUnopened, LooksAtHead};

use outside::Shelf;
use segment_file::image_keeps_law;
use segment_head::{EngineFault, Head, Stored, engine_fault, open_head};
use std::alloc::Global;
use table_schema::Table;

/// The head of a segment, without its dictionaries.
pub fn open_segment<S: Shelf>(
    alloc: Global,
    shelf: &mut S,
    table: &Table,
    segment: &Stored,
) -> Result<Head, EngineFault>
    requires { IsSegmentOf table.now segment.now.name }
    ensures opened { IfOk result (IsOpened table.now (S.held shelf.old) segment.now) }
    ensures first { (part : Part) → result ≡ Err (NotASegment part) →
        IsUnopened table.now (S.held shelf.old) segment.now part }
    ensures looks { LooksAtHead table.now segment.now
        (seen S.Shelf shelf.old) (seen S.Shelf shelf.new) result }
{
    image_keeps_law();
    let file = segment.file.as_str();
    let name = segment.name.as_str();
    match open_head(alloc, shelf, file, name, table) {
        Ok(head) => Ok(head),
        Err(fault) => Err(engine_fault(fault)),
    }
}
