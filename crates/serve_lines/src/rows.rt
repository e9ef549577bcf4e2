//! The lines `drop` and `replace`: a segment that cursors may have still to read.
ghost use Rattle.std.specs.Prelude.{◌<◌, ◌^◌};
ghost use Rattle.outside.specs.Seen.{OnlyReads, Seen, seen};
ghost use Rattle.segment_file.specs.Names.{IsSegmentName};
ghost use Rattle.table_schema.specs.declared.table.Table.{Table as ATable};
ghost use Rattle.cursor_serve.specs.Machine.{dropped as dropped_in};
ghost use Rattle.command_words.specs.ServeLine.{Replace};
ghost use Rattle.command_model.specs.Drop.{dropped_text};
ghost use Rattle.command_model.specs.World.{devices};
ghost use Rattle.serve_lines.specs.Calls.{AnswersBy, AnswersOver, FindsSegment};
ghost use Rattle.serve_lines.specs.Kept.{AreOver, cursors_of};

use crate::reply::replaced;
use crate::stop::stop_of;
use command_model::{no_segment, read_rows};
use command_words::{Fault, Stop};
use commands::drop::dropped;
use outside::{Bytes, Depot, Shelf};
use serving::Serving;
use std::alloc::Global;
use table_schema::Table;
use table_store::{StoreFault, holds_segment};

/// The reply to `drop` at the line of this number, which is made before the segment goes.
pub(crate) fn drop_over<D: Depot>(
    alloc: Global,
    number: u32,
    name: &str,
    table: &Table,
    serving: &mut Serving,
    depot: &mut D,
) -> Result<Bytes, Stop>
    requires over { AreOver table.now serving.old }
    requires small { number < 2 ^ 32 }
    ensures answers { (inputs : Seen) →
        AnswersBy number (λ _. dropped_text name.now) name.now (dropped_in number name.now)
        table.now (record { inputs = inputs; depot = seen D.Shelf depot.old })
        (record { inputs = inputs; depot = seen D.Shelf depot.new })
        (cursors_of serving.old) (cursors_of serving.new) result }
    ensures over { AreOver table.now serving.new }
{
    let reply = dropped(alloc, name)?;
    match serving.drop_live(alloc, depot, name, number) {
        Ok(()) => Ok(reply),
        Err(fault) => Err(stop_of(alloc, name, fault)),
    }
}

/// The reply to `replace` at the line of this number. Where there is no segment of the name, the
/// CSV file is not looked at.
pub(crate) fn replace_over<I: Shelf, D: Depot>(
    alloc: Global,
    number: u32,
    name: &str,
    csv: &str,
    table: &Table,
    serving: &mut Serving,
    inputs: &mut I,
    depot: &mut D,
) -> Result<Bytes, Stop>
    requires over { AreOver table.now serving.old }
    requires small { number < 2 ^ 32 }
    requires name { IsSegmentName name.now }
    ensures answers { AnswersOver number (Replace name.now csv.now) table.now
        (devices I.Shelf D.Shelf inputs.old depot.old)
        (devices I.Shelf D.Shelf inputs.new depot.new)
        (cursors_of serving.old) (cursors_of serving.new) result }
    ensures over { AreOver table.now serving.new }
{
    find_segment(alloc, name, depot)?;
    let columns = read_rows(alloc, csv, table, inputs)?;
    let reply = replaced(alloc, name, columns.len())?;
    match serving.replace_live(alloc, depot, table, name, columns, number) {
        Ok(()) => Ok(reply),
        Err(fault) => Err(stop_of(alloc, name, fault)),
    }
}

// Refused where there is no segment of this name.
fn find_segment<D: Depot>(alloc: Global, name: &str, depot: &mut D) -> Result<(), Stop>
    ensures { FindsSegment name.now (seen D.Shelf depot.old) (seen D.Shelf depot.new) result }
{
    match holds_segment(alloc, depot, name) {
        Ok(true) => Ok(()),
        Ok(false) => Err(no_segment(alloc, name)),
        Err(StoreFault::ReadFault) => Err(Stop::Fault(Fault::Read)),
        Err(_) => Err(Stop::Fault(Fault::Memory)),
    }
}
