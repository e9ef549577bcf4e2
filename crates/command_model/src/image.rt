//! An input file that is the file of a segment.
ghost use Rattle.outside.specs.Files.{Has};
ghost use Rattle.outside.specs.Seen.{seen};
ghost use Rattle.segment_file.specs.Names.{IsSegmentOf};
ghost use Rattle.command_model.specs.InputImages.{FindsImage, IsLackingStop};

use crate::head_stop;
use crate::input::name_of;
use command_words::{Fault, Note, Stop};
use outside::{Shelf, ShelfFault};
use std::alloc::Global;
use table_schema::Table;
use table_store::check_columns;
use values::Columns;

/// The rows of which an input file is the image under a name, column by column. No other file is
/// read.
pub fn read_image<I: Shelf>(
    alloc: Global,
    table: &Table,
    name: &str,
    file: &str,
    inputs: &mut I,
) -> Result<Columns, Stop>
    requires { IsSegmentOf table.now name.now }
    ensures { FindsImage table.now name.now file.now
        (seen I.Shelf inputs.old) (seen I.Shelf inputs.new) result }
{
    match inputs.length(alloc, file) {
        Ok(_) => {}
        Err(ShelfFault::Missing) => return Err(no_input(alloc, file)),
        Err(ShelfFault::Failed) => return Err(Stop::Fault(Fault::Read)),
        Err(ShelfFault::NoMemory) => return Err(Stop::Fault(Fault::Memory)),
    }
    check_there(alloc, table, name, file, inputs)
}

// The same of a file that is there.
fn check_there<I: Shelf>(
    alloc: Global,
    table: &Table,
    name: &str,
    file: &str,
    inputs: &mut I,
) -> Result<Columns, Stop>
    requires asked { IsSegmentOf table.now name.now }
    requires there { Has (I.held inputs.old) file.now }
    ensures { FindsImage table.now name.now file.now
        (seen I.Shelf inputs.old) (seen I.Shelf inputs.new) result }
{
    match check_columns(alloc, inputs, file, name, table) {
        Ok(columns) => Ok(columns),
        Err(fault) => Err(head_stop(alloc, table, name, fault)),
    }
}

// The refusal of a name that no input file has.
fn no_input(alloc: Global, file: &str) -> Stop
    ensures { IsLackingStop file.now result }
{
    match name_of(alloc, file) {
        Ok(name) => Stop::Refused(Note::NoInput(name)),
        Err(_) => Stop::Fault(Fault::Memory),
    }
}
