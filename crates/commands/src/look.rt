//! The commands `verify` and `dump`: whether the file of a segment is the image of rows, and its
//! rows as a text.
ghost use Rattle.std.specs.Prelude.{◌≡◌, Ok, Some};
ghost use Rattle.outside.specs.Seen.{Seen, seen};
ghost use Rattle.segment_file.specs.Names.{IsSegmentName, IsSegmentOf};
ghost use Rattle.command_words.specs.Command.{Look};
ghost use Rattle.command_model.specs.Gives.{LooksFor};
ghost use Rattle.command_model.specs.Profile.{TableFile};
ghost use Rattle.command_model.specs.Ran.{Ran};
ghost use Rattle.command_model.specs.Stored.{HasTableFile, TableRefuses};

use command_model::{said_of, stored_table};
use command_words::{Aim, Stop};
use outside::{Bytes, Depot};
use std::alloc::Global;
use table_schema::Table;

/// The reply to `verify` and `dump`. The file of no other segment is opened.
pub fn look<D: Depot>(alloc: Global, aim: Aim, name: &str, depot: &mut D) -> Result<Bytes, Stop>
    requires { IsSegmentName name.now }
    ensures { (inputs : Seen) → Ran (Some (Look aim name.now))
        (record { inputs = inputs; depot = seen D.Shelf depot.old })
        (record { inputs = inputs; depot = seen D.Shelf depot.new }) result }
{
    let table = stored_table(alloc, depot)?;
    look_in(alloc, aim, &table, name, depot)
}

// The reply where the store has this table.
fn look_in<D: Depot>(
    alloc: Global,
    aim: Aim,
    table: &Table,
    name: &str,
    depot: &mut D,
) -> Result<Bytes, Stop>
    requires { IsSegmentOf table.now name.now }
    ensures { (inputs first : Seen) → LooksFor HasTableFile TableRefuses TableFile first
        (seen D.Shelf depot.old) (Ok table.now) → Ran (Some (Look aim name.now))
        (record { inputs = inputs; depot = first })
        (record { inputs = inputs; depot = seen D.Shelf depot.new }) result }
{
    match said_of(alloc, aim, table, name, depot) {
        Ok(text) => Ok(text),
        Err(why) => Err(why),
    }
}
