//! What is kept from line to line.
ghost use Rattle.outside.specs.Seen.{seen};
ghost use Rattle.serve_lines.specs.Calls.{FindsTable};

use command_model::stored_table;
use command_words::Stop;
use outside::Depot;
use serving::Serving;
use std::alloc::Global;
use table_schema::Table;

/// What is kept from line to line: the cursors, and the table of the store once a line has looked
/// for it. No line changes the table, so its file is read once.
#[derive(Drop)]
pub struct Session {
    pub serving: Serving,
    pub table: Option<Table>,
}

/// Looks for the table of the store, unless it is kept already.
pub(crate) fn find_table<D: Depot>(
    alloc: Global,
    table: &mut Option<Table>,
    depot: &mut D,
) -> Result<(), Stop>
    ensures { FindsTable table.old (seen D.Shelf depot.old) (seen D.Shelf depot.new) table.new
        result }
{
    if table.is_some() {
        return Ok(());
    }
    *table = Some(stored_table(alloc, depot)?);
    Ok(())
}
