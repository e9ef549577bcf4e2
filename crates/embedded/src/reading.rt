//! The segments of a store are named, and queries are answered over them.
ghost use Rattle.std.specs.Prelude.{◌≡◌};
ghost use Rattle.outside.specs.Seen.{seen};
ghost use Rattle.table_schema.specs.ValidTable.{IsValidTable};
ghost use Rattle.embedded.specs.Calls.{Answers, Lists};
ghost use Rattle.embedded.specs.Stores.{over};

use crate::Fault;
use outside::{Bytes, Depot, Name, Seq};
use query_executor::reply_to_query;
use std::alloc::Global;
use table_schema::Table;
use table_store::segment_names;

/// The names of the segments of a table.
pub fn list_names<D: Depot>(alloc: Global, depot: &mut D, table: &Table) -> Result<Seq<Name>, Fault>
    ensures { Lists (over table.now (seen D.Shelf depot.old))
        (over table.now (seen D.Shelf depot.new)) result }
{
    match segment_names(alloc, depot) {
        Ok(names) => Ok(names),
        Err(fault) => Err(Fault::Store(fault)),
    }
}

/// The reply to a query over the segments of a table.
pub fn answer<D: Depot>(
    alloc: Global,
    depot: &mut D,
    table: &Table,
    sql: &str,
) -> Result<Bytes, Fault>
    requires { IsValidTable table.now }
    ensures { Answers sql.now (over table.now (seen D.Shelf depot.old))
        (over table.now (seen D.Shelf depot.new)) result }
{
    let names = match segment_names(alloc, depot) {
        Ok(names) => names,
        Err(fault) => return Err(Fault::Store(fault)),
    };
    match reply_to_query(alloc, depot, table, names.as_slice(), sql) {
        Ok(text) => Ok(text),
        Err(fault) => Err(Fault::from(fault)),
    }
}
