//! Stores inside a program.
ghost use Rattle.std.specs.Prelude.{◌≡◌, IfErr, IfOk};
ghost use Rattle.outside.specs.Seen.{seen};
ghost use Rattle.embedded.specs.Calls.{Answers, Builds, Drops, Lists};
ghost use Rattle.embedded.specs.Making.{IsMade, IsNotMade, IsNotOpened, IsOpened, texts_of};
ghost use Rattle.embedded.specs.Rows.{csv_rows, own_rows};
ghost use Rattle.embedded.specs.Stores.{store_seen};

use crate::building::{build_of_csv, build_of_rows, drop_named};
use crate::making::{make_table, open_stored};
use crate::reading::{answer, list_names};
use crate::{Fault, Refused};
use outside::{Bytes, Depot, Name, Seq};
use std::alloc::Global;
use std::marker::Model;
use table_schema::Table;
use values::Rows;

/// A table, and the depot that it and its segments are in. What is said of segments in the
/// contracts of its calls is said where the depot tells its files, and they are those of a store.
#[derive(Drop)]
pub struct Store<D: Depot + Drop> {
    alloc: Global,
    table: Table,
    depot: D,
}

impl<D: Depot + Drop> Model for Store<D> {
    ghost use Rattle.embedded.specs.Stores.{StoreOf};
    ghost use Rattle.table_schema.specs.ValidTable.{IsValidTable};

    ghost Value = { StoreOf D };

    ghost view = { λ s. record { table = s.table; depot = s.depot } };

    ghost invariant = { λ s. IsValidTable s.table };
}

impl<D: Depot + Drop> Store<D> {
    /// A store of a new table in the depot, by the texts of a schema and of a table configuration
    /// of Pinot. Where the depot has a table, or a text is refused, the depot is given back.
    pub fn create(
        alloc: Global,
        depot: D,
        schema: &[u8],
        settings: &[u8],
    ) -> Result<Self, Refused<D>>
        ensures made { IfOk result (λ store. IsMade (texts_of schema.now settings.now)
            (seen D.Shelf depot) (store_seen D.Shelf store)) }
        ensures refused { IfErr result (λ refused. IsNotMade (texts_of schema.now settings.now)
            (seen D.Shelf depot) (seen D.Shelf refused.depot) refused.why) }
    {
        let mut depot = depot;
        match make_table(alloc, &mut depot, schema, settings) {
            Ok(table) => Ok(Store {
                alloc,
                table,
                depot,
            }),
            Err(why) => Err(Refused { why, depot }),
        }
    }

    /// The store that the depot has. Where it has none, the depot is given back.
    pub fn open(alloc: Global, depot: D) -> Result<Self, Refused<D>>
        ensures opened { IfOk result (λ store. IsOpened
            (seen D.Shelf depot) (store_seen D.Shelf store)) }
        ensures refused { IfErr result (λ refused. IsNotOpened
            (seen D.Shelf depot) (seen D.Shelf refused.depot) refused.why) }
    {
        let mut depot = depot;
        match open_stored(alloc, &mut depot) {
            Ok(table) => Ok(Store {
                alloc,
                table,
                depot,
            }),
            Err(why) => Err(Refused { why, depot }),
        }
    }

    /// Builds a segment of the rows of a CSV text, whose first line names the columns. The text is
    /// not looked at where there is no place for the segment.
    pub fn build(&mut self, name: &str, csv: &[u8]) -> Result<(), Fault>
        ensures { Builds name.now (csv_rows self.old.table.schema.fields csv.now)
            (store_seen D.Shelf self.old) (store_seen D.Shelf self.new) result }
    {
        build_of_csv(self.alloc, &mut self.depot, &self.table, name, csv)
    }

    /// Builds a segment of these rows, each of them a value a field, by the order of the schema.
    pub fn build_rows(&mut self, name: &str, rows: &Rows) -> Result<(), Fault>
        ensures { Builds name.now (own_rows self.old.table.schema.fields rows.now)
            (store_seen D.Shelf self.old) (store_seen D.Shelf self.new) result }
    {
        build_of_rows(self.alloc, &mut self.depot, &self.table, name, rows)
    }

    /// Takes the segment of this name away.
    pub fn drop_segment(&mut self, name: &str) -> Result<(), Fault>
        ensures { Drops name.now
            (store_seen D.Shelf self.old) (store_seen D.Shelf self.new) result }
    {
        drop_named(self.alloc, &mut self.depot, &self.table, name)
    }

    /// The names of the segments, ascending.
    pub fn names(&mut self) -> Result<Seq<Name>, Fault>
        ensures { Lists (store_seen D.Shelf self.old) (store_seen D.Shelf self.new) result }
    {
        list_names(self.alloc, &mut self.depot, &self.table)
    }

    /// The reply to a query over the rows of all segments, as the command `query` prints it.
    pub fn query(&mut self, sql: &str) -> Result<Bytes, Fault>
        ensures { Answers sql.now
            (store_seen D.Shelf self.old) (store_seen D.Shelf self.new) result }
    {
        answer(self.alloc, &mut self.depot, &self.table, sql)
    }

    /// The table, whose schema has the fields in their order.
    pub fn table(&self) -> &Table
        ensures { result.now ≡ self.now.table }
    {
        &self.table
    }

    /// The depot, with all that the store has.
    pub fn into_depot(self) -> D
        ensures { result ≡ self.depot }
    {
        let Store { depot, .. } = self;
        depot
    }
}
