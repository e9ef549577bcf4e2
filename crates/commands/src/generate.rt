//! The command `generate`: a table with a segment of rows that the program makes, and what is read
//! of it for a query.
ghost use Rattle.std.specs.Prelude.{◌≡◌, Some, Ok, IfOk, IfErr};
ghost use Rattle.outside.specs.Seen.{Seen, seen};
ghost use Rattle.table_schema.specs.ValidTable.{IsValidTable};
ghost use Rattle.command_words.specs.Command.{Build, Create, GeneratedRows, GeneratedTexts};
ghost use Rattle.command_model.specs.Generated.{generated_name, generated_text, scan_query, tree_query};
ghost use Rattle.command_model.specs.Gives.{FindsPlace};
ghost use Rattle.command_model.specs.Ran.{Ran};
ghost use Rattle.command_model.specs.Through.{RanGenerate};

use crate::build::publish;
use crate::create::{finds_table, make};
use crate::generated::{generated_columns, generated_line};
use crate::query::ask;
use command_model::{own_table, table_with_place};
use command_words::{About, Note, Stop};
use outside::{Bytes, Depot, Seq};
use std::alloc::Global;
use table_schema::Table;

/// The line of `generate`: the table and the segment are made, and then the query is asked twice.
pub fn generate<D: Depot>(alloc: Global, rows: u32, depot: &mut D) -> Result<Bytes, Stop>
    ensures { (inputs : Seen) → RanGenerate rows
        (record { inputs = inputs; depot = seen D.Shelf depot.old })
        (record { inputs = inputs; depot = seen D.Shelf depot.new }) result }
{
    create_own(alloc, rows, depot)?;
    build_own(alloc, rows, depot)?;
    let tree = ask(alloc, About::RowsAndPlans, tree_query(), depot)?;
    let scan = ask(alloc, About::RowsAndPlans, scan_query(), depot)?;
    let line = generated_line(alloc, rows, tree.as_slice(), scan.as_slice())?;
    Ok(Seq::from_vec(line))
}

// Makes the program's own table.
fn create_own<D: Depot>(alloc: Global, rows: u32, depot: &mut D) -> Result<Bytes, Stop>
    ensures { (inputs : Seen) → Ran (Some (Create (GeneratedTexts rows)))
        (record { inputs = inputs; depot = seen D.Shelf depot.old })
        (record { inputs = inputs; depot = seen D.Shelf depot.new }) result }
{
    if finds_table(alloc, depot)? {
        return Err(Stop::Refused(Note::TableExists));
    }
    let new = own_table(alloc, rows)?;
    make(alloc, &new, depot)
}

// Builds the segment of the program's own rows.
fn build_own<D: Depot>(alloc: Global, rows: u32, depot: &mut D) -> Result<Bytes, Stop>
    ensures { (inputs : Seen) → Ran (Some (Build generated_name (GeneratedRows rows)))
        (record { inputs = inputs; depot = seen D.Shelf depot.old })
        (record { inputs = inputs; depot = seen D.Shelf depot.new }) result }
{
    let table = table_with_place(alloc, "g1", depot)?;
    build_rows(alloc, &table, rows, depot)
}

// The same where the store has this table, and a place for the segment.
fn build_rows<D: Depot>(
    alloc: Global,
    table: &Table,
    rows: u32,
    depot: &mut D,
) -> Result<Bytes, Stop>
    requires valid { IsValidTable table.now }
    ensures { (inputs first : Seen) → FindsPlace generated_name first
        (seen D.Shelf depot.old) (Ok table.now)
        → Ran (Some (Build generated_name (GeneratedRows rows)))
        (record { inputs = inputs; depot = first })
        (record { inputs = inputs; depot = seen D.Shelf depot.new }) result }
{
    let columns = generated_columns(alloc, rows, table)?;
    publish(alloc, table, "g1", columns, depot)
}

// The query, which the star-tree answers.
fn tree_query() -> &'static str
    ensures { result.now ≡ tree_query }
{
    "SELECT a, COUNT(*), SUM(m) FROM gen WHERE c < 10 GROUP BY a ORDER BY a LIMIT 100"
}

// The same without a star-tree.
fn scan_query() -> &'static str
    ensures { result.now ≡ scan_query }
{
    "SET useStarTree = false; \
SELECT a, COUNT(*), SUM(m) FROM gen WHERE c < 10 GROUP BY a ORDER BY a LIMIT 100"
}
