//! Cursors over a store, which take turns while the rows of a segment are replaced.
ghost use Rattle.std.specs.Prelude.{◌≡◌, [], IfOk, OnOk, length};
ghost use Rattle.std.specs.List.{All};
ghost use Rattle.outside.specs.Files.{Lacks};
ghost use Rattle.values.specs.Columns.{rows_of};
ghost use Rattle.table_schema.specs.ValidQuery.{IsValidQuery};
ghost use Rattle.table_schema.specs.ValidTable.{AreRows, IsValidTable};
ghost use Rattle.table_schema.specs.declared.table.Table.{Table as ATable};
ghost use Rattle.segment_file.specs.Names.{IsSegmentName};
ghost use Rattle.segment_file.specs.Ordered.{ordered};
ghost use Rattle.table_store.specs.Images.{IsUnicode};
ghost use Rattle.table_store.specs.Kept.{kept_name};
ghost use Rattle.cursors.specs.Kept.{AreCursors};
ghost use Rattle.embedded_example.specs.Steps.{AreBegun, AreFetched, AreOver, IsOpened, Leads, begun, both_begun, both_closed, both_fetched, cursors_of};
ghost use Rattle.embedded_example.specs.Turns.{LeavesReplaced, PrintOwn};

use cursor_serve::fetched_law;
use outside::{Bytes, Depot};
use serving::{ServeFault, Serving};
use std::alloc::Global;
use table_schema::{BoundQuery, Table};
use values::Columns;

/// The replies of two cursors that take turns, a segment each time. One is opened before the rows
/// of a segment are replaced and one after that, and each answers over the rows that there were
/// then. The store is left with the new rows.
pub fn take_turns<D: Depot>(
    alloc: Global,
    depot: &mut D,
    table: &Table,
    early: BoundQuery,
    late: BoundQuery,
    name: &str,
    rows: Columns,
) -> Result<(Bytes, Bytes), ServeFault>
    requires valid { IsValidTable table.now }
    requires early { IsValidQuery table.now early }
    requires late { IsValidQuery table.now late }
    requires name { IsSegmentName name.now }
    requires width { length rows.columns ≡ length table.now.schema.fields }
    requires rows { AreRows table.now.schema.fields (rows_of rows) }
    ensures prints { IfOk result (λ replies. PrintOwn table.now early late name.now (rows_of rows)
        (D.held depot.old) replies.0 replies.1) }
    ensures leaves { IfOk result (λ _. LeavesReplaced table.now name.now (rows_of rows)
        (D.held depot.old) (D.held depot.new)) }
{
    fetched_law();
    let mut serving = begin_both(alloc, depot, table, early, late, name, rows)?;
    let replies = fetch_both(alloc, &mut serving, depot, table)?;
    close_both(alloc, &mut serving, depot)?;
    Ok(replies)
}

// Both cursors have begun, and between them the rows of a segment were replaced.
fn begin_both<D: Depot>(
    alloc: Global,
    depot: &mut D,
    table: &Table,
    early: BoundQuery,
    late: BoundQuery,
    name: &str,
    rows: Columns,
) -> Result<Serving, ServeFault>
    requires valid { IsValidTable table.now }
    requires early { IsValidQuery table.now early }
    requires late { IsValidQuery table.now late }
    requires name { IsSegmentName name.now }
    requires width { length rows.columns ≡ length table.now.schema.fields }
    requires rows { AreRows table.now.schema.fields (rows_of rows) }
    ensures begun { IfOk result (λ serving. Lacks (D.held depot.old) (kept_name name.now 1)
        → All (λ row. All IsUnicode row) (rows_of rows)
        → Leads table.now
        (both_begun early late name.now (ordered table.now.settings.sorted (rows_of rows)))
        (AreBegun early late name.now (ordered table.now.settings.sorted (rows_of rows)))
        [] (cursors_of serving) (D.held depot.old) (D.held depot.new)) }
    ensures over { IfOk result (AreOver table.now) }
{
    let mut serving = Serving::new(alloc)?;
    begin(alloc, &mut serving, depot, table, "early", early)?;
    serving.replace_live(alloc, depot, table, name, rows, 1)?;
    begin(alloc, &mut serving, depot, table, "late", late)?;
    Ok(serving)
}

// A cursor is opened and answers its first segment.
fn begin<D: Depot>(
    alloc: Global,
    serving: &mut Serving,
    depot: &mut D,
    table: &Table,
    cursor: &str,
    query: BoundQuery,
) -> Result<(), ServeFault>
    requires valid { IsValidTable table.now }
    requires query { IsValidQuery table.now query }
    requires over { AreOver table.now serving.old }
    ensures begun { OnOk result (Leads table.now (begun cursor.now query)
        (IsOpened cursor.now query) (cursors_of serving.old) (cursors_of serving.new)
        (D.held depot.old) (D.held depot.new)) }
    ensures held { OnOk result (D.held depot.new ≡ D.held depot.old) }
    ensures over { OnOk result (AreOver table.now serving.new) }
{
    serving.open_cursor(alloc, depot, table, cursor, query)?;
    serving.step(alloc, depot, table, cursor)?;
    Ok(())
}

// The early cursor answers one segment more, and both give their replies.
fn fetch_both<D: Depot>(
    alloc: Global,
    serving: &mut Serving,
    depot: &mut D,
    table: &Table,
) -> Result<(Bytes, Bytes), ServeFault>
    requires valid { IsValidTable table.now }
    requires over { AreOver table.now serving.old }
    ensures fetched { IfOk result (λ replies. Leads table.now both_fetched
        (AreFetched replies.0 replies.1) (cursors_of serving.old) (cursors_of serving.new)
        (D.held depot.old) (D.held depot.new)) }
    ensures over { OnOk result (AreOver table.now serving.new) }
{
    serving.step(alloc, depot, table, "early")?;
    let second = serving.fetch(alloc, depot, table, "late")?;
    let first = serving.fetch(alloc, depot, table, "early")?;
    Ok((first, second))
}

fn close_both<D: Depot>(
    alloc: Global,
    serving: &mut Serving,
    depot: &mut D,
) -> Result<(), ServeFault>
    requires cursors { AreCursors serving.old.pool serving.old.cursors.items }
    ensures { OnOk result ((table : ATable) → Leads table both_closed (λ m. Unit {0})
        (cursors_of serving.old) (cursors_of serving.new)
        (D.held depot.old) (D.held depot.new)) }
{
    serving.close(alloc, depot, "late")?;
    serving.close(alloc, depot, "early")?;
    Ok(())
}
