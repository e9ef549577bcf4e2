//! What is said of the plans of the segments of a table for a query.
ghost use Rattle.std.specs.Prelude.{◌≡◌, Err, IfOk, OnOk, length, map};
ghost use Rattle.outside.specs.Seen.{seen};
ghost use Rattle.sql_reply.specs.declared.fault.SqlFault.{SqlFault};
ghost use Rattle.sql_reply.specs.declared.fault.SqlFault.TheVariants.{NoMemory};
ghost use Rattle.segment_head.specs.Stored.{live};
ghost use Rattle.query_executor.specs.Lines.{plan_line};
ghost use Rattle.query_executor.specs.Passes.{AreSegmentsOf, HaveOpenings, IsQueryOver, LooksAtHeads};
ghost use Rattle.query_executor.specs.Replies.{ExplainsText};
ghost use Rattle.query_executor.specs.Steps.{HasLines};
ghost use Rattle.query_executor.specs.declared.fault.ExecutorFault.TheVariants.{Sql};

use crate::ExecutorFault;
use crate::planned::explain_segment;
use crate::segment_fault::fault_at;
use outside::{Bytes, Name, Seq, Shelf};
use segment_head::{Stored, live_segments};
use sql_reply::{MOST_GROUPS, bound_query};
use std::alloc::Global;
use table_schema::{BoundQuery, Table};

/// A line for each segment of these names: what is to be done with it for a query, over the rows
/// that it has. Nothing is read before the query is known to be one over the table, and no byte
/// past the head of a segment's file.
pub fn explain_query<S: Shelf>(
    alloc: Global,
    shelf: &mut S,
    table: &Table,
    names: &[Name],
    sql: &str,
) -> Result<Bytes, ExecutorFault>
    requires { AreSegmentsOf table.now names.now }
    ensures { ExplainsText table.now (map live names.now) sql.now
        (seen S.Shelf shelf.old) (seen S.Shelf shelf.new) result }
{
    match bound_query(alloc, sql, table, false) {
        Ok(bound) => {
            let stored = live_segments(alloc, names)?;
            explain_bound(alloc, shelf, table, stored.as_slice(), &bound)
        }
        Err(fault) => Err(ExecutorFault::Sql(fault)),
    }
}

// The lines of these segments for a query in its normal form.
fn explain_bound<S: Shelf>(
    alloc: Global,
    shelf: &mut S,
    table: &Table,
    stored: &[Stored],
    query: &BoundQuery,
) -> Result<Bytes, ExecutorFault>
    requires { IsQueryOver query.now table.now stored.now }
    ensures lines { IfOk result (λ text.
        HasLines (plan_line query.now table.now) table.now (S.held shelf.old) stored.now
        (length stored.now) text) }
    ensures never_wrong { (fault : SqlFault) → result ≡ Err (Sql fault) → fault ≡ NoMemory }
    ensures opens { OnOk result (HaveOpenings table.now (S.held shelf.old) stored.now) }
    ensures looks { LooksAtHeads table.now stored.now
        (seen S.Shelf shelf.old) (seen S.Shelf shelf.new) result }
{
    let mut text = Vec::new(alloc);
    'stored: for at in 0..stored.len() {
        match explain_segment(alloc, shelf, table, &stored[at], query, &mut text) {
            Ok(()) => {}
            Err(fault) => return Err(fault_at(MOST_GROUPS, at as u32, fault)),
        }
    }
    Ok(Seq::from_vec(text))
}
