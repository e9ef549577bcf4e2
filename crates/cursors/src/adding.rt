//! The rows of segments are added to the groups of a cursor.
ghost use Rattle.std.specs.Prelude.{◌≡◌, ◌≢◌, OnOk, Err};
ghost use Rattle.outside.specs.Seen.{seen};
ghost use Rattle.group_table.specs.Pooled.{IsTableIn, StaysIn, in_pool};
ghost use Rattle.sql_reply.specs.declared.fault.SqlFault.{SqlFault};
ghost use Rattle.sql_reply.specs.declared.fault.SqlFault.TheVariants.{NoMemory};
ghost use Rattle.query_executor.specs.Passes.{CanBegin, PassReads};
ghost use Rattle.query_executor.specs.Steps.{AreOverfull};
ghost use Rattle.query_executor.specs.declared.fault.ExecutorFault.TheVariants.{Sql};
ghost use Rattle.cursors.specs.Added.{AddsAll};

use crate::places::MOST_CURSOR_GROUPS;
use agg_laws::Kinds;
use group_table::{GroupTable, SlotPool};
use outside::{Seq, Shelf};
use query_executor::{ExecutorFault, Pass, pass_over};
use segment_head::Stored;
use segment_scan::IdRooms;
use star_answer::docs_bound_law;
use std::mem::replace;
use table_schema::{BoundQuery, Table};

/// Adds the rows of these segments to the groups of a query, which are lent to a pass with their
/// pool and the rooms for ids. After a fault some rows may have been added.
pub(crate) fn add_all<S: Shelf>(
    rooms: &mut IdRooms,
    shelf: &mut S,
    table: &Table,
    stored: &[Stored],
    query: &BoundQuery,
    groups: &mut GroupTable,
    pool: &mut SlotPool,
) -> Result<(), ExecutorFault>
    requires pooled { IsTableIn groups.old pool.old }
    requires begins { CanBegin query.now table.now stored.now (in_pool groups.old pool.old) }
    ensures added { OnOk result (AddsAll query.now table.now (S.held shelf.old) stored.now
        (in_pool groups.old pool.old) (in_pool groups.new pool.new)) }
    ensures refused { (fault : SqlFault) → result ≡ Err (Sql fault) → fault ≢ NoMemory →
        AreOverfull query.now table.now (S.held shelf.old) stored.now
        (in_pool groups.old pool.old) }
    ensures passes { PassReads query.now table.now stored.now
        (seen S.Shelf shelf.old) (seen S.Shelf shelf.new) result }
    ensures stays { StaysIn groups.old pool.old groups.new pool.new }
{
    docs_bound_law();
    let alloc = rooms.alloc();
    let spare = SlotPool::with_slots(alloc, &Kinds::new(alloc), &Seq::new(alloc))?;
    let mut pass = Pass {
        groups: replace(groups, GroupTable::none(alloc)),
        pool: replace(pool, spare),
        rooms: replace(rooms, IdRooms::new(alloc)),
        most: MOST_CURSOR_GROUPS,
        wants_lines: false,
        lines: Vec::new(alloc),
    };
    let done = pass_over(alloc, shelf, table, stored, query, &mut pass);
    let Pass {
        groups: added,
        pool: kept,
        rooms: used,
        ..
    } = pass;
    *groups = added;
    *pool = kept;
    *rooms = used;
    done
}
