//! A cursor answers segments: their rows are added to its groups, whose states are saved before.
ghost use Rattle.std.specs.Prelude.{◌≡◌, ◌≢◌, ◌≤◌, is_some, true, IfOk, OnOk, OnErr, Err, length};
ghost use Rattle.std.specs.List.{AllByRecursion};
ghost use Rattle.outside.specs.Seen.{seen};
ghost use Rattle.table_schema.specs.ValidTable.{IsValidTable};
ghost use Rattle.sql_reply.specs.declared.fault.SqlFault.{SqlFault};
ghost use Rattle.sql_reply.specs.declared.fault.SqlFault.TheVariants.{NoMemory};
ghost use Rattle.state_pool.specs.Pool.{held};
ghost use Rattle.query_executor.specs.Passes.{PassReads};
ghost use Rattle.query_executor.specs.declared.fault.ExecutorFault.TheVariants.{Sql};
ghost use Rattle.cursors.specs.Added.{stored_in};
ghost use Rattle.cursors.specs.Answered.{AnswersRows, IsMoved, IsOverfull, next_stored};
ghost use Rattle.cursors.specs.Kept.{IsCursorIn, IsOver, IsPool, KeepsAside, keeper};

use crate::adding::add_all;
use crate::cursor::Cursor;
use agg_laws::AggState;
use group_table::SlotPool;
use outside::{Name, NoMemory, Shelf};
use query_executor::ExecutorFault;
use segment_head::Stored;
use segment_scan::IdRooms;
use sql_reply::SqlFault;
use star_answer::docs_bound_law;
use std::alloc::Global;
use table_schema::Table;

/// A cursor answers its segments up to one, where its groups are then no more than it may have.
/// Else it is as it was. The states of its groups as they were are put in a list.
pub fn answer_to<S: Shelf>(
    rooms: &mut IdRooms,
    shelf: &mut S,
    table: &Table,
    pool: &mut SlotPool,
    cursor: &mut Cursor,
    to: u32,
    states: &mut Vec<AggState>,
) -> Result<(), ExecutorFault>
    requires pool { IsPool pool.old × (held pool.old keeper ≡ 0) }
    requires cursor { IsCursorIn pool.old cursor.old }
    requires over { IsValidTable table.now × IsOver table.now cursor.old }
    requires next { (cursor.old.answered ≤ to) × (to ≤ length cursor.old.segments) }
    ensures moved { OnOk result (IsMoved to cursor.old cursor.new) }
    ensures same { OnErr result ((cursor.new ≡ cursor.old)
        × KeepsAside keeper keeper pool.old pool.new) }
    ensures answered { OnOk result (AnswersRows table.now (S.held shelf.old)
        (next_stored cursor.old to) pool.old pool.new cursor.old cursor.new) }
    ensures refused { (fault : SqlFault) → result ≡ Err (Sql fault) → fault ≢ NoMemory →
        IsOverfull table.now (S.held shelf.old) (next_stored cursor.old to) pool.old cursor.old }
    ensures passes { PassReads cursor.old.query table.now (next_stored cursor.old to)
        (seen S.Shelf shelf.old) (seen S.Shelf shelf.new) result }
    ensures stays { IsCursorIn pool.new cursor.new }
    ensures keeps { KeepsAside cursor.old.groups.owner keeper pool.old pool.new }
    ensures closed { held pool.new keeper ≡ 0 }
{
    docs_bound_law();
    let alloc = rooms.alloc();
    let from = cursor.answered as usize;
    let names = &cursor.segments.as_slice()[from..to as usize];
    let files = &cursor.files.as_slice()[from..to as usize];
    let stored = stored_of(alloc, names, files)?;
    let count = cursor.groups.groups();
    cursor.groups.save(pool, states)?;
    let done = add_all(
        rooms,
        shelf,
        table,
        stored.as_slice(),
        &cursor.query,
        &mut cursor.groups,
        pool,
    );
    match done {
        Ok(()) => {
            cursor.answered = to;
            Ok(())
        }
        Err(fault) => {
            cursor.groups.restore(pool, count, states.as_slice());
            Err(fault)
        }
    }
}

// The segments of these names where they stand.
fn stored_of(alloc: Global, names: &[Name], files: &[Option<Name>]) -> Result<Vec<Stored>, NoMemory>
    requires each { length files.now ≡ length names.now }
    requires there { AllByRecursion (λ file. is_some file ≡ true) files.now }
    ensures { IfOk result (λ stored. stored.items ≡ stored_in names.now files.now) }
{
    let mut stored = Vec::with_capacity(alloc, names.len())?;
    'names: for at in 0..names.len() {
        let Some(file) = &files[at] else {
            unreachable!();
        };
        stored.push(Stored {
            file: file.copy()?,
            name: names[at].copy()?,
        })?;
    }
    Ok(stored)
}
