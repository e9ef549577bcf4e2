//! A pass over the segments of a table: their rows are added to the groups of a query, and a line
//! is made for each where that is wanted.
ghost use Rattle.std.specs.Prelude.{◌≡◌, ◌≢◌, ◌≤◌, ◌^◌, ◌++◌, ℕ, length, true, [], Err, IfOk, OnOk};
ghost use Rattle.std.specs.FinMap as finite;
ghost use Rattle.outside.specs.Seen.{seen};
ghost use Rattle.group_table.specs.Kept.{IsNew, groups_in};
ghost use Rattle.group_table.specs.Pooled.{IsTableIn, StaysIn};
ghost use Rattle.group_table.specs.QueryPool.{Limits};
ghost use Rattle.sql_reply.specs.declared.fault.SqlFault.{SqlFault};
ghost use Rattle.sql_reply.specs.declared.fault.SqlFault.TheVariants.{NoMemory, TooManyGroups};
ghost use Rattle.query_executor.specs.Lines.{line_by, stats_line, stats_text};
ghost use Rattle.query_executor.specs.Passes.{AddsSegment, CanBegin, HasRoomFor, IsPassOver, IsQueryOf, PassReads, kept_by};
ghost use Rattle.query_executor.specs.Steps.{AddsLine, AreOverfull};
ghost use Rattle.query_executor.specs.declared.fault.ExecutorFault.TheVariants.{Sql};

use crate::ExecutorFault;
use crate::scanned::Scanned;
use crate::segment::add_segment;
use crate::segment_fault::fault_at;
use group_table::{GroupTable, SlotPool, pool_for};
use outside::Shelf;
use segment_head::{EngineFault, Stored};
use segment_plan::push_word;
use segment_scan::IdRooms;
use star_answer::docs_bound_law;
use std::alloc::{AllocError, Global};
use table_schema::{BoundQuery, Table};

/// What is made of the segments of a table for a query.
#[derive(Drop)]
pub struct Pass {
    pub groups: GroupTable,
    /// Where the states of the groups are.
    pub pool: SlotPool,
    /// Where the ids of whole columns are put.
    pub rooms: IdRooms,
    /// How many groups there may be.
    pub most: u32,
    /// Whether lines are wanted.
    pub wants_lines: bool,
    /// A line for each segment, where that is wanted.
    pub lines: Vec<u8>,
}

impl Pass {
    /// Nothing is made yet.
    pub fn new(
        alloc: Global,
        query: &BoundQuery,
        most: u32,
        wants_lines: bool,
    ) -> Result<Self, AllocError>
        requires some { 1 ≤ most }
        requires few { length query.now.aggs ≤ 2 ^ 16 }
        ensures groups { IfOk result (λ pass. IsNew query.now pass.groups.most (kept_by pass)) }
        ensures limits { IfOk result (λ pass. Limits query.now most pass.groups.most) }
        ensures pooled { IfOk result (λ pass. IsTableIn pass.groups pass.pool) }
        ensures most { IfOk result (λ pass. pass.most ≡ most) }
        ensures lines { IfOk result (λ pass. pass.lines.items ≡ []) }
        ensures wants { IfOk result (λ pass. pass.wants_lines ≡ wants_lines) }
    {
        let mut pool = pool_for(alloc, query, most)?;
        let groups = GroupTable::new(alloc, query, &mut pool, 0)?;
        let lines = Vec::new(alloc);
        Ok(Pass {
            groups,
            pool,
            rooms: IdRooms::new(alloc),
            most,
            wants_lines,
            lines,
        })
    }
}

/// Adds the rows of these segments to the groups that a pass has, one segment after the other, and
/// the line of each where that is wanted.
pub fn pass_over<S: Shelf>(
    alloc: Global,
    shelf: &mut S,
    table: &Table,
    stored: &[Stored],
    query: &BoundQuery,
    pass: &mut Pass,
) -> Result<(), ExecutorFault>
    requires pooled { IsTableIn pass.old.groups pass.old.pool }
    requires begins { CanBegin query.now table.now stored.now (kept_by pass.old) }
    requires no_lines { pass.old.lines.items ≡ [] }
    ensures made { OnOk result
        (IsPassOver query.now table.now (S.held shelf.old) stored.now pass.old pass.new) }
    ensures refused { (fault : SqlFault) → result ≡ Err (Sql fault) → fault ≢ NoMemory →
        (fault ≡ TooManyGroups pass.old.most)
        × AreOverfull query.now table.now (S.held shelf.old) stored.now (kept_by pass.old) }
    ensures filled { (most : ℕ) → result ≡ Err (Sql (TooManyGroups most)) →
        finite.len (groups_in (kept_by pass.new)) ≡ pass.old.groups.most }
    ensures passes { PassReads query.now table.now stored.now
        (seen S.Shelf shelf.old) (seen S.Shelf shelf.new) result }
    ensures stays { StaysIn pass.old.groups pass.old.pool pass.new.groups pass.new.pool }
{
    docs_bound_law();
    let most = pass.most;
    'stored: for at in 0..stored.len() {
        match pass_one(alloc, shelf, table, &stored[at], query, pass) {
            Ok(()) => {}
            Err(fault) => return Err(fault_at(most, at as u32, fault)),
        }
    }
    Ok(())
}

// Adds the rows of a segment, and its line where that is wanted.
fn pass_one<S: Shelf>(
    alloc: Global,
    shelf: &mut S,
    table: &Table,
    segment: &Stored,
    query: &BoundQuery,
    pass: &mut Pass,
) -> Result<(), EngineFault>
    requires of_table { IsQueryOf query.now table.now segment.now }
    requires pooled { IsTableIn pass.old.groups pass.old.pool }
    requires room { HasRoomFor query.now (kept_by pass.old) }
    ensures adds { AddsSegment query.now table.now segment.now (kept_by pass.old) (kept_by pass.new)
        (seen S.Shelf shelf.old) (seen S.Shelf shelf.new) result }
    ensures lines { OnOk result (pass.old.wants_lines ≡ true →
        AddsLine (stats_line query.now table.now) table.now (S.held shelf.old) segment.now
        pass.old.lines.items pass.new.lines.items) }
    ensures wants { pass.new.wants_lines ≡ pass.old.wants_lines }
    ensures stays { StaysIn pass.old.groups pass.old.pool pass.new.groups pass.new.pool }
{
    let done = match add_segment(
        &mut pass.rooms,
        shelf,
        table,
        segment,
        query,
        &mut pass.groups,
        &mut pass.pool,
    ) {
        Ok(done) => done,
        Err(fault) => return Err(fault),
    };
    push_if(alloc, pass.wants_lines, segment, &done, &mut pass.lines)?;
    Ok(())
}

// Adds the line of a segment, if that is wanted.
fn push_if(
    alloc: Global,
    wanted: bool,
    segment: &Stored,
    done: &Scanned,
    lines: &mut Vec<u8>,
) -> Result<(), AllocError>
    ensures { OnOk result (wanted ≡ true → lines.new.items
        ≡ lines.old.items ++ line_by segment.now.name (stats_text done.now.plan done.now.docs)) }
{
    if !wanted {
        return Ok(());
    }
    lines.extend_from_slice(segment.name.as_slice())?;
    lines.push(b',')?;
    push_word(alloc, &done.plan, lines)?;
    lines.push(b',')?;
    let digits = done.docs.to_string(alloc)?;
    lines.extend_from_slice(digits.as_bytes())?;
    lines.push(b'\n')?;
    Ok(())
}
