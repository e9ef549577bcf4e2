//! Documents that were selected are merged by their ids, and then into groups: a key for each.

ghost use Rattle.std.specs.Prelude.{◌≡◌, ◌^◌, ◌<◌, ◌≤◌, Err, IfOk, MatchOption, OnErr, OnOk, drop, length};
ghost use Rattle.std.specs.FinMap as finite;
ghost use Rattle.agg_laws.specs.Numbers.{most_stored};
ghost use Rattle.agg_laws.specs.Rows.{row_weight};
ghost use Rattle.state_columns.specs.Docs.{HaveShape, doc_at};
ghost use Rattle.agg_laws.specs.Merged.{weights};
ghost use Rattle.group_table.specs.declared.fault.TableFault.TheVariants.{TooManyGroups};
ghost use Rattle.group_table.specs.Kept.{IsNewKey, Merges, groups_in};
ghost use Rattle.group_table.specs.Pooled.{IsKeyAt, IsTableIn, StaysIn, in_pool};
ghost use Rattle.group_table.specs.Groups.{with_entries};
ghost use Rattle.star_reader.specs.Entries.{MergesEntries};
ghost use Rattle.star_reader.specs.Selected.{key_values, keyed};
ghost use Rattle.star_answer.specs.Merging.{CanMerge, CanMergeOne, HasKeyAt};

use group_table::{GroupTable, SlotPool, TableFault};
use star_reader::{GroupColumn, is_key, key_at};
use star_table::StarTable;
use state_columns::StateRow;
use std::alloc::Global;
use std::mem::replace;
use values::{NoMemory, Row};

// Room for the key and the states of a document, and the place of the group that is looked at first
// for the key of the next one: documents come in the order of their keys, and most groups began in
// it.
#[derive(Drop)]
struct KeyRoom {
    key: Row,
    states: StateRow,
    next: u32,
}

impl KeyRoom {
    // Room for the first document.
    fn new(alloc: Global) -> KeyRoom {
        KeyRoom {
            key: Row::new(alloc),
            states: StateRow::new(alloc),
            next: 0,
        }
    }
}

/// Merges documents that were selected into the groups of their keys: one after the other where no
/// two have the same ids, else merged by their ids first.
pub(crate) fn merge_documents(
    alloc: Global,
    columns: &[GroupColumn<'_>],
    selected: StarTable,
    groups: &mut GroupTable,
    pool: &mut SlotPool,
) -> Result<(), TableFault>
    requires pooled { IsTableIn groups.old pool.old }
    requires at_most { length selected.docs ≤ most_stored }
    requires merges { CanMerge columns.now selected selected.docs (in_pool groups.old pool.old) }
    ensures ok { OnOk result (MergesEntries (weights row_weight selected.docs)
        (keyed columns.now selected.docs) (in_pool groups.old pool.old) (in_pool groups.new
        pool.new)) }
    ensures full { result ≡ Err TooManyGroups → groups.old.most < finite.len
        (with_entries (groups_in (in_pool groups.old pool.old)) (keyed columns.now selected.docs)) }
    ensures filled { result ≡ Err TooManyGroups
        → finite.len (groups_in (in_pool groups.new pool.new)) ≡ groups.old.most }
    ensures stays { StaysIn groups.old pool.old groups.new pool.new }
{
    if are_apart(&selected) {
        return merge_last(alloc, columns, &selected, 0, groups, pool);
    }
    merge_alike(alloc, columns, selected, groups, pool)
}

// Whether the ids of documents ascend, so that no two have the same. Which way they are merged is a
// matter of time alone, so nothing is said of it.
fn are_apart(selected: &StarTable) -> bool
    requires { length selected.now.docs < 2 ^ 32 }
{
    for at in 1..selected.len() as u32 {
        if !is_after_last(selected, at) {
            return false;
        }
    }
    true
}

// Whether the ids of a document are above those of the one before it.
fn is_after_last(selected: &StarTable, at: u32) -> bool
    requires { at < length selected.now.docs }
{
    let last = at.saturating_sub(1);
    for level in 0..selected.dims() {
        let order = selected.dim(last, level).cmp(&selected.dim(at, level));
        if order.is_ne() {
            return order.is_lt();
        }
    }
    false
}

// Merges documents that were selected by their ids, and these into the groups of their keys.
fn merge_alike(
    alloc: Global,
    columns: &[GroupColumn<'_>],
    selected: StarTable,
    groups: &mut GroupTable,
    pool: &mut SlotPool,
) -> Result<(), TableFault>
    requires pooled { IsTableIn groups.old pool.old }
    requires at_most { length selected.docs ≤ most_stored }
    requires merges { CanMerge columns.now selected selected.docs (in_pool groups.old pool.old) }
    ensures ok { OnOk result (MergesEntries (weights row_weight selected.docs)
        (keyed columns.now selected.docs) (in_pool groups.old pool.old) (in_pool groups.new
        pool.new)) }
    ensures full { result ≡ Err TooManyGroups → groups.old.most < finite.len
        (with_entries (groups_in (in_pool groups.old pool.old)) (keyed columns.now selected.docs)) }
    ensures filled { result ≡ Err TooManyGroups
        → finite.len (groups_in (in_pool groups.new pool.new)) ≡ groups.old.most }
    ensures stays { StaysIn groups.old pool.old groups.new pool.new }
{
    let mut selected = selected;
    let count = selected.len() as u32;
    selected.reserve(count)?;
    selected.append_merged(0, count)?;
    merge_last(alloc, columns, &selected, count, groups, pool)
}

// Merges the last documents of a table, as many as there are from a number on, into the groups of
// their keys.
fn merge_last(
    alloc: Global,
    columns: &[GroupColumn<'_>],
    selected: &StarTable,
    from: u32,
    groups: &mut GroupTable,
    pool: &mut SlotPool,
) -> Result<(), TableFault>
    requires pooled { IsTableIn groups.old pool.old }
    requires at_most { length selected.now.docs < 2 ^ 32 }
    requires from { from ≤ length selected.now.docs }
    requires merges { CanMerge columns.now selected.now (drop from selected.now.docs) (in_pool
        groups.old pool.old) }
    ensures ok { OnOk result (MergesEntries (weights row_weight (drop from selected.now.docs))
        (keyed columns.now (drop from selected.now.docs)) (in_pool groups.old pool.old) (in_pool
        groups.new pool.new)) }
    ensures full { result ≡ Err TooManyGroups → groups.old.most < finite.len
        (with_entries
        (groups_in (in_pool groups.old pool.old)) (keyed columns.now (drop from
        selected.now.docs))) }
    ensures filled { result ≡ Err TooManyGroups
        → finite.len (groups_in (in_pool groups.new pool.new)) ≡ groups.old.most }
    ensures stays { StaysIn groups.old pool.old groups.new pool.new }
{
    let mut room = KeyRoom::new(alloc);
    for at in from..selected.len() as u32 {
        fill_states(selected, at, &mut room.states)?;
        if let Err(fault) = merge_document(alloc, columns, selected, at, &mut room, groups, pool) {
            return Err(fault);
        }
    }
    Ok(())
}

// Merges a document, whose states are in the room, into the group of its key.
fn merge_document(
    alloc: Global,
    columns: &[GroupColumn<'_>],
    selected: &StarTable,
    at: u32,
    room: &mut KeyRoom,
    groups: &mut GroupTable,
    pool: &mut SlotPool,
) -> Result<(), TableFault>
    requires pooled { IsTableIn groups.old pool.old }
    requires merges { CanMergeOne columns.now selected.now at room.old.states
        (in_pool groups.old pool.old) }
    ensures ok { OnOk result (Merges (key_values columns.now (doc_at selected.now.docs at).0)
        room.old.states (in_pool groups.old pool.old) (in_pool groups.new pool.new)) }
    ensures stays { StaysIn groups.old pool.old groups.new pool.new }
    ensures full { let old = in_pool groups.old pool.old in result ≡ Err TooManyGroups
        → IsNewKey old (key_values columns.now (doc_at selected.now.docs at).0)
        × (finite.len (groups_in old) ≡ old.most) }
    ensures err { OnErr result ((groups.new ≡ groups.old) × (pool.new ≡ pool.old)) }
{
    let next = room.next;
    let known = match known_place(alloc, columns, selected, at, next, groups, &mut room.key) {
        Ok(known) => known,
        Err(_) => return Err(TableFault::NoMemory),
    };
    if let Some(place) = known {
        groups.merge_at(pool, place, &room.states);
        room.next = place + 1;
        return Ok(());
    }
    let last = next == groups.groups();
    groups.merge_row(alloc, pool, &room.key, &room.states)?;
    if last {
        room.next = groups.groups();
    }
    Ok(())
}

// The place of the group of a document's key, where it is found. The group at the next place is
// looked at first; if it has another key, the document's is put into a row and looked for among
// all. Past the last group it is not looked for, since it is most likely new.
fn known_place(
    alloc: Global,
    columns: &[GroupColumn<'_>],
    selected: &StarTable,
    at: u32,
    next: u32,
    groups: &GroupTable,
    key: &mut Row,
) -> Result<Option<u32>, NoMemory>
    requires table { (pool : _) × IsTableIn groups.now pool }
    requires columns { groups.now.columns ≡ length columns.now }
    requires keyed { HasKeyAt columns.now selected.now at }
    ensures { let own = key_values columns.now (doc_at selected.now.docs at).0 in IfOk result
        (λ known. MatchOption known (key.new ≡ own) (IsKeyAt groups.now own)) }
{
    if next < groups.groups() && is_key(columns, selected, at, groups.key_at(next)) {
        return Ok(Some(next));
    }
    let room = replace(key, Row::new(alloc));
    *key = key_at(alloc, columns, selected, at, room)?;
    if next == groups.groups() {
        return Ok(None);
    }
    Ok(groups.find(key))
}

// Puts the states of a document into a row in the place of others.
fn fill_states(selected: &StarTable, at: u32, states: &mut StateRow) -> Result<(), NoMemory>
    requires at { at < length selected.now.docs }
    requires shape { HaveShape selected.now.dims selected.now.kinds selected.now.docs }
    requires at_most { length selected.now.kinds ≤ 16 }
    ensures { OnOk result (states.new ≡ (doc_at selected.now.docs at).1) }
{
    states.clear();
    for pair in 0..selected.kinds().len() {
        states.push(selected.state(at, pair as u8))?;
    }
    Ok(())
}
