//! What is kept of rows by their keys is merged into the groups of a query.

ghost use Rattle.std.specs.Prelude.{◌≡◌, ◌<◌, ◌-◌, List, ℕ, Err, IfOk, MatchOption, OnErr, OnOk, Some, length, slice_get};
ghost use Rattle.std.specs.Bool.{OnTrue};
ghost use Rattle.std.specs.FinMap as finite;
ghost use Rattle.agg_laws.specs.Numbers.{most_values};
ghost use Rattle.group_table.specs.declared.fault.TableFault.TheVariants.{TooManyGroups};
ghost use Rattle.group_table.specs.Kept.{IsNewKey, IsTableOf, Merges, groups_in};
ghost use Rattle.group_table.specs.Pooled.{IsKeyAt, IsTableIn, StaysIn, in_pool};
ghost use Rattle.scan_engine.specs.Scanned.{HaveAtMost};
ghost use Rattle.coded_columns.specs.Keyed.{HoldsKeys, HoldsRows};
ghost use Rattle.coded_columns.specs.Keys.{AreIdsOfRow, IsIdOfRow};
ghost use Rattle.coded_scan.specs.Added.{AddsOrFills};
ghost use Rattle.coded_scan.specs.KeysOfIds.{CanMergeIds, OfId, OfKey};
ghost use Rattle.coded_scan.specs.Passed.{MayMerge, passed, passed_rows, run_of};

use crate::filtered_rows::FilteredRows;
use crate::guesses::{guess, hash_of, note};
use coded_columns::{KeyedRows, SegmentColumns};
use dictionary::Dictionary;
use group_table::{GroupTable, SlotPool, TableFault};
use state_columns::StateRow;
use std::alloc::Global;
use std::mem::replace;
use table_schema::BoundQuery;
use values::{NoMemory, Row, Value};

// At most so many values are kept for the next keys. It is a power of two.
const MOST_VALUES: usize = 8192;

// How often the place after the last group was right is counted up to so many, and down where it
// was wrong. Above half of it that place is looked at first.
const MOST_NEAR: u8 = 3;

// Room for the key and the states of one group after another, and where groups are looked for
// first.
#[derive(Drop)]
struct GroupRoom {
    alloc: Global,
    ids: Vec<u32>,
    made: MadeKey,
    states: StateRow,
    places: Vec<u64>,
    next: u32,
    near: u8,
}

// A key that was made of values, and values of earlier keys, which are shared.
#[derive(Drop)]
struct MadeKey {
    key: Row,
    values: Vec<Option<Value>>,
}

// Where the group of a key is looked for first: after the group of the last key, since keys come in
// the order of their ids, and at the place that is noted for ids of its hash. The first of the two
// is the one that was right before.
#[derive(Clone, Copy)]
struct Likely<'a> {
    next: u32,
    is_near: bool,
    places: &'a [u64],
    hash: u64,
}

impl GroupRoom {
    // Room with the places that are noted.
    fn new(alloc: Global, places: Vec<u64>) -> GroupRoom {
        GroupRoom {
            alloc,
            ids: Vec::new(alloc),
            made: MadeKey {
                key: Row::new(alloc),
                values: Vec::new(alloc),
            },
            states: StateRow::new(alloc),
            places,
            next: 0,
            near: MOST_NEAR,
        }
    }

    // Whether the next place is most likely right.
    fn is_near(&self) -> bool {
        self.near > MOST_NEAR / 2
    }

    // Notes where the group of ids of this hash was, unless it was looked for at the next place
    // first and was there.
    fn meet(&mut self, hash: u64, place: u32) {
        let is_next = place == self.next;
        if !is_next || !self.is_near() {
            note(&mut self.places, hash, place);
        }
        self.near = if is_next {
            self.near.saturating_add(1).min(MOST_NEAR)
        } else {
            self.near.saturating_sub(1)
        };
        self.next = place.wrapping_add(1);
    }

    // Notes that the last of so many groups is that of ids of this hash.
    fn begin(&mut self, hash: u64, groups: u32) {
        note(&mut self.places, hash, groups.wrapping_sub(1));
        if self.next.wrapping_add(1) == groups {
            self.next = groups;
        }
    }
}

/// Merges the states of each key into its group. Where ids had their groups before is looked at
/// first, and where they have them now is noted.
pub fn merge_keys(
    alloc: Global,
    query: &BoundQuery,
    rows: FilteredRows<'_, '_>,
    keyed: &KeyedRows,
    places: &mut Vec<u64>,
    table: &mut GroupTable,
    pool: &mut SlotPool,
) -> Result<(), TableFault>
    requires pooled { IsTableIn table.old pool.old }
    requires table { IsTableOf query.now (in_pool table.old pool.old) }
    requires fits { HaveAtMost (most_values - rows.segment.now.count) (groups_in (in_pool table.old
        pool.old)) }
    requires holds { HoldsRows rows.segment.now query.now.groups query.now.aggs (passed rows)
        keyed.now }
    ensures adds { AddsOrFills query.now rows.entry.segment.now.count (passed_rows rows.entry)
        (in_pool table.old pool.old) (in_pool table.new pool.new) result }
    ensures stays { StaysIn table.old pool.old table.new pool.new }
{
    let mut room = GroupRoom::new(alloc, replace(places, Vec::new(alloc)));
    for key in 0..keyed.firsts.len() {
        match merge_key(query, rows, keyed, key, &mut room, table, pool) {
            Ok(()) => {}
            Err(fault) => return Err(fault),
        }
    }
    *places = room.places;
    Ok(())
}

// Merges the states of a key into its group, if some row has the key. The key's ids and states are
// put in place of others.
fn merge_key(
    query: &BoundQuery,
    rows: FilteredRows<'_, '_>,
    keyed: &KeyedRows,
    key: usize,
    room: &mut GroupRoom,
    table: &mut GroupTable,
    pool: &mut SlotPool,
) -> Result<(), TableFault>
    requires pooled { IsTableIn table.old pool.old }
    requires table { IsTableOf query.now (in_pool table.old pool.old) }
    requires key { key < length keyed.now.firsts.items }
    requires may { MayMerge query.now rows keyed.now key (in_pool table.old pool.old) }
    ensures adds { (keys : List ℕ) → HoldsKeys rows.entry.segment.now query.now.groups
        query.now.aggs
        keys (passed rows.entry) keyed.now
        → AddsOrFills query.now (length (run_of rows.entry keys key)) (run_of rows.entry keys key)
        (in_pool table.old pool.old) (in_pool table.new pool.new) result }
    ensures stays { StaysIn table.old pool.old table.new pool.new }
{
    let first = keyed.firsts[key];
    if first == 0 {
        return Ok(());
    }
    let columns = query.groups.as_slice();
    keyed.fill_ids(rows.segment, columns, key, &mut room.ids)?;
    keyed.fill_states(key, &mut room.states)?;
    if let Err(fault) = merge_ids(rows.segment, columns, room, table, pool) {
        return Err(fault);
    }
    Ok(())
}

// Merges states into the group of the key of some ids, all of which are in the room.
fn merge_ids(
    segment: &SegmentColumns<'_>,
    columns: &[u16],
    room: &mut GroupRoom,
    table: &mut GroupTable,
    pool: &mut SlotPool,
) -> Result<(), TableFault>
    requires pooled { IsTableIn table.old pool.old }
    requires merges { CanMergeIds segment.now columns.now room.old.ids.items room.old.states
        (in_pool table.old pool.old) }
    ensures ok { OnOk result (OfKey segment.now columns.now room.old.ids.items (λ key.
        Merges key room.old.states (in_pool table.old pool.old) (in_pool table.new pool.new))) }
    ensures stays { StaysIn table.old pool.old table.new pool.new }
    ensures full { let old = in_pool table.old pool.old in result ≡ Err TooManyGroups
        → OfKey segment.now columns.now room.old.ids.items (IsNewKey old)
        × (finite.len (groups_in old) ≡ old.most) }
    ensures err { OnErr result ((table.new ≡ table.old) × (pool.new ≡ pool.old)) }
{
    let hash = hash_of(&room.ids);
    let likely = Likely {
        next: room.next,
        is_near: room.is_near(),
        places: &room.places,
        hash,
    };
    let alloc = room.alloc;
    let known = match known_place(
        alloc,
        segment,
        columns,
        &room.ids,
        likely,
        table,
        &mut room.made,
    ) {
        Ok(known) => known,
        Err(_) => return Err(TableFault::NoMemory),
    };
    if let Some(place) = known {
        table.merge_at(pool, place, &room.states);
        room.meet(hash, place);
        return Ok(());
    }
    table.merge_row(alloc, pool, &room.made.key, &room.states)?;
    room.begin(hash, table.groups());
    Ok(())
}

// The place of the group of the key of some ids, where it is found. The groups at the likely places
// are looked at first; if these have other keys, that of the ids is put into a row and looked for
// among all. Past the last group it is not looked for, since it is most likely new.
fn known_place(
    alloc: Global,
    segment: &SegmentColumns<'_>,
    columns: &[u16],
    ids: &[u32],
    likely: Likely<'_>,
    table: &GroupTable,
    made: &mut MadeKey,
) -> Result<Option<u32>, NoMemory>
    requires table { (pool : _) × IsTableIn table.now pool }
    requires columns { table.now.columns ≡ length columns.now }
    requires row { AreIdsOfRow segment.now columns.now ids.now }
    ensures { IfOk result (λ known. OfKey segment.now columns.now ids.now (λ own.
        MatchOption known (made.new.key ≡ own) (IsKeyAt table.now own))) }
{
    if likely.is_near && has_key(segment, columns, ids, table, likely.next) {
        return Ok(Some(likely.next));
    }
    if let Some(place) = guess(likely.places, likely.hash) {
        if has_key(segment, columns, ids, table, place) {
            return Ok(Some(place));
        }
    }
    if !likely.is_near && has_key(segment, columns, ids, table, likely.next) {
        return Ok(Some(likely.next));
    }
    let room = replace(&mut made.key, Row::new(alloc));
    let key = key_by_ids(alloc, segment, columns, ids, room, &mut made.values)?;
    made.key = key;
    if likely.next == table.groups() {
        return Ok(None);
    }
    Ok(table.find(&made.key))
}

// Whether there is a group at a place and it has the key of some ids.
fn has_key(
    segment: &SegmentColumns<'_>,
    columns: &[u16],
    ids: &[u32],
    table: &GroupTable,
    place: u32,
) -> bool
    requires table { (pool : _) × IsTableIn table.now pool }
    requires columns { table.now.columns ≡ length columns.now }
    requires row { AreIdsOfRow segment.now columns.now ids.now }
    ensures { OnTrue result (OfKey segment.now columns.now ids.now (λ own.
        IsKeyAt table.now own place)) }
{
    if place < table.groups() && is_key(segment, columns, ids, table.key_at(place)) {
        return true;
    }
    false
}

// Whether a row is the key of some ids. No text is copied.
fn is_key(segment: &SegmentColumns<'_>, columns: &[u16], ids: &[u32], key: &Row) -> bool
    requires same { length ids.now ≡ length columns.now }
    requires key { length key.now ≡ length columns.now }
    requires row { AreIdsOfRow segment.now columns.now ids.now }
    ensures { OnTrue result (OfKey segment.now columns.now ids.now (λ own. key.now ≡ own)) }
{
    for at in 0..columns.len() {
        if !is_value(segment, columns[at], ids[at], key.at(at)) {
            return false;
        }
    }
    true
}

// Whether a value is that of an id in a field that is looked at.
#[inline(always)]
fn is_value(segment: &SegmentColumns<'_>, field: u16, id: u32, value: &Value) -> bool
    requires { IsIdOfRow segment.now field id }
    ensures { OnTrue result (OfId segment.now field id (λ own. value.now ≡ own)) }
{
    match segment.at(field) {
        Some(column) => has_value(column.dictionary, id, value),
        None => false,
    }
}

// Whether a value is the one at an id.
#[inline(always)]
fn has_value(dictionary: &Dictionary, id: u32, value: &Value) -> bool
    requires { id < length dictionary.now.values }
    ensures { OnTrue result (slice_get dictionary.now.values id ≡ Some value.now) }
{
    match value {
        Value::Whole(number) => match dictionary.numbers() {
            Some(numbers) => numbers[id as usize] == *number,
            None => false,
        },
        Value::Text(text) => match dictionary.bytes_at(id) {
            Some(own) => own == text.as_slice(),
            None => false,
        },
    }
}

// The key of the rows that have these ids in the group columns, in place of the values of another.
// Its values are shared with those that are kept.
fn key_by_ids(
    alloc: Global,
    segment: &SegmentColumns<'_>,
    columns: &[u16],
    ids: &[u32],
    room: Row,
    values: &mut Vec<Option<Value>>,
) -> Result<Row, NoMemory>
    requires same { length ids.now ≡ length columns.now }
    requires row { AreIdsOfRow segment.now columns.now ids.now }
    ensures { IfOk result (λ key. OfKey segment.now columns.now ids.now (λ own. key ≡ own)) }
{
    let mut key = room.into_vec();
    key.clear();
    for at in 0..columns.len() {
        let place = place_for(columns.len(), at, ids[at]);
        let value = shared_value(alloc, segment, columns[at], ids[at], values, place)?;
        key.push(value)?;
    }
    Ok(Row::from_vec(key))
}

// Where the value of an id in one of so many columns is kept.
fn place_for(columns: usize, at: usize, id: u32) -> usize {
    (id as usize).wrapping_mul(columns).wrapping_add(at) & (MOST_VALUES - 1)
}

// The value of the rows that have this id in a field: a copy of the one that is kept at a place, if
// that is it. Else it is kept there.
fn shared_value(
    alloc: Global,
    segment: &SegmentColumns<'_>,
    field: u16,
    id: u32,
    values: &mut Vec<Option<Value>>,
    place: usize,
) -> Result<Value, NoMemory>
    requires { IsIdOfRow segment.now field id }
    ensures { IfOk result (λ value. OfId segment.now field id (λ own. value ≡ own)) }
{
    if let Some(kept) = kept_at(values, place) {
        if is_value(segment, field, id, kept) {
            return kept.copy(alloc);
        }
    }
    let value = value_of(alloc, segment, field, id)?;
    keep(values, place, value.copy(alloc)?)?;
    Ok(value)
}

// The value that is kept at a place, if there is one.
fn kept_at(values: &[Option<Value>], place: usize) -> Option<&Value> {
    values.get(place)?.as_ref()
}

// Keeps a value at a place.
fn keep(values: &mut Vec<Option<Value>>, place: usize, value: Value) -> Result<(), NoMemory> {
    for _ in values.len()..place.saturating_add(1) {
        values.push(None)?;
    }
    if let Some(kept) = values.get_mut(place) {
        *kept = Some(value);
    }
    Ok(())
}

// The value of the rows that have this id in a field.
fn value_of(
    alloc: Global,
    segment: &SegmentColumns<'_>,
    field: u16,
    id: u32,
) -> Result<Value, NoMemory>
    requires { IsIdOfRow segment.now field id }
    ensures { IfOk result (λ value. OfId segment.now field id (λ own. value ≡ own)) }
{
    match segment.at(field) {
        Some(column) => column.dictionary.value_at(alloc, id),
        None => Ok(Value::Whole(0)),
    }
}
