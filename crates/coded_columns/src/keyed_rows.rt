//! What is kept of a segment's rows by their keys.

ghost use Rattle.std.specs.Prelude.{◌≡◌, ◌<◌, ◌+◌, ◌-◌, ℕ, [], IfOk, OnOk, get_or, length, map};
ghost use Rattle.std.specs.Bool.{OnTrue};
ghost use Rattle.std.specs.List.{All};
ghost use Rattle.value_ids.specs.Coding.{AreBelow};
ghost use Rattle.coded_columns.specs.Coded.{most_rows};
ghost use Rattle.coded_columns.specs.Keyed.{AddsAgg, AddsPlaces, AllAdd, AreOfRows, HoldAggs, HoldsPacked, HoldsRows, IsKept, MeetsRow, SetsFirst, TakeKeys, TakesKeys, TakesRows, rows_in, size_in, state_in};
ghost use Rattle.coded_columns.specs.Keys.{AreIdsAt, AreKeys, key_at};

use crate::coded::SegmentColumns;
use crate::counting::count_keys;
use crate::key_ids::{put_digits, put_row};
use crate::key_states::KeyStates;
use crate::keys::pack_keys;
use crate::placed_rows::PlacedRows;
use crate::row_numbers::RowNumbers;
use crate::slots::{Slots, slots_of};
use state_columns::StateRow;
use std::alloc::Global;
use table_schema::Agg;
use values::NoMemory;

/// The numbers of so many rows are kept at once.
const PART: usize = 4096;

/// For each key of the rows that were added one more than the place of such a row, or 0 where none
/// has it, and the states of the aggregates. Keys are the packed ids of rows, or slots.
#[derive(Drop)]
pub struct KeyedRows {
    pub are_packed: bool,
    pub firsts: Vec<u32>,
    pub aggs: Vec<KeyStates>,
}

/// Room for the keys and the numbers of rows that are added.
#[derive(Drop)]
pub struct KeyRoom {
    pub keys: Vec<u32>,
    pub numbers: RowNumbers,
}

impl KeyRoom {
    /// Room that takes no memory yet.
    pub fn new(alloc: Global) -> KeyRoom {
        KeyRoom {
            keys: Vec::new(alloc),
            numbers: RowNumbers::new(alloc),
        }
    }
}

impl KeyedRows {
    /// No rows, of which there may be so many keys.
    pub fn new(alloc: Global, aggs: &[Agg], size: usize) -> Result<KeyedRows, NoMemory>
        ensures { IfOk result (λ rows. (segment : _) (groups : _) → AreKeys segment groups size
            → HoldsPacked segment groups aggs.now [] rows) }
    {
        let firsts = zeros(alloc, size)?;
        let aggs = units_of(alloc, aggs, size)?;
        Ok(KeyedRows {
            are_packed: true,
            firsts,
            aggs,
        })
    }

    /// Adds some rows by their ids in the group columns.
    pub fn add(
        &mut self,
        placed: PlacedRows<'_, '_>,
        groups: &[u16],
        aggs: &[Agg],
        room: &mut KeyRoom,
    ) -> Result<(), NoMemory>
        requires { TakesRows placed.segment.now groups.now aggs.now (length placed.places.now)
            self.old }
        ensures { OnOk result (AddsPlaces placed.entry aggs.now
            (map (key_at placed.entry.segment.now groups.now) placed.entry.places.now)
            self.old self.new) }
    {
        pack_keys(placed, groups, &mut room.keys)?;
        set_firsts(&mut self.firsts, &room.keys, placed);
        add_all(&mut self.aggs, placed, aggs, &room.keys, &mut room.numbers)
    }

    /// What is kept of some rows, by slots for their values in the group columns.
    pub fn by_slots(
        alloc: Global,
        placed: PlacedRows<'_, '_>,
        groups: &[u16],
        aggs: &[Agg],
    ) -> Result<KeyedRows, NoMemory>
        ensures { IfOk result (HoldsRows placed.entry.segment.now groups.now aggs.now
            placed.entry.places.now) }
    {
        if placed.places.is_empty() {
            let aggs = units_of(alloc, aggs, 0)?;
            let firsts = Vec::new(alloc);
            return Ok(KeyedRows {
                are_packed: false,
                firsts,
                aggs,
            });
        }
        let Slots { slots, firsts } = slots_of(alloc, placed, groups)?;
        let states = states_of_slots(alloc, placed, aggs, &slots, firsts.len())?;
        let firsts = places_of_firsts(alloc, placed.places, &firsts)?;
        Ok(KeyedRows {
            are_packed: false,
            firsts,
            aggs: states,
        })
    }

    /// The ids that the rows of a key have in the group columns, in place of others.
    pub fn fill_ids(
        &self,
        segment: &SegmentColumns<'_>,
        groups: &[u16],
        key: usize,
        ids: &mut Vec<u32>,
    ) -> Result<(), NoMemory>
        requires { IsKept segment.now groups.now self.now key }
        ensures { OnOk result (AreIdsAt segment.now groups.now
            (get_or self.now.firsts.items key 0 - 1) ids.new.items) }
    {
        ids.resize(groups.len(), 0)?;
        self.put_ids(segment, groups, key, ids);
        Ok(())
    }

    // The same in room for them: packed ids are told by the key, and those of slots by the row.
    fn put_ids(&self, segment: &SegmentColumns<'_>, groups: &[u16], key: usize, ids: &mut [u32])
        requires same { length ids.old ≡ length groups.now }
        requires kept { IsKept segment.now groups.now self.now key }
        ensures { AreIdsAt segment.now groups.now (get_or self.now.firsts.items key 0 - 1)
            ids.new }
    {
        if self.are_packed {
            put_digits(segment, groups, key as u32, ids);
            return;
        }
        put_row(segment, groups, self.firsts[key] as usize - 1, ids);
    }

    /// Puts the states of a key in place of those of a row.
    pub fn fill_states(&self, key: usize, row: &mut StateRow) -> Result<(), NoMemory>
        requires { All (λ own. key < size_in own) self.now.aggs.items }
        ensures { OnOk result (row.new ≡ map (λ own. state_in own key) self.now.aggs.items) }
    {
        row.clear();
        for own in self.aggs.as_slice() {
            row.push(own.at(key))?;
        }
        Ok(())
    }
}

// So many zeros.
fn zeros(alloc: Global, size: usize) -> Result<Vec<u32>, NoMemory>
    ensures count { IfOk result (λ firsts. length firsts.items ≡ size) }
    ensures each { IfOk result (λ firsts. (k : ℕ) → k < size → get_or firsts.items k 0 ≡ 0) }
{
    let firsts = vec![in alloc; 0u32; size]?;
    Ok(firsts)
}

// For each aggregate so many states of no row.
fn units_of(alloc: Global, aggs: &[Agg], size: usize) -> Result<Vec<KeyStates>, NoMemory>
    ensures { IfOk result (λ owns. HoldAggs size [] [] aggs.now owns.items) }
{
    let mut owns = Vec::with_capacity(alloc, aggs.len())?;
    for agg in aggs {
        owns.push(KeyStates::units(alloc, agg.kind, size)?)?;
    }
    Ok(owns)
}

// Keeps for each key the first row that has it. Where there is one for each already no key is
// looked at.
fn set_firsts(firsts: &mut [u32], keys: &[u32], placed: PlacedRows<'_, '_>)
    requires same { length keys.now ≡ length placed.places.now }
    requires below { AreBelow (length firsts.old) keys.now }
    ensures { (k : ℕ) → SetsFirst (length placed.entry.places.now) keys.now
        placed.entry.places.now k (get_or firsts.old k 0) (get_or firsts.new k 0) }
{
    if firsts.len() <= keys.len() && have_rows(firsts) {
        return;
    }
    let places = placed.places;
    for at in 0..keys.len() {
        meet_row(firsts, keys[at] as usize, places[at]);
    }
}

// Whether there is a row for each key. It looks at each, so that it is done many at a time.
fn have_rows(firsts: &[u32]) -> bool
    ensures { OnTrue result ((k : ℕ) → k < length firsts.now → 0 < get_or firsts.now k 0) }
{
    let mut all = true;
    for at in 0..firsts.len() {
        all &= firsts[at] != 0;
    }
    all
}

// Keeps a row of a key, unless there was one.
#[inline(always)]
fn meet_row(firsts: &mut [u32], key: usize, place: u32)
    requires key { key < length firsts.old }
    requires place { place < most_rows }
    ensures { MeetsRow key place firsts.old firsts.new }
{
    if firsts[key] == 0 {
        firsts[key] = place + 1;
    }
}

// Adds the numbers of rows that have these keys to the states of each aggregate.
fn add_all(
    owns: &mut [KeyStates],
    placed: PlacedRows<'_, '_>,
    aggs: &[Agg],
    keys: &[u32],
    numbers: &mut RowNumbers,
) -> Result<(), NoMemory>
    requires same { length keys.now ≡ length placed.places.now }
    requires takes { TakeKeys aggs.now keys.now owns.old }
    ensures { OnOk result (AllAdd aggs.now keys.now (rows_in placed.entry) owns.old owns.new) }
{
    numbers.forget();
    for at in 0..owns.len() {
        add_agg(&mut owns[at], placed, &aggs[at], keys, numbers)?;
    }
    Ok(())
}

// Adds the numbers of rows that have these keys to the states of one aggregate.
fn add_agg(
    own: &mut KeyStates,
    placed: PlacedRows<'_, '_>,
    agg: &Agg,
    keys: &[u32],
    numbers: &mut RowNumbers,
) -> Result<(), NoMemory>
    requires same { length keys.now ≡ length placed.places.now }
    requires takes { TakesKeys keys.now own.old }
    requires told { AreOfRows (rows_in placed) numbers.old }
    ensures adds { OnOk result (AddsAgg agg.now keys.now (rows_in placed.entry) own.old own.new) }
    ensures told { OnOk result (AreOfRows (rows_in placed.entry) numbers.new) }
{
    if let KeyStates::Counts(counts) = own {
        count_keys(keys, counts);
        return Ok(());
    }
    numbers.read(placed, agg.column)?;
    own.add(keys, &numbers.numbers);
    Ok(())
}

// The states of the aggregates of rows in so many slots.
fn states_of_slots(
    alloc: Global,
    placed: PlacedRows<'_, '_>,
    aggs: &[Agg],
    slots: &[u32],
    count: usize,
) -> Result<Vec<KeyStates>, NoMemory>
    requires same { length slots.now ≡ length placed.places.now }
    requires below { AreBelow count slots.now }
    ensures { IfOk result (λ owns. HoldAggs count slots.now (rows_in placed.entry) aggs.now
        owns.items) }
{
    let mut owns = units_of(alloc, aggs, count)?;
    let mut numbers = RowNumbers::new(alloc);
    let places = placed.places;
    let mut from = 0;
    while from < slots.len() {
        let to = slots.len().min(from + PART);
        let part = PlacedRows {
            segment: placed.segment,
            places: &places[from..to],
        };
        add_all(&mut owns, part, aggs, &slots[from..to], &mut numbers)?;
        from = to;
    }
    Ok(owns)
}

// One more than the place of the first row of each slot.
fn places_of_firsts(alloc: Global, places: &[u32], firsts: &[u32]) -> Result<Vec<u32>, NoMemory>
    requires within { AreBelow (length places.now) firsts.now }
    requires few { AreBelow most_rows places.now }
    ensures { IfOk result (λ own. own.items ≡ map (λ first. get_or places.now first 0 + 1)
        firsts.now) }
{
    let mut own = Vec::with_capacity(alloc, firsts.len())?;
    for first in firsts {
        own.push(places[*first as usize] + 1)?;
    }
    Ok(own)
}
