//! The keys of rows: the ids of a row in the group columns as one number.

ghost use Rattle.std.specs.Prelude.{◌≡◌, ◌≤◌, ◌<◌, ◌+◌, ◌*◌, ◌++◌, ◌∷◌, [], ℕ, List, OnOk, get_or, length, map, nat_eq, take};
ghost use Rattle.std.specs.Bool.{OnTrue};
ghost use Rattle.std.specs.Option.{IfSome};
ghost use Rattle.value_ids.specs.Coding.{AreBelow};
ghost use Rattle.coded_columns.specs.Coded.{column_of, most_rows};
ghost use Rattle.coded_columns.specs.Ids.{seen_ids};
ghost use Rattle.coded_columns.specs.Keys.{AreKeys, ArePackable, key_at, packed_with};
ghost use Rattle.coded_columns.specs.Packing.{AreAfter, Ascend, PacksIds, TakesIds};

use crate::coded::SegmentColumns;
use crate::ids::{IdSlices, Ids};
use crate::placed_rows::PlacedRows;
use values::NoMemory;

/// There are at most so many keys, and one for so many rows: what is kept by keys is then less than
/// what a scan of the rows reads.
const MOST_KEYS: usize = 1_048_576;

const ROWS_A_KEY: usize = 8;

/// How many keys the ids in some group columns can make, unless these may be too many.
pub fn key_count(segment: &SegmentColumns<'_>, groups: &[u16]) -> Option<usize>
    ensures { IfSome result (AreKeys segment.now groups.now) }
{
    let most = MOST_KEYS.min(segment.count / ROWS_A_KEY);
    let mut size = 1;
    for group in groups {
        size = count_with(segment, *group, size);
        if size > most {
            return None;
        }
    }
    Some(size)
}

// How many keys there are with one group column more.
fn count_with(segment: &SegmentColumns<'_>, group: u16, size: usize) -> usize
    requires { size ≤ most_rows }
    ensures { (groups : List ℕ) → AreKeys segment.now groups size → result ≤ most_rows
        → AreKeys segment.now (groups ++ group ∷ []) result }
{
    match segment.at(group) {
        Some(column) => times(size, column.dictionary.count()),
        None => size,
    }
}

// So many times as many.
fn times(size: usize, width: u32) -> usize
    requires { size ≤ most_rows }
    ensures { result ≡ size * width }
{
    size * width as usize
}

/// The keys of rows, in place of others.
pub fn pack_keys(
    placed: PlacedRows<'_, '_>,
    groups: &[u16],
    keys: &mut Vec<u32>,
) -> Result<(), NoMemory>
    requires { ArePackable placed groups.now }
    ensures { OnOk result (keys.new.items
        ≡ map (key_at placed.entry.segment.now groups.now) placed.entry.places.now) }
{
    keys.resize(placed.places.len(), 0)?;
    put_first(placed, groups, keys);
    add_columns(placed, groups, keys);
    Ok(())
}

// Puts the ids of rows in the first group column, or 0 where there is none.
fn put_first(placed: PlacedRows<'_, '_>, groups: &[u16], keys: &mut [u32])
    requires { length keys.old ≡ length placed.places.now }
    ensures same { length keys.new ≡ length keys.old }
    ensures each { (k : ℕ) → k < length placed.entry.places.now → get_or keys.new k 0
        ≡ key_at placed.entry.segment.now (take 1 groups.now)
        (get_or placed.entry.places.now k 0) }
{
    match groups.first() {
        Some(group) => put_column(placed, *group, keys),
        None => put_zeros(keys),
    }
}

// Puts the ids of rows in a column, or 0 where it is not looked at.
fn put_column(placed: PlacedRows<'_, '_>, group: u16, keys: &mut [u32])
    requires { length keys.old ≡ length placed.places.now }
    ensures same { length keys.new ≡ length keys.old }
    ensures each { (k : ℕ) → k < length placed.entry.places.now → get_or keys.new k 0
        ≡ packed_with (column_of placed.entry.segment.now group) 0
        (get_or placed.entry.places.now k 0) }
{
    match placed.segment.at(group) {
        Some(column) => put_ids(keys, column.ids, placed.places),
        None => put_zeros(keys),
    }
}

// Puts zeros.
fn put_zeros(keys: &mut [u32])
    ensures same { length keys.new ≡ length keys.old }
    ensures each { (k : ℕ) → k < length keys.new → get_or keys.new k 0 ≡ 0 }
{
    for k in 0..keys.len() {
        keys[k] = 0;
    }
}

// Puts the ids of rows in a column.
fn put_ids(keys: &mut [u32], ids: &Ids, places: &[u32])
    requires same { length keys.old ≡ length places.now }
    requires ascend { Ascend places.now }
    requires rows { AreBelow (length ids.now) places.now }
    ensures same { length keys.new ≡ length keys.old }
    ensures each { (k : ℕ) → k < length places.now → get_or keys.new k 0
        ≡ get_or ids.now (get_or places.now k 0) 0 }
{
    match first_of(places) {
        Some(first) => put_slices(keys, ids.between(first as usize, places.len())),
        None => put_placed(keys, ids.slices(), places),
    }
}

// Puts the ids of rows that lie one after the other.
fn put_slices(keys: &mut [u32], ids: IdSlices<'_>)
    requires { length keys.old ≡ length (seen_ids ids) }
    ensures same { length keys.new ≡ length keys.old }
    ensures each { (k : ℕ) → k < length keys.new
        → get_or keys.new k 0 ≡ get_or (seen_ids ids.entry) k 0 }
{
    match ids {
        IdSlices::Narrow(ids) => put_narrow(keys, ids),
        IdSlices::Wide(ids) => keys.copy_from_slice(ids),
    }
}

// The same where an id takes two bytes.
fn put_narrow(keys: &mut [u32], ids: &[u16])
    requires { length keys.old ≡ length ids.now }
    ensures same { length keys.new ≡ length keys.old }
    ensures each { (k : ℕ) → k < length keys.new → get_or keys.new k 0 ≡ get_or ids.now k 0 }
{
    for k in 0..keys.len() {
        keys[k] = u32::from(ids[k]);
    }
}

// Puts the ids of rows in any places.
fn put_placed(keys: &mut [u32], ids: IdSlices<'_>, places: &[u32])
    requires same { length keys.old ≡ length places.now }
    requires rows { AreBelow (length (seen_ids ids)) places.now }
    ensures same { length keys.new ≡ length keys.old }
    ensures each { (k : ℕ) → k < length places.now → get_or keys.new k 0
        ≡ get_or (seen_ids ids.entry) (get_or places.now k 0) 0 }
{
    for k in 0..places.len() {
        keys[k] = ids.at(places[k] as usize);
    }
}

// Packs the ids of rows in each other group column after their keys, which are those by the first.
fn add_columns(placed: PlacedRows<'_, '_>, groups: &[u16], keys: &mut [u32])
    requires same { length keys.old ≡ length placed.places.now }
    requires first { (k : ℕ) → k < length placed.places.now → get_or keys.old k 0
        ≡ key_at placed.segment.now (take 1 groups.now) (get_or placed.places.now k 0) }
    requires few { ArePackable placed groups.now }
    ensures { keys.new ≡ map (key_at placed.entry.segment.now groups.now)
        placed.entry.places.now }
{
    for at in 1..groups.len() {
        add_column(placed, groups[at], keys);
    }
}

// Packs the ids of rows in one group column more after their keys, if it is looked at.
fn add_column(placed: PlacedRows<'_, '_>, group: u16, keys: &mut [u32])
    requires same { length keys.old ≡ length placed.places.now }
    requires fits { (k : ℕ) → k < length placed.places.now
        → packed_with (column_of placed.segment.now group) (get_or keys.old k 0)
        (get_or placed.places.now k 0) < most_rows }
    ensures { (k : ℕ) → k < length placed.entry.places.now → get_or keys.new k 0
        ≡ packed_with (column_of placed.entry.segment.now group) (get_or keys.old k 0)
        (get_or placed.entry.places.now k 0) }
{
    match placed.segment.at(group) {
        Some(column) => add_ids(keys, column.dictionary.count(), column.ids, placed.places),
        None => {}
    }
}

// Packs the ids of rows in one column more after their keys.
fn add_ids(keys: &mut [u32], width: u32, ids: &Ids, places: &[u32])
    requires same { length keys.old ≡ length places.now }
    requires ascend { Ascend places.now }
    requires rows { AreBelow (length ids.now) places.now }
    requires fits { (k : ℕ) → k < length places.now
        → get_or keys.old k 0 * width + get_or ids.now (get_or places.now k 0) 0 < most_rows }
    ensures { (k : ℕ) → k < length places.now → get_or keys.new k 0
        ≡ get_or keys.old k 0 * width + get_or ids.now (get_or places.now k 0) 0 }
{
    match first_of(places) {
        Some(first) => add_slices(keys, width, ids.between(first as usize, places.len())),
        None => add_placed(keys, width, ids, places),
    }
}

// The first of some places, if each of the others follows the one before.
fn first_of(places: &[u32]) -> Option<u32>
    requires { Ascend places.now }
    ensures some { IfSome result (λ first. 0 < length places.now) }
    ensures each { IfSome result (AreAfter places.now) }
{
    if places.is_empty() || !follow(places) {
        return None;
    }
    Some(places[0])
}

// Whether places are those from the first on: they ascend, so that the last one tells.
fn follow(places: &[u32]) -> bool
    requires ascend { Ascend places.now }
    requires some { 0 < length places.now }
    ensures { OnTrue result (AreAfter places.now (get_or places.now 0 0)) }
{
    ends_at(places, places.len() - 1)
}

// Whether a place is as far from the first as there are others before it.
fn ends_at(places: &[u32], last: usize) -> bool
    requires { last < length places.now }
    ensures { result ≡ nat_eq (get_or places.now last 0) (get_or places.now 0 0 + last) }
{
    places[last] as usize == places[0] as usize + last
}

// Packs the ids of rows that lie one after the other after their keys.
fn add_slices(keys: &mut [u32], width: u32, ids: IdSlices<'_>)
    requires same { length keys.old ≡ length (seen_ids ids) }
    requires fits { TakesIds width keys.old (seen_ids ids) }
    ensures { PacksIds width (seen_ids ids.entry) keys.old keys.new }
{
    match ids {
        IdSlices::Narrow(ids) => add_narrow(keys, width, ids),
        IdSlices::Wide(ids) => add_wide(keys, width, ids),
    }
}

// The same where an id takes two bytes.
fn add_narrow(keys: &mut [u32], width: u32, ids: &[u16])
    requires same { length keys.old ≡ length ids.now }
    requires fits { TakesIds width keys.old ids.now }
    ensures { PacksIds width ids.now keys.old keys.new }
{
    for k in 0..keys.len() {
        keys[k] = with_id(keys[k], width, u32::from(ids[k]));
    }
}

// The same where an id takes four bytes.
fn add_wide(keys: &mut [u32], width: u32, ids: &[u32])
    requires same { length keys.old ≡ length ids.now }
    requires fits { TakesIds width keys.old ids.now }
    ensures { PacksIds width ids.now keys.old keys.new }
{
    for k in 0..keys.len() {
        keys[k] = with_id(keys[k], width, ids[k]);
    }
}

// Packs the ids of rows in any places after their keys.
fn add_placed(keys: &mut [u32], width: u32, ids: &Ids, places: &[u32])
    requires same { length keys.old ≡ length places.now }
    requires rows { AreBelow (length ids.now) places.now }
    requires fits { (k : ℕ) → k < length places.now
        → get_or keys.old k 0 * width + get_or ids.now (get_or places.now k 0) 0 < most_rows }
    ensures { (k : ℕ) → k < length places.now → get_or keys.new k 0
        ≡ get_or keys.old k 0 * width + get_or ids.now (get_or places.now k 0) 0 }
{
    let slices = ids.slices();
    for k in 0..places.len() {
        let id = slices.at(places[k] as usize);
        keys[k] = with_id(keys[k], width, id);
    }
}

// A key with one id after it.
#[inline(always)]
fn with_id(key: u32, width: u32, id: u32) -> u32
    requires { key * width + id < most_rows }
    ensures { result ≡ key * width + id }
{
    key * width + id
}
