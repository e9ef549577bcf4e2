//! Slots for keys that are numbers: rows of one number come into one slot.

ghost use Rattle.std.specs.Prelude.{◌≡◌, ◌≤◌, ◌<◌, ◌*◌, ◌+◌, ◌^◌, ◌++◌, ◌∷◌, [], length, get_or};
ghost use Rattle.std.specs.Prelude.{IfOk, nat_eq, slice_index};
ghost use Rattle.std.specs.HashMap.{get};
ghost use Rattle.coded_columns.specs.Coded.{most_rows};
ghost use Rattle.coded_columns.specs.Slots.{AreRanked, AreSlotted, GivesSlot, led_by, packed};

use crate::placed_ids::PlacedIds;
use std::alloc::Global;
use std::collections::HashMap;
use values::NoMemory;

/// Up to so many keys, and so many a row, a table leads from each to its slot.
const MOST_IN_TABLE: usize = 1_048_576;

const KEYS_A_ROW: usize = 4;

/// Parts the slots of rows by their ids in one column more, and gives the first row of each.
pub fn refine(
    alloc: Global,
    slots: &mut [u32],
    count: usize,
    column: PlacedIds<'_>,
) -> Result<Vec<u32>, NoMemory>
    requires { AreSlotted count slots.old column.places.now }
    ensures { IfOk result (λ firsts. AreRanked (packed slots.old column.entry.width
        column.entry.ids.now column.entry.places.now) (length slots.old) slots.new firsts.items) }
{
    let keys = count * column.width;
    if keys <= MOST_IN_TABLE && keys / KEYS_A_ROW <= slots.len() {
        let mut table = vec![in alloc; 0u32; keys]?;
        return refine_by_table(alloc, slots, &mut table, count, column);
    }
    let mut map = HashMap::new(alloc);
    let mut firsts = Vec::new(alloc);
    let ids = column.ids.slices();
    for k in 0..slots.len() {
        let id = ids.at(column.places[k] as usize);
        let key = key_of(slots[k], column.width, id);
        slots[k] = slot_in_map(&mut map, &mut firsts, key as u64, k as u32)?;
    }
    Ok(firsts)
}

// The same by a table that leads from no key to a slot yet.
fn refine_by_table(
    alloc: Global,
    slots: &mut [u32],
    table: &mut [u32],
    count: usize,
    column: PlacedIds<'_>,
) -> Result<Vec<u32>, NoMemory>
    requires slots { AreSlotted count slots.old column.places.now }
    requires few_keys { count * column.width ≤ most_rows }
    requires room { length table.old ≡ count * column.width }
    requires empty { (key : _) → get_or table.old key 0 ≡ 0 }
    ensures { IfOk result (λ firsts. AreRanked (packed slots.old column.entry.width
        column.entry.ids.now column.entry.places.now) (length slots.old) slots.new firsts.items) }
{
    let mut firsts = Vec::new(alloc);
    let ids = column.ids.slices();
    for k in 0..slots.len() {
        let id = ids.at(column.places[k] as usize);
        let key = key_of(slots[k], column.width, id);
        slots[k] = slot_in_table(table, &mut firsts, key, k as u32)?;
    }
    Ok(firsts)
}

// A slot and an id as one number.
#[inline(always)]
fn key_of(slot: u32, width: usize, id: u32) -> usize
    requires slot { slot < 2 ^ 21 }
    requires width { width < 2 ^ 21 }
    ensures { result ≡ slot * width + id }
{
    slot as usize * width + id as usize
}

// The slot of a key: a new one where the table leads to none.
#[inline(always)]
fn slot_in_table(
    table: &mut [u32],
    firsts: &mut Vec<u32>,
    key: usize,
    at: u32,
) -> Result<u32, NoMemory>
    requires key { key < length table.old }
    requires at_most { length firsts.old.items < most_rows }
    requires leads { slice_index table.old key ≤ length firsts.old.items }
    ensures slot { IfOk result (λ slot. GivesSlot (λ q. get_or table.old q 0)
        (λ q. get_or table.new q 0)
        key at slot firsts.old.items firsts.new.items) }
    ensures room { length table.new ≡ length table.old }
{
    let next = table[key];
    if next != 0 {
        return Ok(next - 1);
    }
    let slot = firsts.len() as u32;
    firsts.push(at)?;
    table[key] = slot + 1;
    Ok(slot)
}

// The slot of a key: a new one where the map has none.
fn slot_in_map(
    map: &mut HashMap<u64, u32>,
    firsts: &mut Vec<u32>,
    key: u64,
    at: u32,
) -> Result<u32, NoMemory>
    requires { length firsts.old.items < most_rows }
    ensures { IfOk result (λ slot. GivesSlot (λ q. led_by (get nat_eq map.old q))
        (λ q. led_by (get nat_eq map.new q)) key at slot firsts.old.items firsts.new.items) }
{
    if let Some(slot) = map.get(&key).copied() {
        return Ok(slot);
    }
    let slot = firsts.len() as u32;
    firsts.push(at)?;
    map.insert(key, slot)?;
    Ok(slot)
}
