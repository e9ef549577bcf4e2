//! The slots of rows: rows of one key in the group columns have one slot.

ghost use Rattle.std.specs.Prelude.{◌≡◌, ◌<◌, ◌≤◌, ◌∷◌, ◌++◌, [], List, ℕ, length, IfOk};
ghost use Rattle.value_ids.specs.Coding.{AreBelow};
ghost use Rattle.coded_columns.specs.Coded.{table_of};
ghost use Rattle.coded_columns.specs.Slots.{AreSlots};

use crate::placed_ids::PlacedIds;
use crate::placed_rows::PlacedRows;
use crate::ranking::refine;
use std::alloc::Global;
use values::NoMemory;

/// A slot for each of some rows, and for each slot the first of its rows.
#[derive(Drop)]
pub struct Slots {
    pub slots: Vec<u32>,
    pub firsts: Vec<u32>,
}

/// The slots of rows, of which there are some.
pub fn slots_of(
    alloc: Global,
    placed: PlacedRows<'_, '_>,
    groups: &[u16],
) -> Result<Slots, NoMemory>
    requires { 0 < length placed.places.now }
    ensures { IfOk result (λ s. AreSlots (table_of placed.entry.segment.now).columns groups.now
        placed.entry.places.now s.slots.items s.firsts.items) }
{
    let mut slots = vec![in alloc; 0u32; placed.places.len()]?;
    let mut firsts = vec![in alloc; 0u32; 1]?;
    for group in groups {
        firsts = refine_by_field(alloc, placed, *group, &mut slots, firsts)?;
    }
    Ok(Slots { slots, firsts })
}

// Parts the slots of rows by one group column more.
fn refine_by_field(
    alloc: Global,
    placed: PlacedRows<'_, '_>,
    group: u16,
    slots: &mut [u32],
    firsts: Vec<u32>,
) -> Result<Vec<u32>, NoMemory>
    requires count { length slots.old ≡ length placed.places.now }
    requires few_slots { length firsts.items ≤ length placed.places.now }
    requires below { AreBelow (length firsts.items) slots.old }
    ensures { IfOk result (λ more. (groups : List ℕ)
        → AreSlots (table_of placed.entry.segment.now).columns groups placed.entry.places.now
        slots.old firsts.items
        → AreSlots (table_of placed.entry.segment.now).columns (groups ++ group ∷ [])
        placed.entry.places.now slots.new more.items) }
{
    match placed.segment.column(group) {
        Some(column) => {
            let width = column.dictionary.count() as usize;
            let ids = PlacedIds {
                places: placed.places,
                ids: column.ids,
                width,
            };
            refine(alloc, slots, firsts.len(), ids)
        }
        None => Ok(firsts),
    }
}
