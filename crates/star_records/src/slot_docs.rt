//! The documents of rows in slots, merged column by column.

ghost use Rattle.std.specs.Prelude.{◌≡◌, ◌<◌, ◌≤◌, length, pos, replicate, All};
ghost use Rattle.std.specs.Prelude.{IfOk, OnOk};
ghost use Rattle.state_columns.specs.Columns.{row_at};
ghost use Rattle.state_columns.specs.Docs.{projected};
ghost use Rattle.agg_laws.specs.Numbers.{most_stored, AreWhole};
ghost use Rattle.agg_laws.specs.Rows.{merged_rows};
ghost use Rattle.agg_laws.specs.States.{unit_of};
ghost use Rattle.agg_laws.specs.Tree.{merged_docs};
ghost use Rattle.star_rows.specs.Columns.{row_count, rows_of};
ghost use Rattle.star_rows.specs.Numbers.{numbers_of};
ghost use Rattle.star_rows.specs.Projection.{HasColumns, IsTableOf};
ghost use Rattle.star_records.specs.Slots.{AllHold, AreSlots, AreSlotsOf, HoldsSlots, IsEmptyFor};

use crate::NoMemory;
use crate::blocks::columns_at;
use crate::slots::Slots;
use agg_laws::{AggKind, AggState, TreeShape};
use outside::Seq;
use star_rows::{NumberColumns, PairNumbers, read_row};
use star_table::StarTable;
use state_columns::StateColumn;
use std::alloc::Global;

/// The documents of the rows, merged: one for each slot. The numbers are added pair by pair, in the
/// order of the rows, once the ids of all rows but the slots' own are let go.
pub(crate) fn merge_slots(
    alloc: Global,
    shape: &TreeShape,
    dims: Seq<Seq<u32>>,
    metrics: &NumberColumns,
    slots: Slots,
) -> Result<StarTable, NoMemory>
    requires columns { HasColumns shape.now dims metrics.now }
    requires at_most { row_count dims ≤ most_stored }
    requires slots { AreSlots (row_count dims) dims slots.slots.items slots.rows.items }
    ensures { IfOk result (IsTableOf shape.now (merged_docs merged_rows (projected
        shape.now.kinds (rows_of (row_count dims) dims metrics.now))) (row_count dims)) }
{
    let kinds = shape.kinds.as_slice();
    let Slots { slots, rows } = slots;
    let count = rows.len();
    // A row is below 2^20, so its number is a word of it.
    let slot_ids = columns_at(alloc, &dims, rows.as_slice())?;
    drop(dims);
    let columns = fold_columns(alloc, kinds, metrics, slots.as_slice(), count)?;
    drop(slots);
    let mut table = StarTable::new(alloc, shape)?;
    let mut ids = Vec::with_capacity(alloc, slot_ids.len())?;
    let mut states = Vec::with_capacity(alloc, kinds.len())?;
    table.reserve(count as u32)?;
    for slot in 0..count {
        read_row(&slot_ids, slot, &mut ids)?;
        read_states(columns.as_slice(), slot, &mut states)?;
        table.reserve(1)?;
        table.append_parts(ids.as_slice(), states.as_slice());
    }
    Ok(table)
}

// For each pair its states, slot by slot.
fn fold_columns(
    alloc: Global,
    kinds: &[AggKind],
    metrics: &NumberColumns,
    slots: &[u32],
    count: usize,
) -> Result<Vec<StateColumn>, NoMemory>
    requires metrics { length metrics.now ≡ length kinds.now }
    requires lengths { All (λ c. length c ≡ length slots.now) metrics.now }
    requires slots { AreSlotsOf count slots.now }
    ensures { IfOk result (λ columns. AllHold count slots.now kinds.now metrics.now columns.items) }
{
    let mut columns = Vec::with_capacity(alloc, kinds.len())?;
    for at in 0..kinds.len() {
        let numbers = metrics.at(at);
        columns.push(fold_column(alloc, kinds[at], numbers, slots, count)?)?;
    }
    Ok(columns)
}

// The states of one pair.
fn fold_column(
    alloc: Global,
    kind: AggKind,
    numbers: PairNumbers,
    slots: &[u32],
    count: usize,
) -> Result<StateColumn, NoMemory>
    requires lengths { length (numbers_of numbers) ≡ length slots.now }
    requires slots { AreSlotsOf count slots.now }
    ensures states { IfOk result (HoldsSlots kind count slots.now (numbers_of numbers.entry)) }
    ensures whole { IfOk result (λ _. AreWhole (numbers_of numbers.entry)) }
{
    let mut column = units(alloc, kind, count)?;
    add_pair(&mut column, slots, numbers);
    Ok(column)
}

// So many states of no value.
fn units(alloc: Global, kind: AggKind, count: usize) -> Result<StateColumn, NoMemory>
    ensures kind { IfOk result (λ column. column.kind ≡ kind) }
    ensures states { IfOk result (λ column. column.states ≡ replicate count (unit_of kind)) }
{
    let mut column = StateColumn::new(alloc, kind);
    column.reserve(count)?;
    for _ in 0..count {
        column.push_unit();
    }
    Ok(column)
}

// Adds the number of each row to the state in the row's slot.
fn add_pair(column: &mut StateColumn, slots: &[u32], numbers: PairNumbers)
    requires lengths { length (numbers_of numbers) ≡ length slots.now }
    requires slots { IsEmptyFor slots.now column.old }
    ensures states { HoldsSlots column.old.kind (length column.old.states) slots.now
        (numbers_of numbers.entry) column.new }
    ensures whole { AreWhole (numbers_of numbers.entry) }
{
    match numbers {
        PairNumbers::Stored(numbers) => add_numbers(column, slots, numbers),
        PairNumbers::Zeros(_) => add_zeros(column, slots),
    }
}

// The same, where the numbers are stored.
fn add_numbers(column: &mut StateColumn, slots: &[u32], numbers: &[i64])
    requires lengths { length numbers.now ≡ length slots.now }
    requires slots { IsEmptyFor slots.now column.old }
    ensures states { HoldsSlots column.old.kind (length column.old.states) slots.now numbers.now
        column.new }
    ensures whole { AreWhole numbers.now }
{
    for row in 0..slots.len() {
        column.add_at(slots[row] as usize, numbers[row]);
    }
}

// The same, where they are zeros.
fn add_zeros(column: &mut StateColumn, slots: &[u32])
    requires { IsEmptyFor slots.now column.old }
    ensures states { HoldsSlots column.old.kind (length column.old.states) slots.now
        (replicate (length slots.now) (pos 0)) column.new }
    ensures whole { AreWhole (replicate (length slots.now) (pos 0)) }
{
    for row in 0..slots.len() {
        column.add_at(slots[row] as usize, 0);
    }
}

// What the columns have in a slot, in place of what a list has.
fn read_states(
    columns: &[StateColumn],
    slot: usize,
    out: &mut Vec<AggState>,
) -> Result<(), NoMemory>
    requires { All (λ c. slot < length c.states) columns.now }
    ensures { OnOk result (out.new.items ≡ row_at columns.now slot) }
{
    out.clear();
    for column in columns {
        out.push(column.at(slot))?;
    }
    Ok(())
}
