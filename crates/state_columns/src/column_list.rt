//! The columns of a table of documents, one for each pair.

ghost use Rattle.std.specs.Prelude.{◌≡◌, ◌<◌, ◌≤◌, [], ◌∷◌, length, map, IfOk, OnOk};
ghost use Rattle.agg_laws.specs.Numbers.{most_values};
ghost use Rattle.agg_laws.specs.Rows.{kinds_of, merged_rows, row_of, RowFits};
ghost use Rattle.state_columns.specs.Columns.{column_of, column_tail, kinds_in, row_at, row_pushed};
ghost use Rattle.state_columns.specs.Columns.{row_replaced, widened, AreColumns, AreWider};

use crate::state_column::StateColumn;
use agg_laws::{AggKind, AggState, NoMemory};
use std::alloc::Global;

/// A column with no states for each kind.
pub fn new_columns(alloc: Global, kinds: &[AggKind]) -> Result<Vec<StateColumn>, NoMemory>
    ensures { IfOk result (λ columns. columns.items ≡ map column_of kinds.now) }
{
    let mut columns = Vec::with_capacity(alloc, kinds.len())?;
    for i in 0..kinds.len() {
        columns.push(StateColumn::new(alloc, kinds[i]))?;
    }
    Ok(columns)
}

/// The states of each column from a place on, as columns of their own.
pub fn tail_columns(
    alloc: Global,
    columns: &[StateColumn],
    from: usize,
    count: usize,
) -> Result<Vec<StateColumn>, NoMemory>
    requires from { from ≤ count }
    requires lengths { AreColumns count 0 columns.now }
    ensures { IfOk result (λ tails. tails.items ≡ map (column_tail from) columns.now) }
{
    let mut tails = Vec::with_capacity(alloc, columns.len())?;
    for i in 0..columns.len() {
        tails.push(columns[i].tail(alloc, from)?)?;
    }
    Ok(tails)
}

/// Makes room for more states in each column.
pub fn reserve_columns(columns: &mut [StateColumn], more: usize) -> Result<(), NoMemory>
    ensures kept { AreWider columns.old columns.new }
    ensures ok { OnOk result (columns.new ≡ map (widened more) columns.old) }
{
    for i in 0..columns.len() {
        columns[i].reserve(more)?;
    }
    Ok(())
}

/// Adds a state to each column, for which there is room.
pub fn push_states(columns: &mut [StateColumn], states: &[AggState], count: usize)
    requires kinds { kinds_of states.now ≡ kinds_in columns.old }
    requires room { AreColumns count 1 columns.old }
    ensures { columns.new ≡ row_pushed columns.old states.now }
{
    for i in 0..columns.len() {
        columns[i].push(states[i]);
    }
}

/// Adds the state of a value to each column, for which there is room.
pub fn push_values(columns: &mut [StateColumn], values: &[i64], count: usize)
    requires values { length values.now ≡ length columns.old }
    requires room { AreColumns count 1 columns.old }
    ensures { columns.new ≡ row_pushed columns.old (row_of (kinds_in columns.old)
        (values.now ∷ [])) }
{
    for i in 0..columns.len() {
        columns[i].push_one(values[i]);
    }
}

/// Adds the states in a place once more, for which there is room.
pub fn push_copies(columns: &mut [StateColumn], from: usize, count: usize)
    requires from { from < count }
    requires room { AreColumns count 1 columns.old }
    ensures { columns.new ≡ row_pushed columns.old (row_at columns.old from) }
{
    for i in 0..columns.len() {
        columns[i].push_copy(from);
    }
}

/// Merges the states in one place into those in another.
pub fn merge_places(columns: &mut [StateColumn], into: usize, from: usize, count: usize)
    requires into { into < count }
    requires from { from < count }
    requires lengths { AreColumns count 0 columns.old }
    requires fits { RowFits (merged_rows (row_at columns.old into) (row_at columns.old from))
        most_values }
    ensures { columns.new ≡ row_replaced into columns.old
        (merged_rows (row_at columns.old into) (row_at columns.old from)) }
{
    for i in 0..columns.len() {
        columns[i].merge_at(into, from);
    }
}

/// Adds a value to the state in a place of each column.
pub fn add_values_at(columns: &mut [StateColumn], place: usize, values: &[i64], count: usize)
    requires place { place < count }
    requires lengths { AreColumns count 0 columns.old }
    requires values { length values.now ≡ length columns.old }
    requires fits { RowFits (merged_rows (row_at columns.old place)
        (row_of (kinds_in columns.old) (values.now ∷ []))) most_values }
    ensures { columns.new ≡ row_replaced place columns.old
        (merged_rows (row_at columns.old place) (row_of (kinds_in columns.old) (values.now ∷ []))) }
{
    for i in 0..columns.len() {
        columns[i].add_at(place, values[i]);
    }
}
