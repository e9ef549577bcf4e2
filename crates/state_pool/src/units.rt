//! The states of no value, in cells.

ghost use Rattle.std.specs.Prelude.{◌≡◌, ◌+◌, ◌≤◌, ◌++◌, length, take, drop, replicate, vec_capacity};
ghost use Rattle.agg_laws.specs.declared.states.AggState.TheVariants.{Count};
ghost use Rattle.agg_laws.specs.Rows.{units_of};

use agg_laws::{AggKind, AggState};
use state_columns::put_all;

/// Writes the states of no value, from a place on.
pub(crate) fn write_units(cells: &mut Vec<AggState>, from: usize, kinds: &[AggKind])
    requires { from + length kinds.now ≤ length cells.old.items }
    ensures cells { cells.new.items ≡ take from cells.old.items ++ (units_of kinds.now
        ++ drop (from + length kinds.now) cells.old.items) }
    ensures capacity { vec_capacity cells.new ≡ vec_capacity cells.old }
{
    for i in 0..kinds.len() {
        cells[from + i] = AggState::unit(kinds[i]);
    }
}

/// Adds the states of no value, for which there is room.
pub(crate) fn add_units(cells: &mut Vec<AggState>, kinds: &[AggKind])
    requires room { length cells.old.items + length kinds.now ≤ vec_capacity cells.old }
    ensures cells { cells.new.items ≡ cells.old.items ++ units_of kinds.now }
    ensures capacity { vec_capacity cells.old ≤ vec_capacity cells.new }
{
    for i in 0..kinds.len() {
        put_all(cells, &[AggState::unit(kinds[i])]);
    }
}

/// Adds cells that no kind uses, for which there is room.
pub(crate) fn add_spare(cells: &mut Vec<AggState>, count: usize)
    requires room { length cells.old.items + count ≤ vec_capacity cells.old }
    ensures cells { cells.new.items ≡ cells.old.items ++ replicate count (Count 0) }
    ensures capacity { vec_capacity cells.old ≤ vec_capacity cells.new }
{
    for _i in 0..count {
        put_all(cells, &[AggState::Count(0)]);
    }
}
