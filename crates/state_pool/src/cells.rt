//! States in cells that stand for more values.

ghost use Rattle.std.specs.Prelude.{◌≡◌, ◌+◌, ◌≤◌, ◌⊎◌, ◌∷◌, [], length};
ghost use Rattle.agg_laws.specs.Numbers.{most_values};
ghost use Rattle.agg_laws.specs.Rows.{row_of, kinds_of, merged_rows, RowFits};
ghost use Rattle.state_pool.specs.Kept.{part_of, with_part};

use agg_laws::AggState;

/// Adds a value to the state in its place, from a place on.
pub(crate) fn add_cells(cells: &mut [AggState], from: usize, values: &[i64])
    requires within { from + length values.now ≤ length cells.old }
    requires fits { let own = part_of cells.old from (length values.now) in
        RowFits (merged_rows own (row_of (kinds_of own) (values.now ∷ []))) most_values }
    ensures { let own = part_of cells.old from (length values.now) in cells.new
        ≡ with_part cells.old from (length values.now)
        (merged_rows own (row_of (kinds_of own) (values.now ∷ []))) }
{
    for i in 0..values.len() {
        cells[from + i].add(values[i]);
    }
}

/// Merges states place by place into those from a place on.
pub(crate) fn merge_cells(cells: &mut [AggState], from: usize, states: &[AggState])
    requires within { from + length states.now ≤ length cells.old }
    requires kinds { kinds_of (part_of cells.old from (length states.now)) ≡ kinds_of states.now }
    requires fits { RowFits (merged_rows (part_of cells.old from (length states.now)) states.now)
        most_values }
    ensures { cells.new ≡ with_part cells.old from (length states.now)
        (merged_rows (part_of cells.old from (length states.now)) states.now) }
{
    for i in 0..states.len() {
        cells[from + i].merge(&states[i]);
    }
}

/// Merges the states from one place on, place by place, into those from another place on.
pub(crate) fn merge_part(cells: &mut [AggState], into: usize, from: usize, count: usize)
    requires into { into + count ≤ length cells.old }
    requires from { from + count ≤ length cells.old }
    requires apart { (into + count ≤ from) ⊎ (from + count ≤ into) }
    requires kinds { kinds_of (part_of cells.old into count)
        ≡ kinds_of (part_of cells.old from count) }
    requires fits { RowFits (merged_rows (part_of cells.old into count)
        (part_of cells.old from count)) most_values }
    ensures { cells.new ≡ with_part cells.old into count
        (merged_rows (part_of cells.old into count) (part_of cells.old from count)) }
{
    for i in 0..count {
        let state = cells[from + i];
        cells[into + i].merge(&state);
    }
}

/// Puts states in the place of those from a place on.
pub(crate) fn copy_cells(cells: &mut [AggState], from: usize, states: &[AggState])
    requires { from + length states.now ≤ length cells.old }
    ensures { cells.new ≡ with_part cells.old from (length states.now) states.now }
{
    for i in 0..states.len() {
        cells[from + i] = states[i];
    }
}
