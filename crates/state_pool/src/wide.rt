//! Rows of cells that become wider.

ghost use Rattle.std.specs.Prelude.{◌≡◌, ℕ, ◌*◌, ◌<◌, ◌≤◌, length, vec_capacity};
ghost use Rattle.state_pool.specs.Kept.{Widens, part_of};

use crate::units::add_spare;
use agg_laws::AggState;

/// Gives so many rows as many cells each as are wanted, for which there is room: how many they have
/// then. Each keeps its cells, in the first places, and rows that have more stay as they are.
pub(crate) fn widen(cells: &mut Vec<AggState>, count: usize, width: usize, wanted: usize) -> usize
    requires length { length cells.old.items ≡ count * width }
    requires room { count * wanted ≤ vec_capacity cells.old }
    ensures widens { Widens count width wanted result cells.old.items cells.new.items }
    ensures capacity { vec_capacity cells.old ≤ vec_capacity cells.new }
{
    if wanted <= width {
        return width;
    }
    add_spare(cells, count * (wanted - width));
    move_apart(cells.as_mut_slice(), count, width, wanted);
    wanted
}

/// Moves rows to where wider ones begin.
fn move_apart(cells: &mut [AggState], count: usize, width: usize, wider: usize)
    requires wider { width ≤ wider }
    requires length { length cells.old ≡ count * wider }
    ensures rows { (number few : ℕ) → number < count → few ≤ width →
        part_of cells.new (number * wider) few ≡ part_of cells.old (number * width) few }
    ensures length { length cells.new ≡ length cells.old }
{
    'rows: for at in 0..count {
        let number = count - 1 - at;
        let from = number * width;
        cells.copy_within(from..from + width, number * wider);
    }
}
