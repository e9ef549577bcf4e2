//! Groups that are there, found by their keys and merged into by their places.

ghost use Rattle.std.specs.Prelude.{◌≡◌, ◌<◌, length, None, MatchOption};
ghost use Rattle.std.specs.Map.{lookup};
ghost use Rattle.agg_laws.specs.Numbers.{most_values};
ghost use Rattle.agg_laws.specs.Rows.{kinds_of, RowFits};
ghost use Rattle.state_pool.specs.Pool.{kinds_at};
ghost use Rattle.group_table.specs.Groups.{with_states};
ghost use Rattle.group_table.specs.Kept.{HaveValues, group_at, groups_in, key_eq};
ghost use Rattle.group_table.specs.Pooled.{IsKeyAt, IsTableIn, MergesIn, in_pool};

use crate::table::GroupTable;
use state_columns::StateRow;
use state_pool::SlotPool;
use values::Row;

impl GroupTable {
    /// The place of the group of a key, where it has one.
    pub fn find(&self, key: &Row) -> Option<u32>
        ensures { MatchOption result
            (lookup (key_eq key.now) self.now.slots ≡ None)
            (IsKeyAt self.now key.now) }
    {
        match self.slots.get_index_of(key) {
            Some(at) => Some(at as u32),
            None => None,
        }
    }

    /// The aggregates of more rows, which have the key of the group at a place. It takes no memory.
    pub fn merge_at(&self, pool: &mut SlotPool, at: u32, states: &StateRow)
        requires table { IsTableIn self.now pool.old }
        requires at { at < length self.now.slots }
        requires kinds { kinds_of states.now ≡ kinds_at pool.old self.now.owner }
        requires values { 0 < self.now.columns → HaveValues states.now }
        requires fits { let kept = in_pool self.now pool.old in
            RowFits (with_states (groups_in kept) (group_at kept at).0 states.now) most_values }
        ensures { MergesIn (group_at (in_pool self.now pool.old) at).0 states.now
            self.now pool.old self.now pool.new }
    {
        let Some((_, slot)) = self.slots.get_index(at as usize) else {
            unreachable!();
        };
        pool.merge(slot, states);
    }
}
