//! The groups of a table as they were: their states, one group after the other, in a list.

ghost use Rattle.std.specs.Prelude.{◌≡◌, ◌*◌, ◌≤◌, IfOk, length};
ghost use Rattle.state_pool.specs.Pool.{Pool, kinds_at, slots_of};
ghost use Rattle.group_table.specs.Pooled.{Extends, HoldsAll, KeepsOthers, PooledTable};
ghost use Rattle.group_table.specs.Saved.{HasSaved};

use crate::table::GroupTable;
use agg_laws::AggState;
use state_pool::SlotPool;
use values::NoMemory;

impl GroupTable {
    /// The states of the groups as they are, in the place of what a list has.
    pub fn save(&self, pool: &SlotPool, into: &mut Vec<AggState>) -> Result<(), NoMemory>
        requires { HoldsAll self.now pool.now }
        ensures { IfOk result (λ _. HasSaved self.now pool.now into.new.items) }
    {
        into.clear();
        into.reserve(self.slots.len().saturating_mul(pool.kind_count(self.owner)))?;
        for at in 0..self.slots.len() {
            let Some((_, own)) = self.slots.get_index(at) else {
                unreachable!();
            };
            pool.append_states(own, into)?;
        }
        Ok(())
    }

    /// Makes the groups the first ones, as many as were saved, with the states that they had: what
    /// has come to them since is gone, and so are the groups that have come since. It takes no
    /// memory.
    pub fn restore(&mut self, pool: &mut SlotPool, count: u32, states: &[AggState])
        requires table { HoldsAll self.old pool.old }
        requires fewer { count ≤ length self.old.slots }
        requires length { length states.now ≡ count * length (kinds_at pool.old self.old.owner) }
        ensures restored { (was : PooledTable) (before : Pool) → Extends was self.old
            → count ≡ length was.slots → HasSaved was before states.now
            → (self.new ≡ was) × (slots_of pool.new self.old.owner ≡ slots_of before was.owner) }
        ensures keeps { KeepsOthers self.old.owner pool.old pool.new }
    {
        'newer: while self.slots.len() > count as usize {
            let Some((_key, slot)) = self.slots.pop() else {
                unreachable!();
            };
            pool.give_back(slot);
        }
        let kinds = pool.kind_count(self.owner);
        'groups: for at in 0..count as usize {
            let Some((_, own)) = self.slots.get_index(at) else {
                unreachable!();
            };
            let from = at * kinds;
            pool.put_states(own, &states[from..from + kinds]);
        }
    }
}
