//! The groups of a table and its pool, to be read.

ghost use Rattle.std.specs.Prelude.{◌≡◌, ◌<◌, length, slice_get, Some};
ghost use Rattle.std.specs.FinMap as finite;
ghost use Rattle.group_table.specs.Kept.{IsTable, group_at, groups_in};
ghost use Rattle.group_table.specs.Pooled.{IsTableIn, in_pool};

use crate::table::GroupTable;
use agg_laws::AggState;
use state_pool::SlotPool;
use std::marker::Model;
use values::Row;

/// A table together with the pool that its states are in, to be read.
#[derive(Drop)]
pub struct GroupsIn<'a> {
    table: &'a GroupTable,
    pool: &'a SlotPool,
}

impl<'a> Model for GroupsIn<'a> {
    ghost use Rattle.group_table.specs.Kept.{KeptGroups};
    ghost use Rattle.group_table.specs.Pooled.{IsTableIn, in_pool};

    ghost Value = { KeptGroups };

    ghost view = { λ g. in_pool g.table.now g.pool.now };

    ghost invariant = { λ g. IsTableIn g.table.now g.pool.now };
}

impl<'a> GroupsIn<'a> {
    pub fn new(table: &'a GroupTable, pool: &'a SlotPool) -> GroupsIn<'a>
        requires { IsTableIn table.now pool.now }
        ensures { result ≡ in_pool table.entry.now pool.entry.now }
    {
        GroupsIn { table, pool }
    }

    /// How many groups there are.
    pub fn groups(&self) -> u32
        ensures places { result ≡ length self.now.groups }
        ensures count { result ≡ finite.len (groups_in self.now) }
        ensures table { IsTable self.now }
    {
        self.table.groups()
    }

    /// The key of the group at a place.
    pub fn key_at(&self, at: u32) -> &Row
        requires { at < length self.now.groups }
        ensures { result.now ≡ (group_at self.now at).0 }
    {
        self.table.key_at(at)
    }

    /// The state of the group at a place, by the place of its aggregate.
    pub fn state_at(&self, at: u32, agg: u16) -> &AggState
        requires at { at < length self.now.groups }
        requires agg { agg < length self.now.kinds }
        ensures { slice_get (group_at self.now at).1 agg ≡ Some result.now }
    {
        self.table.state_at(self.pool, at, agg)
    }
}
