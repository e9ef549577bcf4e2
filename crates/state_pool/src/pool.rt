//! Pools of slots.

ghost use Rattle.std.specs.Prelude.{◌≡◌, ◌≢◌, ℕ, ◌+◌, ◌*◌, ◌<◌, ◌≤◌, ◌^◌, ◌↔◌, ◌++◌, [], length, map, sum};
ghost use Rattle.std.specs.Prelude.{◌∷◌, slice_get, slice_set, Some, None, IfOk, IfSome, vec_capacity};
ghost use Rattle.std.specs.Borrow.{sem};
ghost use Rattle.agg_laws.specs.Numbers.{most_values};
ghost use Rattle.agg_laws.specs.Rows.{row_of, kinds_of, merged_rows, RowFits};
ghost use Rattle.state_pool.specs.Pool.{IsNew, IsOut, Takes, GivesBack, Writes, SetsKinds};
ghost use Rattle.state_pool.specs.Pool.{quota_of, kinds_at, held, states_at, with_state};
ghost use Rattle.state_pool.specs.Kept.{AreFree, HasRoom, TakesCells, TakesNumber};
ghost use Rattle.state_pool.specs.Lent.{LendsState};

use crate::cells::{add_cells, copy_cells, merge_cells, merge_part};
use crate::slot::Slot;
use crate::units::{add_spare, add_units, write_units};
use crate::wide::widen;
use agg_laws::{AggKind, AggState, Kinds, NoMemory};
use data_types::Seq;
use state_columns::{StateRow, put_all};
use std::alloc::Global;
use std::marker::Model;

// How many slots an owner may hold, how many it holds, and the kinds of its states.
#[derive(Drop)]
struct Owner {
    quota: u32,
    held: u32,
    kinds: Kinds,
}

/// Slots, each a row of states. Owners take them and give them back, each within its quota. All
/// memory is taken when the pool is made.
#[derive(Drop)]
pub struct SlotPool {
    owners: Vec<Owner>,
    holders: Vec<Option<u16>>,
    width: usize,
    stride: usize,
    cells: Vec<AggState>,
    free: Vec<u32>,
}

impl Model for SlotPool {
    ghost use Rattle.std.specs.Prelude.{vec_capacity};
    ghost use Rattle.state_pool.specs.Pool.{Pool};
    ghost use Rattle.state_pool.specs.Kept.{IsKept, HasRoom, pool_in, most_of};

    ghost Value = { Pool };

    ghost view = { λ p. pool_in p.owners.items p.holders.items p.width p.stride p.cells.items };

    ghost invariant = { λ p.
        IsKept p.owners.items
        (pool_in p.owners.items p.holders.items p.width p.stride p.cells.items) p.free.items
        × HasRoom (most_of p.owners.items) p.width (vec_capacity p.holders)
        (vec_capacity p.cells) (vec_capacity p.free) };
}

impl SlotPool {
    /// A pool for as many owners as there are quotas. Each may hold so many slots, of states of
    /// these kinds.
    pub fn with_slots(alloc: Global, kinds: &Kinds, quotas: &Seq<u32>) -> Result<SlotPool, NoMemory>
        requires kinds { length kinds.now ≤ 2 ^ 16 }
        requires quotas { sum quotas.now < 2 ^ 32 }
        ensures { IfOk result (IsNew kinds.now quotas.now) }
    {
        let slots = total(quotas.as_slice());
        Ok(SlotPool {
            owners: owners_of(alloc, kinds, quotas.as_slice())?,
            holders: Vec::with_capacity(alloc, slots)?,
            width: kinds.len(),
            stride: 0,
            cells: Vec::with_capacity(alloc, slots * kinds.len())?,
            free: Vec::with_capacity(alloc, slots)?,
        })
    }

    /// How many slots an owner may hold.
    pub fn quota(&self, owner: u16) -> u32
        requires { owner < length self.now.quotas }
        ensures { result ≡ quota_of self.now owner }
    {
        self.owners[owner as usize].quota
    }

    /// How many slots an owner may still take.
    pub fn free(&self, owner: u16) -> u32
        requires { owner < length self.now.quotas }
        ensures { result + held self.now owner ≡ quota_of self.now owner }
    {
        let own = &self.owners[owner as usize];
        own.quota - own.held
    }

    /// How many states a slot of an owner has.
    pub fn kind_count(&self, owner: u16) -> usize
        requires { owner < length self.now.quotas }
        ensures { result ≡ length (kinds_at self.now owner) }
    {
        self.owners[owner as usize].kinds.len()
    }

    /// Gives an owner that holds no slot other kinds: the slots that it takes from now on are of
    /// these. It takes no memory.
    pub fn set_kinds(&mut self, owner: u16, kinds: Kinds)
        requires owner { owner < length self.old.quotas }
        requires none { held self.old owner ≡ 0 }
        requires few { length kinds ≤ self.old.width }
        ensures { SetsKinds owner kinds self.old self.new }
    {
        self.owners[owner as usize].kinds = kinds;
    }

    /// A slot of the states of no value, unless the owner holds as many as it may.
    pub fn take(&mut self, owner: u16) -> Option<Slot>
        requires { owner < length self.old.quotas }
        ensures full { result ≡ None ↔ (held self.old owner ≡ quota_of self.old owner) }
        ensures kept { result ≡ None → self.new ≡ self.old }
        ensures taken { IfSome result (λ slot. Takes owner slot self.old self.new) }
    {
        let own = &mut self.owners[owner as usize];
        if own.held == own.quota {
            return None;
        }
        own.held += 1;
        let count = self.holders.len();
        self.stride = widen(&mut self.cells, count, self.stride, own.kinds.len());
        let number = take_number(
            &mut self.holders,
            &mut self.cells,
            &mut self.free,
            self.stride,
            owner,
            own.kinds.as_slice(),
        );
        Some(Slot { owner, number })
    }

    /// Takes a slot back from its owner.
    pub fn give_back(&mut self, slot: Slot)
        requires { IsOut self.old slot }
        ensures { GivesBack slot self.old self.new }
    {
        self.owners[slot.owner as usize].held -= 1;
        self.holders[slot.number as usize] = None;
        put_all(&mut self.free, &[slot.number]);
    }

    /// The state in a place of a slot.
    pub fn state(&self, slot: &Slot, at: u16) -> &AggState
        requires out { IsOut self.now slot.now }
        requires at { at < length (kinds_at self.now slot.now.owner) }
        ensures { slice_get (states_at self.now slot.now) at ≡ Some result.now }
    {
        &self.cells[slot.number as usize * self.stride + at as usize]
    }

    /// The state in a place of a slot, to be changed. No other slot changes.
    pub fn state_mut(&mut self, slot: &Slot, at: u16) -> &mut AggState
        requires out { IsOut self.old slot.now }
        requires at { at < length (kinds_at self.old slot.now.owner) }
        ensures* writes_back { sem 𝓛 (LendsState self.entry slot.now at result) }
        ensures value { slice_get (states_at self.old slot.now) at ≡ Some result.now }
        ensures writes { (state : AggState) → Writes slot.now
            (slice_set (states_at self.old slot.now) at state) self.old
            (with_state self.old slot.now at state) }
    {
        &mut self.cells[slot.number as usize * self.stride + at as usize]
    }

    /// One more value in each place of a slot. No other slot changes.
    pub fn add(&mut self, slot: &Slot, values: &[i64])
        requires out { IsOut self.old slot.now }
        requires length { length values.now ≡ length (kinds_at self.old slot.now.owner) }
        requires fits { let own = states_at self.old slot.now in
            RowFits (merged_rows own (row_of (kinds_of own) (values.now ∷ []))) most_values }
        ensures { let own = states_at self.old slot.now in Writes slot.now
            (merged_rows own (row_of (kinds_of own) (values.now ∷ []))) self.old self.new }
    {
        let from = slot.number as usize * self.stride;
        add_cells(self.cells.as_mut_slice(), from, values);
    }

    /// The values of other states of the same kinds too, place by place. No other slot changes.
    pub fn merge(&mut self, slot: &Slot, states: &StateRow)
        requires out { IsOut self.old slot.now }
        requires kinds { kinds_of (states_at self.old slot.now) ≡ kinds_of states.now }
        requires fits { RowFits (merged_rows (states_at self.old slot.now) states.now)
            most_values }
        ensures { Writes slot.now (merged_rows (states_at self.old slot.now) states.now)
            self.old self.new }
    {
        let from = slot.number as usize * self.stride;
        merge_cells(self.cells.as_mut_slice(), from, states.as_slice());
    }

    /// The values of the states in a slot of another owner too, place by place. No other slot
    /// changes, and no memory is taken.
    pub fn merge_slot(&mut self, slot: &Slot, from: &Slot)
        requires out { IsOut self.old slot.now }
        requires from { IsOut self.old from.now }
        requires apart { from.now.owner ≢ slot.now.owner }
        requires kinds { kinds_of (states_at self.old slot.now)
            ≡ kinds_of (states_at self.old from.now) }
        requires fits { RowFits (merged_rows (states_at self.old slot.now)
            (states_at self.old from.now)) most_values }
        ensures { Writes slot.now (merged_rows (states_at self.old slot.now)
            (states_at self.old from.now)) self.old self.new }
    {
        let count = self.owners[slot.owner as usize].kinds.len();
        let into = slot.number as usize * self.stride;
        let from = from.number as usize * self.stride;
        merge_part(self.cells.as_mut_slice(), into, from, count);
    }

    /// Adds the states of a slot, as many as its owner has kinds, to a list.
    pub fn append_states(&self, slot: &Slot, into: &mut Vec<AggState>) -> Result<(), NoMemory>
        requires { IsOut self.now slot.now }
        ensures states { IfOk result (λ _. into.new.items
            ≡ into.old.items ++ states_at self.now slot.now) }
        ensures count { length (states_at self.now slot.now)
            ≡ length (kinds_at self.now slot.now.owner) }
    {
        let count = self.owners[slot.owner as usize].kinds.len();
        let from = slot.number as usize * self.stride;
        into.extend_from_slice(&self.cells[from..from + count])
    }

    /// Puts states in the place of those of a slot. No other slot changes, and no memory is taken.
    pub fn put_states(&mut self, slot: &Slot, states: &[AggState])
        requires out { IsOut self.old slot.now }
        requires length { length states.now ≡ length (kinds_at self.old slot.now.owner) }
        ensures { Writes slot.now states.now self.old self.new }
    {
        let from = slot.number as usize * self.stride;
        copy_cells(self.cells.as_mut_slice(), from, states);
    }
}

/// Owners of these quotas, each with the same kinds.
fn owners_of(alloc: Global, kinds: &Kinds, quotas: &[u32]) -> Result<Vec<Owner>, NoMemory>
    ensures { IfOk result (λ owners. owners.items
        ≡ map (λ quota. record { quota = quota; held = 0; kinds = kinds.now }) quotas.now) }
{
    let mut owners = Vec::with_capacity(alloc, quotas.len())?;
    for quota in quotas {
        owners.push(Owner {
            quota: *quota,
            held: 0,
            kinds: kinds.copy(alloc)?,
        })?;
    }
    Ok(owners)
}

/// The sum of quotas.
fn total(quotas: &[u32]) -> usize
    requires { sum quotas.now < 2 ^ 32 }
    ensures { result ≡ sum quotas.now }
{
    let mut slots: usize = 0;
    for quota in quotas {
        slots += *quota as usize;
    }
    slots
}

/// A number for a slot of an owner, with the states of no value: one that is free, or a new one.
fn take_number(
    holders: &mut Vec<Option<u16>>,
    cells: &mut Vec<AggState>,
    free: &mut Vec<u32>,
    width: usize,
    owner: u16,
    kinds: &[AggKind],
) -> u32
    requires kinds { length kinds.now ≤ width }
    requires cells { length cells.old.items ≡ length holders.old.items * width }
    requires free { AreFree holders.old.items free.old.items }
    requires room { free.old.items ≡ [] → HasRoom (length holders.old.items + 1) width
        (vec_capacity holders.old) (vec_capacity cells.old) (vec_capacity free.old) }
    ensures taken { TakesCells owner width kinds.now result holders.old.items holders.new.items
        cells.old.items cells.new.items }
    ensures numbers { TakesNumber holders.old.items holders.new.items free.old.items
        free.new.items }
    ensures room { (slots most : ℕ) → HasRoom slots most (vec_capacity holders.old)
        (vec_capacity cells.old) (vec_capacity free.old) → HasRoom slots most
        (vec_capacity holders.new) (vec_capacity cells.new) (vec_capacity free.new) }
{
    if let Some(number) = free.pop() {
        holders[number as usize] = Some(owner);
        write_units(cells, number as usize * width, kinds);
        return number;
    }
    let number = holders.len() as u32;
    put_all(holders, &[Some(owner)]);
    add_units(cells, kinds);
    add_spare(cells, width - kinds.len());
    number
}
