//! Rows of states.

ghost use Rattle.std.specs.Prelude.{◌≡◌, ◌<◌, ◌==◌, [], ◌∷◌, ◌++◌, length, map, slice_get, Some};
ghost use Rattle.std.specs.Prelude.{OnOk, OnErr, IfOk};
ghost use Rattle.agg_laws.specs.Numbers.{most_values};
ghost use Rattle.agg_laws.specs.States.{unit_of};
ghost use Rattle.agg_laws.specs.Rows.{row_of, units_of, kinds_of, merged_rows, RowFits};

use agg_laws::{AggState, Kinds, NoMemory};
use std::alloc::Global;
use std::marker::Model;

/// A list of states, one for each pair of a star-tree or aggregate of a query.
#[derive(Drop)]
pub struct StateRow {
    states: Vec<AggState>,
}

impl Model for StateRow {
    ghost use Rattle.std.specs.Prelude.{List};
    ghost use Rattle.agg_laws.specs.declared.states.AggState.{AggState};

    ghost Value = { List AggState };

    ghost view = { λ s. s.states.items };
}

/// Merges states place by place.
pub(crate) fn merge_states(into: &mut [AggState], from: &[AggState])
    requires kinds { kinds_of into.old ≡ kinds_of from.now }
    requires fits { RowFits (merged_rows into.old from.now) most_values }
    ensures { into.new ≡ merged_rows into.old from.now }
{
    for i in 0..into.len() {
        into[i].merge(&from[i]);
    }
}

/// Adds a value to the state in its place.
pub(crate) fn add_values(states: &mut [AggState], values: &[i64])
    requires length { length values.now ≡ length states.old }
    requires fits { RowFits (merged_rows states.old (row_of (kinds_of states.old) (values.now ∷
        []))) most_values }
    ensures { states.new ≡ merged_rows states.old (row_of (kinds_of states.old) (values.now ∷ [])) }
{
    for i in 0..states.len() {
        states[i].add(values[i]);
    }
}

impl StateRow {
    pub fn new(alloc: Global) -> Self
        ensures { result ≡ [] }
    {
        StateRow {
            states: Vec::new(alloc),
        }
    }

    /// The states of no value.
    pub fn units(alloc: Global, kinds: &Kinds) -> Result<StateRow, NoMemory>
        ensures { IfOk result (λ row. row ≡ units_of kinds.now) }
    {
        let mut states = Vec::with_capacity(alloc, kinds.len())?;
        for kind in kinds.as_slice() {
            states.push(AggState::unit(*kind))?;
        }
        Ok(StateRow { states })
    }

    pub fn len(&self) -> usize
        ensures { result ≡ length self.now }
    {
        self.states.len()
    }

    pub fn is_empty(&self) -> bool
        ensures { result ≡ (length self.now == 0) }
    {
        self.states.is_empty()
    }

    pub fn at(&self, index: usize) -> &AggState
        requires { index < length self.now }
        ensures { slice_get self.now index ≡ Some result.now }
    {
        &self.states[index]
    }

    pub fn as_slice(&self) -> &[AggState]
        ensures { result.now ≡ self.now }
    {
        self.states.as_slice()
    }

    pub fn push(&mut self, state: AggState) -> Result<(), NoMemory>
        ensures ok { OnOk result (self.new ≡ self.old ++ state ∷ []) }
        ensures err { OnErr result (self.new ≡ self.old) }
    {
        self.states.push(state)?;
        Ok(())
    }

    /// Takes all states out. The room stays, so that as many can be pushed without more.
    pub fn clear(&mut self)
        ensures { self.new ≡ [] }
    {
        self.states.clear();
    }

    /// The same states once more.
    pub fn copy(&self, alloc: Global) -> Result<StateRow, NoMemory>
        ensures { IfOk result (λ row. row ≡ self.now) }
    {
        Ok(StateRow {
            states: Vec::from_slice(alloc, self.states.as_slice())?,
        })
    }

    /// One more value in each place. It takes no memory.
    pub fn add(&mut self, values: &[i64])
        requires length { length values.now ≡ length self.old }
        requires fits { RowFits (merged_rows self.old (row_of (kinds_of self.old) (values.now ∷
            []))) most_values }
        ensures { self.new ≡ merged_rows self.old (row_of (kinds_of self.old) (values.now ∷ [])) }
    {
        add_values(self.states.as_mut_slice(), values);
    }

    /// The values of another row of the same kinds too. It takes no memory.
    pub fn merge(&mut self, from: &StateRow)
        requires kinds { kinds_of self.old ≡ kinds_of from.now }
        requires fits { RowFits (merged_rows self.old from.now) most_values }
        ensures { self.new ≡ merged_rows self.old from.now }
    {
        merge_states(self.states.as_mut_slice(), from.states.as_slice());
    }
}
