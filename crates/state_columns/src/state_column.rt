//! Columns of states of one kind.

ghost use Rattle.std.specs.Prelude.{◌≡◌, ◌+◌, ◌-◌, ◌<◌, ◌≤◌, [], ◌∷◌, length, OnOk};
ghost use Rattle.std.specs.Prelude.{OnErr, get_or, set};
ghost use Rattle.std.specs.Prelude.{IfOk, vec_capacity, All, ℕ};
ghost use Rattle.agg_laws.specs.Numbers.{most_values};
ghost use Rattle.agg_laws.specs.States.{kind_of, unit_of, state_of, merged, Fits};
ghost use Rattle.state_columns.specs.Columns.{column_of, column_tail, pushed, replaced, state_at};
ghost use Rattle.state_columns.specs.Columns.{all_added, widened, with_values};

use crate::lists::{put, tail_of};
use agg_laws::{
    AggKind, AggState, Aggregator, Average, AverageState, Count, Greatest, Least, NoMemory, Sum,
};
use std::alloc::{AllocError, Global};
use std::marker::Model;

/// What is kept of the states of one kind.
#[derive(Drop)]
enum Cells {
    Counts(Vec<u64>),
    Sums(Vec<i128>),
    Leasts(Vec<Option<i64>>),
    Greatests(Vec<Option<i64>>),
    Averages(Vec<AverageState>),
}

/// States of one kind, each in as many bytes as the kind needs.
#[derive(Drop)]
pub struct StateColumn {
    cells: Cells,
    spare: usize,
}

impl Model for StateColumn {
    ghost use Rattle.state_columns.specs.Columns.{Column};
    ghost use Rattle.state_columns.specs.Cells.{column_in, HasRoom};

    ghost Value = { Column };

    ghost view = { λ t. column_in t.cells t.spare };

    ghost invariant = { λ t. HasRoom t.cells t.spare };
}

/// Makes room for more items than there is room for.
fn widen<T>(out: &mut Vec<T>, more: usize) -> Result<(), NoMemory>
    ensures items { out.new.items ≡ out.old.items }
    ensures capacity { vec_capacity out.old ≤ vec_capacity out.new }
    ensures room { OnOk result (length out.old.items + more ≤ vec_capacity out.new) }
{
    out.reserve(more)
}

/// Adds a value to the state in a place.
#[inline(always)]
fn add_in<A: Aggregator>(states: &mut Vec<A::State>, place: usize, value: i64)
    requires place { place < length states.old.items }
    requires fits { A.fits (A.merged (get_or states.old.items place A.empty)
        (A.of (value ∷ []))) most_values }
    ensures items { states.new.items ≡ set states.old.items place
        (A.merged (get_or states.old.items place A.empty) (A.of (value ∷ []))) }
    ensures capacity { vec_capacity states.new ≡ vec_capacity states.old }
{
    A::add(&mut states[place], value);
}

/// Adds values one after another, each to the state in its place.
fn add_each_in<A: Aggregator>(states: &mut [A::State], places: &[u32], values: &[i64])
    requires places { All (λ place. place < length states.old) places.now }
    requires same { length values.now ≡ length places.now }
    requires at_most { length places.now ≤ most_values }
    requires fits { (place : ℕ) → place < length states.old
        → A.fits (get_or states.old place A.empty) (most_values - length places.now) }
    ensures { states.new ≡ all_added (λ s v. A.merged s (A.of (v ∷ []))) A.empty
        places.now values.now states.old }
{
    for k in 0..places.len() {
        A::add(&mut states[places[k] as usize], values[k]);
    }
}

/// The same, of the states that are kept in a list that may grow.
#[inline(always)]
fn add_each_of<A: Aggregator>(states: &mut Vec<A::State>, places: &[u32], values: &[i64])
    requires places { All (λ place. place < length states.old.items) places.now }
    requires same { length values.now ≡ length places.now }
    requires at_most { length places.now ≤ most_values }
    requires fits { (place : ℕ) → place < length states.old.items
        → A.fits (get_or states.old.items place A.empty) (most_values - length places.now) }
    ensures items { states.new.items ≡ all_added (λ s v. A.merged s (A.of (v ∷ []))) A.empty
        places.now values.now states.old.items }
    ensures count { length states.new.items ≡ length states.old.items }
    ensures capacity { vec_capacity states.new ≡ vec_capacity states.old }
{
    add_each_in::<A>(states, places, values);
}

/// Merges the state in one place into that in another.
#[inline(always)]
fn merge_in<A: Aggregator>(states: &mut Vec<A::State>, into: usize, from: usize)
    requires into { into < length states.old.items }
    requires from { from < length states.old.items }
    requires fits { A.fits (A.merged (get_or states.old.items into A.empty)
        (get_or states.old.items from A.empty)) most_values }
    ensures items { states.new.items ≡ set states.old.items into
        (A.merged (get_or states.old.items into A.empty) (get_or states.old.items from A.empty)) }
    ensures capacity { vec_capacity states.new ≡ vec_capacity states.old }
{
    let state = states[from];
    A::merge(&mut states[into], &state);
}

impl StateColumn {
    /// No states of a kind.
    pub fn new(alloc: Global, kind: AggKind) -> Self
        ensures { result ≡ column_of kind }
    {
        let cells = match kind {
            AggKind::Count => Cells::Counts(Vec::new(alloc)),
            AggKind::Sum => Cells::Sums(Vec::new(alloc)),
            AggKind::Least => Cells::Leasts(Vec::new(alloc)),
            AggKind::Greatest => Cells::Greatests(Vec::new(alloc)),
            AggKind::Average => Cells::Averages(Vec::new(alloc)),
        };
        StateColumn { cells, spare: 0 }
    }

    pub fn kind(&self) -> AggKind
        ensures { result ≡ self.now.kind }
    {
        match &self.cells {
            Cells::Counts(_) => AggKind::Count,
            Cells::Sums(_) => AggKind::Sum,
            Cells::Leasts(_) => AggKind::Least,
            Cells::Greatests(_) => AggKind::Greatest,
            Cells::Averages(_) => AggKind::Average,
        }
    }

    pub fn len(&self) -> usize
        ensures { result ≡ length self.now.states }
    {
        match &self.cells {
            Cells::Counts(counts) => counts.len(),
            Cells::Sums(sums) => sums.len(),
            Cells::Leasts(leasts) => leasts.len(),
            Cells::Greatests(greatests) => greatests.len(),
            Cells::Averages(averages) => averages.len(),
        }
    }

    /// The state in a place.
    #[inline(always)]
    pub fn at(&self, place: usize) -> AggState
        requires { place < length self.now.states }
        ensures state { result ≡ state_at self.now place }
        ensures kind { kind_of result ≡ self.now.kind }
    {
        match &self.cells {
            Cells::Counts(counts) => AggState::Count(counts[place]),
            Cells::Sums(sums) => AggState::Sum(sums[place]),
            Cells::Leasts(leasts) => AggState::Least(leasts[place]),
            Cells::Greatests(greatests) => AggState::Greatest(greatests[place]),
            Cells::Averages(averages) => AggState::Average(averages[place]),
        }
    }

    /// Makes room for more states.
    pub fn reserve(&mut self, more: usize) -> Result<(), NoMemory>
        ensures ok { OnOk result (self.new ≡ widened more self.old) }
        ensures err { OnErr result (self.new ≡ self.old) }
    {
        if more <= self.spare {
            return Ok(());
        }
        match &mut self.cells {
            Cells::Counts(counts) => widen(counts, more),
            Cells::Sums(sums) => widen(sums, more),
            Cells::Leasts(leasts) => widen(leasts, more),
            Cells::Greatests(greatests) => widen(greatests, more),
            Cells::Averages(averages) => widen(averages, more),
        }?;
        self.spare = more;
        Ok(())
    }

    /// Adds a state of the column's kind, for which there is room.
    #[inline(always)]
    pub fn push(&mut self, state: AggState)
        requires spare { 1 ≤ self.old.spare }
        requires kind { kind_of state ≡ self.old.kind }
        ensures { self.new ≡ pushed self.old state }
    {
        match (&mut self.cells, state) {
            (Cells::Counts(counts), AggState::Count(count)) => put(counts, count),
            (Cells::Sums(sums), AggState::Sum(sum)) => put(sums, sum),
            (Cells::Leasts(leasts), AggState::Least(least)) => put(leasts, least),
            (Cells::Greatests(greatests), AggState::Greatest(greatest)) => put(greatests, greatest),
            (Cells::Averages(averages), AggState::Average(average)) => put(averages, average),
            _ => unreachable!(),
        }
        self.spare -= 1;
    }

    /// Adds the state of one value, for which there is room.
    #[inline(always)]
    pub(crate) fn push_one(&mut self, value: i64)
        requires { 1 ≤ self.old.spare }
        ensures { self.new ≡ pushed self.old (state_of self.old.kind (value ∷ [])) }
    {
        self.push(AggState::one(self.kind(), value));
    }

    /// Adds the state of no value, for which there is room.
    #[inline(always)]
    pub fn push_unit(&mut self)
        requires { 1 ≤ self.old.spare }
        ensures { self.new ≡ pushed self.old (unit_of self.old.kind) }
    {
        self.push(AggState::unit(self.kind()));
    }

    /// Adds a state that is there already once more. There is room for it.
    #[inline(always)]
    pub(crate) fn push_copy(&mut self, from: usize)
        requires spare { 1 ≤ self.old.spare }
        requires from { from < length self.old.states }
        ensures { self.new ≡ pushed self.old (state_at self.old from) }
    {
        self.push(self.at(from));
    }

    /// Adds a value to the state in a place.
    #[inline(always)]
    pub fn add_at(&mut self, place: usize, value: i64)
        requires place { place < length self.old.states }
        requires fits { Fits (merged (state_at self.old place)
            (state_of self.old.kind (value ∷ []))) most_values }
        ensures { self.new ≡ replaced place self.old
            (merged (state_at self.old place) (state_of self.old.kind (value ∷ []))) }
    {
        match &mut self.cells {
            Cells::Counts(counts) => add_in::<Count>(counts, place, value),
            Cells::Sums(sums) => add_in::<Sum>(sums, place, value),
            Cells::Leasts(leasts) => add_in::<Least>(leasts, place, value),
            Cells::Greatests(greatests) => add_in::<Greatest>(greatests, place, value),
            Cells::Averages(averages) => add_in::<Average>(averages, place, value),
        }
    }

    /// Adds values one after another, each to the state in its place. The kind of the states is
    /// looked at once.
    pub fn add_each(&mut self, places: &[u32], values: &[i64])
        requires places { All (λ place. place < length self.old.states) places.now }
        requires same { length values.now ≡ length places.now }
        requires at_most { length places.now ≤ most_values }
        requires fits { (place : ℕ) → place < length self.old.states
            → Fits (state_at self.old place) (most_values - length places.now) }
        ensures { self.new ≡ with_values places.now values.now self.old }
    {
        match &mut self.cells {
            Cells::Counts(counts) => add_each_of::<Count>(counts, places, values),
            Cells::Sums(sums) => add_each_of::<Sum>(sums, places, values),
            Cells::Leasts(leasts) => add_each_of::<Least>(leasts, places, values),
            Cells::Greatests(greatests) => add_each_of::<Greatest>(greatests, places, values),
            Cells::Averages(averages) => add_each_of::<Average>(averages, places, values),
        }
    }

    /// Merges the state in one place into that in another.
    #[inline(always)]
    pub fn merge_at(&mut self, into: usize, from: usize)
        requires into { into < length self.old.states }
        requires from { from < length self.old.states }
        requires fits { Fits (merged (state_at self.old into)
            (state_at self.old from)) most_values }
        ensures { self.new ≡ replaced into self.old
            (merged (state_at self.old into) (state_at self.old from)) }
    {
        match &mut self.cells {
            Cells::Counts(counts) => merge_in::<Count>(counts, into, from),
            Cells::Sums(sums) => merge_in::<Sum>(sums, into, from),
            Cells::Leasts(leasts) => merge_in::<Least>(leasts, into, from),
            Cells::Greatests(greatests) => merge_in::<Greatest>(greatests, into, from),
            Cells::Averages(averages) => merge_in::<Average>(averages, into, from),
        }
    }

    /// Merges the state in a place into the last one.
    #[inline(always)]
    pub fn merge_last(&mut self, from: usize)
        requires from { from < length self.old.states }
        requires fits { Fits (merged (state_at self.old (length self.old.states - 1))
            (state_at self.old from)) most_values }
        ensures { self.new ≡ replaced (length self.old.states - 1) self.old
            (merged (state_at self.old (length self.old.states - 1)) (state_at self.old from)) }
    {
        let last = self.len() - 1;
        self.merge_at(last, from);
    }

    /// The states from a place on, as a column of their own.
    pub fn tail(&self, alloc: Global, from: usize) -> Result<StateColumn, NoMemory>
        requires { from ≤ length self.now.states }
        ensures { IfOk result (λ column. column ≡ column_tail from self.now) }
    {
        let cells = match &self.cells {
            Cells::Counts(counts) => Cells::Counts(tail_of(alloc, counts, from)?),
            Cells::Sums(sums) => Cells::Sums(tail_of(alloc, sums, from)?),
            Cells::Leasts(leasts) => Cells::Leasts(tail_of(alloc, leasts, from)?),
            Cells::Greatests(greatests) => Cells::Greatests(tail_of(alloc, greatests, from)?),
            Cells::Averages(averages) => Cells::Averages(tail_of(alloc, averages, from)?),
        };
        Ok(StateColumn { cells, spare: 0 })
    }
}
