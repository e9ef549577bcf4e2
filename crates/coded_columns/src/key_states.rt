//! The states of one aggregate, key by key.

ghost use Rattle.std.specs.Prelude.{◌≡◌, ◌<◌, ◌-◌, ℕ, IfOk, length, replicate};
ghost use Rattle.agg_laws.specs.States.{unit_of};
ghost use Rattle.value_ids.specs.Coding.{AreBelow};
ghost use Rattle.coded_columns.specs.Coded.{most_rows};
ghost use Rattle.coded_columns.specs.Keyed.{AddsNumbers, AllFit, AreKeyed, kind_in, size_in, state_in};

use crate::counting::count_keys;
use crate::summing::add_sums;
use agg_laws::{AggKind, AggState};
use state_columns::StateColumn;
use std::alloc::Global;
use values::NoMemory;

/// The states of one aggregate, one for each key.
#[derive(Drop)]
pub enum KeyStates {
    Counts(Vec<u32>),
    Sums(Vec<i128>),
    Others(StateColumn),
}

impl KeyStates {
    /// So many states of no number.
    pub fn units(alloc: Global, kind: AggKind, size: usize) -> Result<KeyStates, NoMemory>
        ensures kind { IfOk result (λ states. kind_in states ≡ kind) }
        ensures size { IfOk result (λ states. size_in states ≡ size) }
        ensures each { IfOk result (λ states. (key : ℕ) → key < size
            → state_in states key ≡ unit_of kind) }
    {
        match kind {
            AggKind::Count => {
                let counts = vec![in alloc; 0u32; size]?;
                Ok(KeyStates::Counts(counts))
            }
            AggKind::Sum => {
                let sums = vec![in alloc; 0i128; size]?;
                Ok(KeyStates::Sums(sums))
            }
            AggKind::Least | AggKind::Greatest | AggKind::Average => {
                let column = units(alloc, kind, size)?;
                Ok(KeyStates::Others(column))
            }
        }
    }

    /// Adds the number of each row to the state of the row's key. Where rows are counted their
    /// numbers are not looked at.
    pub fn add(&mut self, keys: &[u32], numbers: &[i64])
        requires keyed { AreKeyed keys.now numbers.now }
        requires below { AreBelow (size_in self.old) keys.now }
        requires fits { AllFit (most_rows - length keys.now) self.old }
        ensures { AddsNumbers keys.now numbers.now self.old self.new }
    {
        match self {
            KeyStates::Counts(counts) => count_keys(keys, counts),
            KeyStates::Sums(sums) => add_sums(keys, numbers, sums),
            KeyStates::Others(column) => column.add_each(keys, numbers),
        }
    }

    /// The state of a key.
    #[inline(always)]
    pub fn at(&self, key: usize) -> AggState
        requires { key < size_in self.now }
        ensures { result ≡ state_in self.now key }
    {
        match self {
            KeyStates::Counts(counts) => AggState::Count(u64::from(counts[key])),
            KeyStates::Sums(sums) => AggState::Sum(sums[key]),
            KeyStates::Others(column) => column.at(key),
        }
    }
}

// So many states of no number, in a column.
fn units(alloc: Global, kind: AggKind, count: usize) -> Result<StateColumn, NoMemory>
    ensures kind { IfOk result (λ column. column.kind ≡ kind) }
    ensures states { IfOk result (λ column. column.states ≡ replicate count (unit_of kind)) }
{
    let mut column = StateColumn::new(alloc, kind);
    column.reserve(count)?;
    for _ in 0..count {
        column.push_unit();
    }
    Ok(column)
}
