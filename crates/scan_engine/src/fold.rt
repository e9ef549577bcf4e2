//! The aggregates of some rows of a table of numbers, column by column.

ghost use Rattle.std.specs.Prelude.{◌≡◌, ◌≤◌, ℕ, IfOk, get_or, length, map, pos};
ghost use Rattle.values.specs.Columns.{row_of};
ghost use Rattle.agg_laws.specs.Numbers.{IsWhole, most_values};
ghost use Rattle.agg_laws.specs.Rows.{RowFits};
ghost use Rattle.agg_laws.specs.States.{Fits, state_of};
ghost use Rattle.group_table.specs.Groups.{number_for, states_of};
ghost use Rattle.scan_engine.specs.Places.{rows_at};

use crate::holds::numbers_of;
use crate::number_block::NumberBlock;
use agg_laws::{AggKind, AggState, Aggregator, Average, Count, Greatest, Least, Sum};
use state_columns::StateRow;
use std::alloc::Global;
use table_schema::Agg;
use values::NoMemory;

/// The aggregates of the rows in these places.
pub(crate) fn states_at(
    alloc: Global,
    aggs: &[Agg],
    block: NumberBlock,
    places: &[u32],
) -> Result<StateRow, NoMemory>
    requires { length places.now ≤ most_values }
    ensures states { IfOk result (λ states. states
        ≡ states_of aggs.now (rows_at block.entry.columns.now.columns places.now)) }
    ensures fits { IfOk result (λ states. RowFits states (length places.now)) }
{
    let mut states = StateRow::new(alloc);
    for agg in aggs {
        states.push(state_at(agg.kind, numbers_for(block, agg), places))?;
    }
    Ok(states)
}

// The numbers of the rows for an aggregate, up to the last that is not 0 for want of a column.
fn numbers_for<'a>(block: NumberBlock<'a>, agg: &Agg) -> &'a [i64]
    ensures { (at : ℕ) → number_for agg.now (row_of block.entry.columns.now.columns at)
        ≡ get_or result.now at (pos 0) }
{
    match agg.column {
        Some(column) => match numbers_of(block, column) {
            Some(numbers) => numbers,
            None => &[],
        },
        None => &[],
    }
}

// The state of the numbers in these places; beyond the last number there is 0.
fn state_at(kind: AggKind, numbers: &[i64], places: &[u32]) -> AggState
    requires { length places.now ≤ most_values }
    ensures state { result ≡ state_of kind (map (λ at. get_or numbers.now at (pos 0)) places.now) }
    ensures fits { Fits result (length places.now) }
{
    match kind {
        AggKind::Count => AggState::Count(folded::<Count>(numbers, places)),
        AggKind::Sum => AggState::Sum(folded::<Sum>(numbers, places)),
        AggKind::Least => AggState::Least(folded::<Least>(numbers, places)),
        AggKind::Greatest => AggState::Greatest(folded::<Greatest>(numbers, places)),
        AggKind::Average => AggState::Average(folded::<Average>(numbers, places)),
    }
}

// What an aggregate keeps of the numbers in these places.
fn folded<A: Aggregator>(numbers: &[i64], places: &[u32]) -> A::State
    requires { length places.now ≤ most_values }
    ensures state { result ≡ A.of (map (λ at. get_or numbers.now at (pos 0)) places.now) }
    ensures fits { A.fits result (length places.now) }
{
    let mut state = A::unit();
    for place in places {
        A::add(&mut state, number_at(numbers, *place as usize));
    }
    state
}

// The number in a place; beyond the last there is 0.
#[inline(always)]
fn number_at(numbers: &[i64], at: usize) -> i64
    ensures value { result ≡ get_or numbers.now at (pos 0) }
    ensures whole { IsWhole result }
{
    match numbers.get(at) {
        Some(number) => *number,
        None => 0,
    }
}
