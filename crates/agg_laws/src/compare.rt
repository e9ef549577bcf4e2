//! The order of states.

ghost use Rattle.std.specs.Prelude.{◌≡◌, ◌≤◌, pos, ◌*ℤ◌};
ghost use Rattle.agg_laws.specs.Numbers.{most_values, AverageFits, SumFits};
ghost use Rattle.agg_laws.specs.States.{kind_of, Fits};
ghost use Rattle.agg_laws.specs.Order.{HasValues, average_order, state_order};

use crate::averages::AverageState;
use crate::states::AggState;
use std::cmp::Ordering;

/// Compares two states of one kind: averages as fractions, and others by value. It takes no memory.
pub fn compare_states(a: &AggState, b: &AggState) -> Ordering
    requires kinds { kind_of a.now ≡ kind_of b.now }
    requires a_values { HasValues a.now }
    requires b_values { HasValues b.now }
    requires a_fits { Fits a.now most_values }
    requires b_fits { Fits b.now most_values }
    ensures { result ≡ state_order a.now b.now }
{
    match (a, b) {
        (AggState::Count(a), AggState::Count(b)) => a.cmp(b),
        (AggState::Sum(a), AggState::Sum(b)) => a.cmp(b),
        (AggState::Least(Some(a)), AggState::Least(Some(b))) => a.cmp(b),
        (AggState::Greatest(Some(a)), AggState::Greatest(Some(b))) => a.cmp(b),
        (AggState::Average(a), AggState::Average(b)) => compare_averages(a, b),
        _ => unreachable!(),
    }
}

/// A sum times a count, within 121 bits.
fn product(sum: i128, count: u64) -> i128
    requires sum { SumFits sum most_values }
    requires count { count ≤ most_values }
    ensures { result ≡ sum *ℤ pos count }
{
    sum * count as i128
}

/// Compares two averages as fractions.
fn compare_averages(a: &AverageState, b: &AverageState) -> Ordering
    requires a_count { 1 ≤ a.now.count }
    requires b_count { 1 ≤ b.now.count }
    requires a_fits { AverageFits a.now most_values }
    requires b_fits { AverageFits b.now most_values }
    ensures { result ≡ average_order a.now b.now }
{
    product(a.sum, b.count).cmp(&product(b.sum, a.count))
}
