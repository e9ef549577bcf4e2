//! How many rows stored states stand for at least.

ghost use Rattle.std.specs.Prelude.{◌≡◌, ◌≤◌};
ghost use Rattle.agg_laws.specs.Numbers.{SumStored, most_stored};
ghost use Rattle.agg_laws.specs.Rows.{RowStored, row_weight, sum_weight};
ghost use Rattle.agg_laws.specs.Rows as rows;
ghost use Rattle.agg_laws.specs.States.{IsStored};

use agg_laws::AggState;

/// The least number of rows that a document with these states stands for.
pub(crate) fn weight_of(states: &[AggState]) -> u32
    requires { RowStored states.now }
    ensures weight { result ≡ row_weight states.now }
    ensures bound { result ≤ most_stored }
{
    let mut most: u32 = 0;
    for state in states {
        most = most.max(weight_of_state(state));
    }
    most
}

// The least number of values that a state stands for.
fn weight_of_state(state: &AggState) -> u32
    requires { IsStored state.now }
    ensures weight { result ≡ rows.weight_of state.now }
    ensures bound { result ≤ most_stored }
{
    match state {
        AggState::Count(count) => *count as u32,
        AggState::Sum(sum) => weight_of_sum(*sum),
        AggState::Least(_) => 0,
        AggState::Greatest(_) => 0,
        AggState::Average(average) => average.count as u32,
    }
}

// The least number of values that have a sum.
fn weight_of_sum(sum: i128) -> u32
    requires { SumStored sum }
    ensures weight { result ≡ sum_weight sum }
    ensures bound { result ≤ most_stored }
{
    if sum == 0 {
        return 0;
    }
    if sum >= -9_223_372_036_854_775_808 && sum <= 9_223_372_036_854_775_807 {
        return 1;
    }
    if sum >= 0 {
        ((sum as u128 + 9_223_372_036_854_775_806) / 9_223_372_036_854_775_807) as u32
    } else {
        ((-1 - sum) as u128 / 9_223_372_036_854_775_808 + 1) as u32
    }
}
