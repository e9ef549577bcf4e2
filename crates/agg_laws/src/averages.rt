//! The average of some values, as their sum and their number.

ghost use Rattle.std.specs.Prelude.{◌↔◌, IsTrue};
ghost use Rattle.agg_laws.specs.Numbers.{AverageStored};

use crate::aggregator::{Aggregator, BadState, MOST_STORED};
use crate::numbers::{read_i128, read_u64};
use crate::sums::sum_fits;

/// The average of some values, kept as their sum and their number.
pub struct Average;

/// A sum and a count, whose quotient is the average.
#[derive(Clone, Copy, Debug, PartialEq, Eq)]
pub struct AverageState {
    pub sum: i128,
    pub count: u64,
}

/// Whether a state can be stored.
fn is_stored(state: AverageState) -> bool
    ensures { IsTrue result ↔ AverageStored state }
{
    state.count >= 1 && state.count <= MOST_STORED && sum_fits(state.sum, state.count)
}

impl Aggregator for Average {
    ghost use Rattle.std.specs.Prelude.{pos};
    ghost use Rattle.agg_laws.specs.Numbers.{average_of, both_averages, AverageFits, AverageStored};
    ghost use Rattle.agg_laws.specs.Numbers.{average_bytes};
    ghost use Rattle.agg_laws.specs.laws.Averages as laws;

    type State = AverageState;

    const WIDTH: usize = 24;

    ghost WIDTH = { 24 };

    ghost of = { average_of };

    ghost empty = { record { sum = pos 0; count = 0 } };

    ghost merged = { both_averages };

    ghost fits = { AverageFits };

    ghost stored = { AverageStored };

    ghost spelling = { average_bytes };

    ghost aggregate = { laws.aggregate };

    ghost storage = { laws.storage };

    fn unit() -> AverageState {
        AverageState { sum: 0, count: 0 }
    }

    fn add(state: &mut AverageState, value: i64) {
        state.sum += value as i128;
        state.count += 1;
    }

    fn merge(into: &mut AverageState, from: &AverageState) {
        into.sum += from.sum;
        into.count += from.count;
    }

    #[tactic(auto, unfolding(crate::specs::Numbers::average_bytes, crate::specs::Numbers::sum_bytes, crate::specs::Numbers::count_bytes))]
    fn put(state: &AverageState, out: &mut [u8]) {
        let (sum, count) = out.split_at_mut(16);
        sum.copy_from_slice(&state.sum.to_be_bytes());
        count.copy_from_slice(&state.count.to_be_bytes());
    }

    fn take(bytes: &[u8]) -> Result<AverageState, BadState> {
        let (sum, count) = bytes.split_at(16);
        let state = AverageState {
            sum: read_i128(sum),
            count: read_u64(count),
        };
        if is_stored(state) {
            Ok(state)
        } else {
            Err(BadState)
        }
    }
}
