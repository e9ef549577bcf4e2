//! The sum of some values.

ghost use Rattle.std.specs.Prelude.{◌≡◌, ◌≤◌, ◌↔◌, IsTrue};
ghost use Rattle.agg_laws.specs.Numbers.{SumFits, most_stored};

use crate::aggregator::{Aggregator, BadState, MOST_STORED};
use crate::numbers::read_i128;

/// The sum of some values, as a whole number of 128 bits.
pub struct Sum;

/// Whether a sum can come from so many values.
pub(crate) fn sum_fits(sum: i128, count: u64) -> bool
    requires { count ≤ most_stored }
    ensures { IsTrue result ↔ SumFits sum count }
{
    let count = count as i128;
    count * -9223372036854775808 <= sum && sum <= count * 9223372036854775807
}

impl Aggregator for Sum {
    ghost use Rattle.std.specs.Prelude.{◌+ℤ◌, pos};
    ghost use Rattle.agg_laws.specs.Numbers.{sum_of, SumFits, SumStored, sum_bytes};
    ghost use Rattle.agg_laws.specs.laws.Sums as laws;

    type State = i128;

    const WIDTH: usize = 16;

    ghost WIDTH = { 16 };

    ghost of = { sum_of };

    ghost empty = { pos 0 };

    ghost merged = { λ a b. a +ℤ b };

    ghost fits = { SumFits };

    ghost stored = { SumStored };

    ghost spelling = { sum_bytes };

    ghost aggregate = { laws.aggregate };

    ghost storage = { laws.storage };

    fn unit() -> i128 {
        0
    }

    fn add(state: &mut i128, value: i64) {
        *state += value as i128;
    }

    fn merge(into: &mut i128, from: &i128) {
        *into += *from;
    }

    #[tactic(auto, unfolding(crate::specs::Numbers::sum_bytes))]
    fn put(state: &i128, out: &mut [u8]) {
        out.copy_from_slice(&state.to_be_bytes());
    }

    fn take(bytes: &[u8]) -> Result<i128, BadState> {
        let sum = read_i128(bytes);
        if sum_fits(sum, MOST_STORED) {
            Ok(sum)
        } else {
            Err(BadState)
        }
    }
}
