//! How many values there are.

ghost use Rattle.std.specs.Prelude.{◌≡◌, ◌+◌, ◌≤◌, length};

use crate::aggregator::{Aggregator, BadState, MOST_STORED};
use crate::numbers::read_u64;

/// How many values there are.
pub struct Count;

impl Aggregator for Count {
    ghost use Rattle.std.specs.Prelude.{◌+◌, ◌≤◌, length};
    ghost use Rattle.agg_laws.specs.Numbers.{CountStored, count_bytes};
    ghost use Rattle.agg_laws.specs.laws.Counts as laws;

    type State = u64;

    const WIDTH: usize = 8;

    ghost WIDTH = { 8 };

    ghost of = { λ xs. length xs };

    ghost empty = { 0 };

    ghost merged = { λ a b. a + b };

    ghost fits = { λ c n. c ≤ n };

    ghost stored = { CountStored };

    ghost spelling = { count_bytes };

    ghost aggregate = { laws.aggregate };

    ghost storage = { laws.storage };

    fn unit() -> u64 {
        0
    }

    fn add(state: &mut u64, _value: i64) {
        *state += 1;
    }

    fn merge(into: &mut u64, from: &u64) {
        *into += *from;
    }

    #[tactic(auto, unfolding(crate::specs::Numbers::count_bytes))]
    fn put(state: &u64, out: &mut [u8]) {
        out.copy_from_slice(&state.to_be_bytes());
    }

    fn take(bytes: &[u8]) -> Result<u64, BadState> {
        let count = read_u64(bytes);
        if count == 0 || count > MOST_STORED {
            return Err(BadState);
        }
        Ok(count)
    }
}
