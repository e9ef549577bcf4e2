//! The least and the greatest of some values.

use crate::aggregator::{Aggregator, BadState};
use crate::numbers::read_i64;

/// The least value, or none.
pub struct Least;

/// The greatest value, or none.
pub struct Greatest;

impl Aggregator for Least {
    ghost use Rattle.std.specs.Prelude.{None};
    ghost use Rattle.agg_laws.specs.Numbers.{least_of, lesser, NumberFits, NumberStored, number_bytes};
    ghost use Rattle.agg_laws.specs.laws.Leasts as laws;

    type State = Option<i64>;

    const WIDTH: usize = 8;

    ghost WIDTH = { 8 };

    ghost of = { least_of };

    ghost empty = { None };

    ghost merged = { lesser };

    ghost fits = { λ v _. NumberFits v };

    ghost stored = { NumberStored };

    ghost spelling = { number_bytes };

    ghost aggregate = { laws.aggregate };

    ghost storage = { laws.storage };

    fn unit() -> Option<i64> {
        None
    }

    fn add(state: &mut Option<i64>, value: i64) {
        *state = match *state {
            Some(least) => Some(least.min(value)),
            None => Some(value),
        };
    }

    fn merge(into: &mut Option<i64>, from: &Option<i64>) {
        if let Some(value) = *from {
            Least::add(into, value);
        }
    }

    #[tactic(auto, unfolding(crate::specs::Numbers::number_bytes))]
    fn put(state: &Option<i64>, out: &mut [u8]) {
        match *state {
            Some(least) => out.copy_from_slice(&least.to_be_bytes()),
            None => unreachable!(),
        }
    }

    fn take(bytes: &[u8]) -> Result<Option<i64>, BadState> {
        Ok(Some(read_i64(bytes)))
    }
}

impl Aggregator for Greatest {
    ghost use Rattle.std.specs.Prelude.{None};
    ghost use Rattle.agg_laws.specs.Numbers.{greatest_of, greater, NumberFits, NumberStored, number_bytes};
    ghost use Rattle.agg_laws.specs.laws.Greatests as laws;

    type State = Option<i64>;

    const WIDTH: usize = 8;

    ghost WIDTH = { 8 };

    ghost of = { greatest_of };

    ghost empty = { None };

    ghost merged = { greater };

    ghost fits = { λ v _. NumberFits v };

    ghost stored = { NumberStored };

    ghost spelling = { number_bytes };

    ghost aggregate = { laws.aggregate };

    ghost storage = { laws.storage };

    fn unit() -> Option<i64> {
        None
    }

    fn add(state: &mut Option<i64>, value: i64) {
        *state = match *state {
            Some(greatest) => Some(greatest.max(value)),
            None => Some(value),
        };
    }

    fn merge(into: &mut Option<i64>, from: &Option<i64>) {
        if let Some(value) = *from {
            Greatest::add(into, value);
        }
    }

    #[tactic(auto, unfolding(crate::specs::Numbers::number_bytes))]
    fn put(state: &Option<i64>, out: &mut [u8]) {
        match *state {
            Some(greatest) => out.copy_from_slice(&greatest.to_be_bytes()),
            None => unreachable!(),
        }
    }

    fn take(bytes: &[u8]) -> Result<Option<i64>, BadState> {
        Ok(Some(read_i64(bytes)))
    }
}
