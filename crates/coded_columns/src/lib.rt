//! Columns by the ids of their values: rows of one key come into one slot, and each slot has their
//! aggregates.
#![tactic(auto)]

mod coded;
mod counting;
mod ids;
mod key_ids;
mod key_states;
mod keyed_rows;
mod keys;
mod placed_ids;
mod placed_rows;
mod ranking;
mod row_numbers;
mod slots;
mod summing;

pub use coded::{Coded, SegmentColumns};
pub use ids::{IdRoom, IdSlices, Ids};
pub use keyed_rows::{KeyRoom, KeyedRows};
pub use keys::key_count;
pub use placed_rows::PlacedRows;
