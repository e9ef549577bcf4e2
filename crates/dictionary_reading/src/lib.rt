//! A dictionary that is read where it lies: a bound is found by halving, and only those values are
//! read that are asked for.
#![tactic(auto)]

mod block;
mod bounds;
mod bytes;
mod cutting;
mod fault;
mod in_file;
mod listing;
mod matching;
mod numbers;
mod part;

pub use block::Block;
pub use bounds::bounds_of;
pub use bytes::{between, eight_at, four_at};
pub use fault::LookupFault;
pub use in_file::FileDictionary;
pub use listing::MOST_AT_ONCE;
pub use matching::matching_ids;
pub use part::read_part;
