//! The sections of a segment's file that tell where each id of a column is: how they are written,
//! and how the places of ids are read from them.
#![tactic(auto)]

mod inverted;
mod keys;
mod postings;
mod ranged;
mod sorted;
mod words;

pub use inverted::{places_by_id, write_inverted};
pub use ranged::write_ranged;
pub use sorted::write_sorted;
