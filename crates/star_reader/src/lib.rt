//! The documents of a star-tree that a walk picks are read, and those that pass their remaining
//! tests are selected, with their ids in the group columns of a query and their states for its
//! aggregates.
#![tactic(auto)]

mod asked;
mod fault;
mod key;
mod picked;
mod row_count;
mod selection;
mod testing;
mod tree_part;

pub use asked::{Asked, GroupColumn};
pub use fault::AnswerFault;
pub use key::{is_key, key_at};
pub use picked::take_picks;
pub use tree_part::TreePart;
