//! The rows of a segment as documents of a star-tree, one document a row, and as words that tell
//! which rows have the same ids.
#![tactic(auto)]

mod compare;
mod key_change;
mod numbers;
mod projection;

pub use compare::compare_dims;
pub use key_change::{MOST_ROWS, changes_key, changes_wide_key, repeats};
pub use numbers::{NumberColumns, PairNumbers};
pub use outside::NoMemory;
pub use projection::{project, read_row};
