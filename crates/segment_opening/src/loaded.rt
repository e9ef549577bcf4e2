//! What was loaded of a segment for its answer.

use crate::asked::Found;

/// What was loaded of a segment for its answer.
#[derive(Drop)]
pub enum Loaded {
    /// Nothing: no value of some column satisfies the conjuncts on it.
    Emptied,
    /// What the answer wants.
    Wanted,
    /// What it wants but for columns that the query only tests, of which this was found.
    But(Found),
}
