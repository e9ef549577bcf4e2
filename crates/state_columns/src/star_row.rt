//! A document of a star-tree.

use crate::id_list::Ids;
use crate::state_row::StateRow;

/// A document of a star-tree: a combination of ids, with the states of the rows that have it.
#[derive(Drop)]
pub struct StarRow {
    /// One id for each split dimension, in split order. `STAR` stands for any.
    pub dims: Ids,
    /// One state for each pair, in order.
    pub states: StateRow,
}
