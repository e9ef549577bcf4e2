//! The parts of the settings of tables: the head, and what is under `tableIndexConfig`.
#![tactic(auto)]

mod columns;
mod head;
mod index_text;
mod pairs;
mod sorted;
mod trees;

pub use head::read_head;
pub use index_text::{INDEX_KEY, read_indexes, unindexed};
