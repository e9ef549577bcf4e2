//! The answer of a segment from a star-tree of its file: the nodes of the tree are read, and the
//! documents that a walk picks, and the states of those that pass their remaining tests are merged
//! into the groups of a query.
#![tactic(auto)]

mod answer;
mod asking;
mod doc_laws;
mod intersection;
mod laws;
mod merging;
mod segment;
mod tasks;
mod tree_fault;

pub use doc_laws::{docs_bound_law, docs_few_law, docs_read_law};
pub use laws::{covered_law, rows_law, served_law};
pub use outside::NoMemory;
pub use segment::answer_segment;
