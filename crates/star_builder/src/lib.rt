//! The making of star-trees: the nodes and documents of the tree of some rows, written flat.
#![tactic(auto)]

mod build;
mod fault;
mod groups;
mod growing;
mod growth;
mod visit;

pub use agg_laws::NoMemory;
pub use build::{build_merged, build_tree};
pub use fault::TreeFault;
