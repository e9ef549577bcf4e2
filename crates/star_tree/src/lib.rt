//! The star-tree as a value: its nodes, and the laws of merged documents and of the tree.
#![tactic(auto)]

mod laws;
mod node;

pub use laws::{
    aggregated_law, answer_law, children_law, covers_law, flat_law, merged_law, node_rules_law,
    picks_law, projected_law, reads_law, shares_law, worked_law,
};
pub use node::Node;
