//! A star-tree on the way.

use star_table::StarTable;
use star_tree::Node;

/// The documents and the nodes that a tree has so far.
#[derive(Drop)]
pub(crate) struct Growing {
    pub docs: StarTable,
    pub nodes: Vec<Node>,
}
