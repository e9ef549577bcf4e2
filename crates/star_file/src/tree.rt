//! A star-tree, written flat.

use data_types::Seq;
use star_table::StarTable;
use star_tree::Node;

/// The nodes of a star-tree, by number.
pub type Nodes = Seq<Node>;

/// A star-tree: its documents and its nodes, by number.
#[derive(Drop)]
pub struct StarTree {
    pub docs: StarTable,
    pub nodes: Nodes,
}
