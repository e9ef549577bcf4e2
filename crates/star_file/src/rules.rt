//! The rules on the nodes of a tree.

ghost use Rattle.std.specs.Prelude.{◌≡◌, ◌≤◌, ◌<◌, ◌+◌, ◌-◌, ◌*◌, ◌↔◌, ◌⊎◌, IsTrue, length, ℕ};
ghost use Rattle.state_columns.specs.Region.{range};
ghost use Rattle.star_tree.specs.NodeRules.{KeepChildrenRules, KeepsRules, IsRoot};
ghost use Rattle.star_file.specs.Rules.{widths, most_bytes, IsCounted, KeepAll};

use crate::children::children_keep;
use agg_laws::{AggKind, TreeShape};
use star_tree::Node;
use state_columns::STAR;

/// The most bytes that the nodes and documents of a tree may take.
pub const MOST_TREE_BYTES: u64 = 134_217_728;

// As many nodes as a tree may have.
const MOST_NODES: usize = 4793490;

// A tree whose nodes are checked: its shape, how many ids each dimension has, how many documents
// there are, and its nodes.
#[derive(Clone, Copy)]
struct CheckedTree<'a> {
    shape: &'a TreeShape,
    counts: &'a [u32],
    documents: u32,
    nodes: &'a [Node],
    ghost few_dims: { shape.now.dims ≤ 16 },
    ghost counts_are: { length counts.now ≡ shape.now.dims },
}

/// Whether a tree takes no more bytes than one may.
pub fn few_bytes(shape: &TreeShape, documents: u32, nodes: usize) -> bool
    requires { length shape.now.kinds ≤ 16 }
    ensures { IsTrue result ↔ (documents * (4 * shape.now.dims + widths shape.now.kinds) + 28 *
        nodes ≤ most_bytes) }
{
    if nodes > MOST_NODES {
        return false;
    }
    let width = 4 * shape.dims as u32 + widths(shape.kinds.as_slice());
    documents as u64 * width as u64 + 28 * nodes as u64 <= MOST_TREE_BYTES
}

/// Whether the nodes of a tree of so many documents keep all rules.
pub(crate) fn nodes_keep(shape: &TreeShape, counts: &[u32], documents: u32, nodes: &[Node]) -> bool
    requires { IsCounted shape.now counts.now }
    ensures { IsTrue result ↔ KeepAll shape.now counts.now documents nodes.now }
{
    if !few_bytes(shape, documents, nodes.len()) {
        return false;
    }
    if nodes.is_empty() || documents == 0 {
        return nodes.is_empty() && documents == 0;
    }
    let tree = CheckedTree {
        shape,
        counts,
        documents,
        nodes,
    };
    is_root(&nodes[0]) && each_keeps(&tree)
}

/// The bytes of states of some kinds.
pub(crate) fn widths(kinds: &[AggKind]) -> u32
    requires { length kinds.now ≤ 16 }
    ensures value { result ≡ widths kinds.now }
    ensures bound { result ≤ 384 }
{
    let mut sum: u32 = 0;
    for i in 0..kinds.len() {
        sum += kinds[i].width() as u32;
    }
    sum
}

// Whether a leaf keeps the rules on its documents.
fn leaf_keeps(shape: &TreeShape, node: &Node) -> bool
    ensures { IsTrue result ↔ ((node.now.first ≡ 0) × ((node.now.end - node.now.start
        ≤ shape.now.leaf) ⊎ ((node.now.level ≡ shape.now.dims) × (node.now.end - node.now.start
        ≡ 1)))) }
{
    let size = node.end.saturating_sub(node.start);
    node.first == 0 && (size <= shape.leaf || (node.level == shape.dims as u32 && size == 1))
}

// Whether a split node keeps the rules on its children.
fn split_keeps(tree: &CheckedTree<'_>, at: usize, node: &Node) -> bool
    ensures { IsTrue result ↔ ((node.now.level < tree.now.shape.now.dims) × (at < node.now.first)
        × (node.now.first + node.now.children ≤ length tree.now.nodes.now)
        × KeepChildrenRules tree.now.shape.now tree.now.counts.now node.now.level node.now.start
        node.now.end (range node.now.first (node.now.first + node.now.children)
        tree.now.nodes.now)) }
{
    let first = node.first as usize;
    let end = first + node.children as usize;
    if node.level >= tree.shape.dims as u32 || first <= at || end > tree.nodes.len() {
        return false;
    }
    children_keep(tree.shape, tree.counts, node, &tree.nodes[first..end])
}

// Whether a node keeps the rules.
fn node_keeps(tree: &CheckedTree<'_>, at: usize) -> bool
    requires { at < length tree.now.nodes.now }
    ensures { IsTrue result ↔ KeepsRules tree.now.shape.now tree.now.shape.now.dims
        tree.now.counts.now tree.now.documents tree.now.nodes.now at }
{
    let node = tree.nodes[at];
    if node.level > tree.shape.dims as u32 || node.start >= node.end {
        return false;
    }
    if node.end > tree.documents || node.total >= tree.documents {
        return false;
    }
    if node.children == 0 {
        leaf_keeps(tree.shape, &node)
    } else {
        split_keeps(tree, at, &node)
    }
}

// Whether each node does.
fn each_keeps(tree: &CheckedTree<'_>) -> bool
    ensures { IsTrue result ↔ ((at : ℕ) → at < length tree.now.nodes.now
        → KeepsRules tree.now.shape.now tree.now.shape.now.dims tree.now.counts.now
        tree.now.documents tree.now.nodes.now at) }
{
    for at in 0..tree.nodes.len() {
        if !node_keeps(tree, at) {
            return false;
        }
    }
    true
}

// Whether the first node is a root.
fn is_root(node: &Node) -> bool
    ensures { IsTrue result ↔ IsRoot node.now }
{
    node.level == 0 && node.id == STAR && node.start == 0
}
