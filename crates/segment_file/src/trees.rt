//! The nodes of a star-tree of a segment's file.
ghost use Rattle.std.specs.Prelude.{◌≡◌, ◌↔◌, MatchBool, IfOk, OnOk, IsErrOf};
ghost use Rattle.star_file.specs.Rules.{IsCounted};
ghost use Rattle.segment_file.specs.Reading.{nodes_said};
ghost use Rattle.segment_file.specs.Rules.{AreNodes};

use agg_laws::TreeShape;
use star_file::{Nodes, NodesFault, check_nodes};
use std::alloc::Global;

/// What the section of a tree's nodes says: how many documents there are, and the nodes.
#[derive(Drop)]
pub struct TreeNodes {
    pub documents: u32,
    pub nodes: Nodes,
}

/// The nodes that the bytes are, of a tree of that shape over so many rows, where its split
/// dimensions have so many values each.
pub fn check_tree(
    alloc: Global,
    shape: &TreeShape,
    counts: &[u32],
    rows: u32,
    bytes: &[u8],
) -> Result<TreeNodes, NodesFault>
    requires { IsCounted shape.now counts.now }
    ensures said { IfOk result (λ tree. tree ≡ nodes_said bytes.now) }
    ensures ok { OnOk result (AreNodes shape.now counts.now rows bytes.now) }
    ensures bad { IsErrOf result NodesFault.BadNodes →
        ¬ AreNodes shape.now counts.now rows bytes.now }
{
    let (documents, nodes) = match check_nodes(alloc, shape, counts, bytes) {
        Ok(found) => found,
        Err(fault) => return Err(fault),
    };
    if !fits_rows(documents, rows) {
        return Err(NodesFault::BadNodes);
    }
    Ok(TreeNodes { documents, nodes })
}

// Whether there are no documents exactly where there are no rows.
fn fits_rows(documents: u32, rows: u32) -> bool
    ensures { MatchBool result ((documents ≡ 0) ↔ (rows ≡ 0))
        (¬ ((documents ≡ 0) ↔ (rows ≡ 0))) }
{
    (documents == 0) == (rows == 0)
}
