//! Bytes read as the nodes of a tree.

ghost use Rattle.std.specs.Prelude.{◌≡◌, ◌≤◌, ◌+◌, ◌-◌, ◌*◌, length, drop, IfOk, IfErr};
ghost use Rattle.star_file.specs.Rules.{number_at, node_in, nodes_in, count_in};
ghost use Rattle.star_file.specs.Rules.{IsCounted, KeepsSection};

use crate::NoMemory;
use crate::rules::nodes_keep;
use crate::tree::Nodes;
use agg_laws::TreeShape;
use star_tree::Node;
use std::alloc::{AllocError, Global};

/// Why bytes are no nodes of a tree.
#[derive(Clone, Copy, Debug, PartialEq, Eq)]
pub enum NodesFault {
    /// A rule on nodes fails.
    BadNodes,
    NoMemory,
}

impl From<AllocError> for NodesFault {
    ghost use Rattle.std.specs.Prelude.{◌≡◌};
    ghost use Rattle.star_file.specs.declared.checking.NodesFault.TheVariants.{NoMemory};

    ghost from_gives = { λ _ fault. fault ≡ NoMemory };

    fn from(_: AllocError) -> Self {
        NodesFault::NoMemory
    }
}

/// The number in four bytes.
pub(crate) fn number(bytes: &[u8], at: usize) -> u32
    requires { at + 4 ≤ length bytes.now }
    ensures { result ≡ number_at at bytes.now }
{
    match bytes[at..at + 4].first_chunk::<4>() {
        Some(chunk) => u32::from_be_bytes(*chunk),
        None => unreachable!(),
    }
}

/// The node in 28 bytes.
fn read_node(bytes: &[u8]) -> Node
    requires { length bytes.now ≡ 28 }
    ensures { result ≡ node_in bytes.now }
{
    Node {
        level: number(bytes, 0),
        id: number(bytes, 4),
        start: number(bytes, 8),
        end: number(bytes, 12),
        total: number(bytes, 16),
        first: number(bytes, 20),
        children: number(bytes, 24),
    }
}

/// So many nodes.
fn read_nodes(alloc: Global, bytes: &[u8], count: usize) -> Result<Nodes, NoMemory>
    requires { length bytes.now ≡ 28 * count }
    ensures { IfOk result (λ nodes. nodes ≡ nodes_in count bytes.now) }
{
    let mut nodes = Vec::with_capacity(alloc, count)?;
    for i in 0..count {
        nodes.push(read_node(&bytes[28 * i..28 * i + 28]))?;
    }
    Ok(Nodes::from_vec(nodes))
}

/// How many documents a section of nodes speaks of, and its nodes, where they keep all rules.
pub fn check_nodes(
    alloc: Global,
    shape: &TreeShape,
    counts: &[u32],
    bytes: &[u8],
) -> Result<(u32, Nodes), NodesFault>
    requires { IsCounted shape.now counts.now }
    ensures documents { IfOk result (λ found. found.0 ≡ number_at 0 bytes.now) }
    ensures nodes { IfOk result (λ found. found.1
        ≡ nodes_in (count_in bytes.now) (drop 4 bytes.now)) }
    ensures keeps { IfOk result (λ found. KeepsSection shape.now counts.now bytes.now) }
    ensures bad { IfErr result (λ fault. fault ≡ NodesFault.BadNodes
        → KeepsSection shape.now counts.now bytes.now → ⊥) }
{
    if bytes.len() < 4 || (bytes.len() - 4) % 28 != 0 {
        return Err(NodesFault::BadNodes);
    }
    let count = (bytes.len() - 4) / 28;
    let documents = number(bytes, 0);
    let nodes = read_nodes(alloc, &bytes[4..], count)?;
    if !nodes_keep(shape, counts, documents, nodes.as_slice()) {
        return Err(NodesFault::BadNodes);
    }
    Ok((documents, nodes))
}
