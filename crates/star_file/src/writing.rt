//! Star-trees are written.

ghost use Rattle.std.specs.Prelude.{◌≡◌, ◌<◌, ◌≤◌, ◌^◌, ◌*◌, ◌++◌, OnOk, OnErr, length};
ghost use Rattle.state_columns.specs.Docs.{doc_at};
ghost use Rattle.state_columns.specs.Region.{range};
ghost use Rattle.star_file.specs.Bytes.{words, node_words, nodes_section, state_bytes};
ghost use Rattle.star_file.specs.Bytes.{doc_bytes, Adds};
ghost use Rattle.star_file.specs.Reading.{IsWritable};

use crate::NoMemory;
use crate::rules::widths;
use crate::tree::StarTree;
use crate::words::{push_state, push_word, push_words};
use star_table::StarTable;
use star_tree::Node;

/// Appends how many documents a tree has, and its nodes.
pub fn write_nodes(tree: &StarTree, out: &mut Vec<u8>) -> Result<(), NoMemory>
    requires { length tree.now.docs.docs < 2 ^ 32 }
    ensures ok { OnOk result (out.new.items
        ≡ out.old.items ++ nodes_section (length tree.now.docs.docs) tree.now.nodes) }
    ensures err { OnErr result (out.new.items ≡ out.old.items) }
{
    let start = out.len();
    if let Err(fault) = push_nodes(tree, out) {
        out.truncate(start);
        return Err(fault);
    }
    Ok(())
}

fn push_nodes(tree: &StarTree, out: &mut Vec<u8>) -> Result<(), NoMemory>
    requires { length tree.now.docs.docs < 2 ^ 32 }
    ensures { Adds (nodes_section (length tree.now.docs.docs) tree.now.nodes)
        out.old.items out.new.items result }
{
    let nodes = tree.nodes.as_slice();
    out.reserve(nodes.len().saturating_mul(28).saturating_add(4))?;
    push_word(tree.docs.len() as u32, out)?;
    for i in 0..nodes.len() {
        push_node(&nodes[i], out)?;
    }
    Ok(())
}

fn push_node(node: &Node, out: &mut Vec<u8>) -> Result<(), NoMemory>
    ensures { Adds (words (node_words node.now))
        out.old.items out.new.items result }
{
    let numbers = [
        node.level,
        node.id,
        node.start,
        node.end,
        node.total,
        node.first,
        node.children,
    ];
    push_words(&numbers, out)
}

/// Appends the documents of a tree.
pub fn write_docs(tree: &StarTree, out: &mut Vec<u8>) -> Result<(), NoMemory>
    requires at_most { length tree.now.docs.docs < 2 ^ 32 }
    requires kinds { length tree.now.docs.kinds ≤ 16 }
    ensures ok { OnOk result (out.new.items ≡ out.old.items ++ doc_bytes tree.now.docs.docs) }
    ensures err { OnErr result (out.new.items ≡ out.old.items) }
{
    write_docs_range(tree, 0, tree.docs.len() as u32, out)
}

/// Appends those from one number up to another.
pub fn write_docs_range(
    tree: &StarTree,
    from: u32,
    to: u32,
    out: &mut Vec<u8>,
) -> Result<(), NoMemory>
    requires order { from ≤ to }
    requires there { to ≤ length tree.now.docs.docs }
    requires kinds { length tree.now.docs.kinds ≤ 16 }
    ensures ok { OnOk result (out.new.items
        ≡ out.old.items ++ doc_bytes (range from to tree.now.docs.docs)) }
    ensures err { OnErr result (out.new.items ≡ out.old.items) }
{
    let start = out.len();
    if let Err(fault) = push_docs(&tree.docs, from, to, out) {
        out.truncate(start);
        return Err(fault);
    }
    Ok(())
}

/// How many bytes each document of a tree takes.
pub fn doc_size(tree: &StarTree) -> u32
    requires { length tree.now.docs.kinds ≤ 16 }
    ensures each { length (doc_bytes tree.now.docs.docs) ≡ length tree.now.docs.docs * result }
    ensures bound { result ≤ 1404 }
{
    let docs = &tree.docs;
    let _count = docs.len();
    4 * docs.dims() as u32 + widths(docs.kinds().as_slice())
}

fn push_docs(docs: &StarTable, from: u32, to: u32, out: &mut Vec<u8>) -> Result<(), NoMemory>
    requires order { from ≤ to }
    requires there { to ≤ length docs.now.docs }
    requires kinds { length docs.now.kinds ≤ 16 }
    ensures { Adds (doc_bytes (range from to docs.now.docs))
        out.old.items out.new.items result }
{
    let _count = docs.len();
    for at in from..to {
        push_doc(docs, at, out)?;
    }
    Ok(())
}

fn push_doc(docs: &StarTable, at: u32, out: &mut Vec<u8>) -> Result<(), NoMemory>
    requires { IsWritable at docs.now }
    ensures { Adds (words (doc_at docs.now.docs at).0
        ++ state_bytes (doc_at docs.now.docs at).1)
        out.old.items out.new.items result }
{
    push_ids(docs, at, out)?;
    push_states(docs, at, out)
}

fn push_ids(docs: &StarTable, at: u32, out: &mut Vec<u8>) -> Result<(), NoMemory>
    requires { IsWritable at docs.now }
    ensures { Adds (words (doc_at docs.now.docs at).0)
        out.old.items out.new.items result }
{
    for level in 0..docs.dims() {
        push_word(docs.dim(at, level), out)?;
    }
    Ok(())
}

fn push_states(docs: &StarTable, at: u32, out: &mut Vec<u8>) -> Result<(), NoMemory>
    requires { IsWritable at docs.now }
    ensures { Adds (state_bytes (doc_at docs.now.docs at).1)
        out.old.items out.new.items result }
{
    for pair in 0..docs.kinds().len() as u8 {
        push_state(&docs.state(at, pair), out)?;
    }
    Ok(())
}
