//! Visits of nodes: each node's children, their children and so on are made, and its total is
//! found.

ghost use Rattle.std.specs.Prelude.{◌≡◌, ◌<◌, ◌≤◌, ◌+◌, OnOk, IfOk, not, nat_lt, ◌&&◌, vec_len};
ghost use Rattle.agg_laws.specs.Rows.{merged_rows};
ghost use Rattle.agg_laws.specs.Tree.{skips, has_star};
ghost use Rattle.star_table.specs.Tables.{KeepsShape};
ghost use Rattle.star_tree.specs.Flat.{node_at, opened, filled, with_total, visited};
ghost use Rattle.star_builder.specs.Building.{docs_at, children_at, children_in, is_leaf};
ghost use Rattle.star_builder.specs.Building.{leaf_closed, split_closed, visit_node};
ghost use Rattle.star_builder.specs.Growing.{AreOpenFrom, Becomes, IsOpenAt, written};

use crate::NoMemory;
use crate::fault::TreeFault;
use crate::groups::push_groups;
use crate::growing::Growing;
use crate::growth::{add_starred, add_total, count_of, they_fit};
use agg_laws::TreeShape;
use star_tree::Node;
use state_columns::STAR;

/// Visits a node: its children, their children and so on are made, and each gets its total.
#[cycle(visit)]
pub(crate) fn visit(
    tree: &mut Growing,
    shape: &TreeShape,
    at: usize,
    level: u8,
) -> Result<(), TreeFault>
    requires { IsOpenAt shape.now level at tree.old }
    ensures { Becomes shape.now (visit_node shape.now level at (written tree.old))
        tree.old tree.new result }
{
    let (start, end) = bounds(&tree.nodes, at);
    if ends_here(shape, level, end - start) {
        return close_leaf(tree, shape, at, level);
    }
    let first = tree.nodes.len();
    let starred = open_node(tree, shape, at, level)?;
    if !they_fit(shape, &tree.docs, tree.nodes.len()) {
        return Err(TreeFault::TooLarge);
    }
    let children = tree.nodes.len() - first;
    if let Err(fault) = visit_children(tree, shape, first, children, start, end, level) {
        return Err(fault);
    }
    close_split(tree, shape, at, level, first, children, starred)
}

// Visits the children of a node with this range.
#[cycle(visit)]
fn visit_children(
    tree: &mut Growing,
    shape: &TreeShape,
    first: usize,
    children: usize,
    start: u32,
    end: u32,
    level: u8,
) -> Result<(), TreeFault>
    requires { AreOpenFrom shape.now level start end first children tree.old }
    ensures { Becomes shape.now (visited merged_rows (level + 1) first
        (children_in shape.now level start end (written tree.old)) (written tree.old))
        tree.old tree.new result }
{
    for i in 0..children {
        if let Err(fault) = visit(tree, shape, first + i, level + 1) {
            return Err(fault);
        }
    }
    Ok(())
}

// The range of a node.
fn bounds(nodes: &Vec<Node>, at: usize) -> (u32, u32)
    requires { at < vec_len nodes.now }
    ensures start { result.0 ≡ (node_at nodes.now.items at).start }
    ensures end { result.1 ≡ (node_at nodes.now.items at).end }
{
    let node = &nodes[at];
    (node.start, node.end)
}

// Whether a star child comes last, after so many others.
fn takes_star(shape: &TreeShape, level: u8, groups: usize) -> bool
    requires { level < 16 }
    ensures { result ≡ (not (skips shape.now level) && nat_lt 1 groups) }
{
    !shape.skips(level as usize) && 1 < groups
}

// Gives the children of a node the next numbers, and says whether the last is a star child.
fn open_node(tree: &mut Growing, shape: &TreeShape, at: usize, level: u8) -> Result<bool, NoMemory>
    requires levels { level < shape.now.dims }
    requires tree { IsOpenAt shape.now level at tree.old }
    ensures opens { OnOk result (written tree.new
        ≡ opened level at (children_at shape.now level at (written tree.old)) (written tree.old)) }
    ensures star { IfOk result (λ b. b
        ≡ has_star (children_at shape.now level at (written tree.old))) }
    ensures shape { KeepsShape tree.old.docs tree.new.docs }
{
    let (start, end) = bounds(&tree.nodes, at);
    let first = tree.nodes.len();
    push_groups(&tree.docs, &mut tree.nodes, start, end, level)?;
    if !takes_star(shape, level, tree.nodes.len() - first) {
        return Ok(false);
    }
    let from = count_of(shape, &tree.docs);
    let more = add_starred(&mut tree.docs, start, end, level)?;
    tree.nodes.push(Node {
        level: level as u32 + 1,
        id: STAR,
        start: from,
        end: from + more,
        total: 0,
        first: 0,
        children: 0,
    })?;
    Ok(true)
}

// What is known of a node once it is visited.
fn fill(nodes: &mut Vec<Node>, at: usize, total: u32, first: u32, children: u32)
    requires { at < vec_len nodes.old }
    ensures { nodes.new.items ≡ filled at total first children nodes.old.items }
{
    let old = nodes[at];
    nodes[at] = Node {
        level: old.level,
        id: old.id,
        start: old.start,
        end: old.end,
        total,
        first,
        children,
    };
}

// Appends the aggregated document of a node.
fn close_with_total(
    tree: &mut Growing,
    shape: &TreeShape,
    at: usize,
    level: u8,
    first: u32,
    children: u32,
) -> Result<(), TreeFault>
    requires { IsOpenAt shape.now level at tree.old }
    ensures { Becomes shape.now (with_total merged_rows level at first children
        (docs_at at (written tree.old)) (written tree.old)) tree.old tree.new result }
{
    let (start, end) = bounds(&tree.nodes, at);
    let total = count_of(shape, &tree.docs);
    add_total(&mut tree.docs, start, end, level)?;
    fill(&mut tree.nodes, at, total, first, children);
    if !they_fit(shape, &tree.docs, tree.nodes.len()) {
        return Err(TreeFault::TooLarge);
    }
    Ok(())
}

// Closes a leaf.
fn close_leaf(tree: &mut Growing, shape: &TreeShape, at: usize, level: u8) -> Result<(), TreeFault>
    requires { IsOpenAt shape.now level at tree.old }
    ensures { Becomes shape.now (leaf_closed level at (written tree.old))
        tree.old tree.new result }
{
    let (start, end) = bounds(&tree.nodes, at);
    if end - start == 1 {
        fill(&mut tree.nodes, at, start, 0, 0);
        return Ok(());
    }
    close_with_total(tree, shape, at, level, 0, 0)
}

fn total_of(nodes: &Vec<Node>, at: usize) -> u32
    requires { at < vec_len nodes.now }
    ensures { result ≡ (node_at nodes.now.items at).total }
{
    nodes[at].total
}

// Closes a node that is split.
fn close_split(
    tree: &mut Growing,
    shape: &TreeShape,
    at: usize,
    level: u8,
    first: usize,
    children: usize,
    starred: bool,
) -> Result<(), TreeFault>
    requires tree { IsOpenAt shape.now level at tree.old }
    requires some { 0 < children }
    requires within { first + children ≤ vec_len tree.old.nodes }
    ensures { Becomes shape.now (split_closed level at first children starred (written tree.old))
        tree.old tree.new result }
{
    if starred {
        let total = total_of(&tree.nodes, first + (children - 1));
        fill(&mut tree.nodes, at, total, first as u32, children as u32);
        return Ok(());
    }
    close_with_total(tree, shape, at, level, first as u32, children as u32)
}

// Whether a node with so many documents has no children.
fn ends_here(shape: &TreeShape, level: u8, documents: u32) -> bool
    ensures { result ≡ is_leaf shape.now level documents }
{
    documents <= shape.leaf || level == shape.dims
}
