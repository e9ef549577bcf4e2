//! The walk through the nodes of a star-tree.

ghost use Rattle.std.specs.Prelude.{◌≡◌, ◌<◌, ◌≤◌, ◌+◌, ◌-◌, ◌++◌, length, IfOk, OnOk, false};
ghost use Rattle.star_tree.specs.Flat.{node_at};
ghost use Rattle.star_walk.specs.Walking.{task_of, HasEach, AreWalkable, has_star_among, child_nodes_of};
ghost use Rattle.star_walk.specs.Walking.{taken, node_picks, tree_picks, whole_pick, leaf_pick};

use crate::NoMemory;
use crate::pick::{Pick, Picks};
use crate::task::Task;
use star_tree::Node;
use state_columns::STAR;
use std::alloc::Global;

/// The documents that a query reads of a tree, where there are as many dimensions as the task has
/// entries.
pub fn walk(alloc: Global, nodes: &[Node], task: &Task) -> Result<Picks, NoMemory>
    requires each { HasEach task.now.matched task.now.grouped }
    requires at_most { length task.now.matched ≤ 16 }
    requires nodes { AreWalkable nodes.now }
    ensures { IfOk result (λ picks. picks ≡ tree_picks
        (task_of task.now.matched task.now.grouped) (length task.now.matched) nodes.now) }
{
    let mut picks = Picks::new(alloc);
    if !nodes.is_empty() {
        let walk = Traversal { nodes, task };
        push_node(walk, 0, 0, &mut picks)?;
    }
    Ok(picks)
}

// The nodes that are walked through, and what is asked of each dimension.
#[derive(Clone, Copy)]
struct Traversal<'a> {
    nodes: &'a [Node],
    task: &'a Task,
    ghost each: { HasEach task.now.matched task.now.grouped },
    ghost at_most: { length task.now.matched ≤ 16 },
    ghost walkable: { AreWalkable nodes.now },
}

// Adds the picks at a node of a level.
#[cycle(push_node)]
fn push_node(
    walk: Traversal<'_>,
    level: usize,
    at: usize,
    picks: &mut Picks,
) -> Result<(), NoMemory>
    requires level { level ≤ length walk.task.now.matched }
    requires at { at < length walk.nodes.now }
    ensures { OnOk result (picks.new ≡ picks.old ++ node_picks
        (task_of walk.entry.task.now.matched walk.entry.task.now.grouped)
        (length walk.entry.task.now.matched) walk.entry.nodes.now
        (length walk.entry.task.now.matched - level) level (node_at walk.entry.nodes.now at)) }
{
    if walk.task.is_unconstrained(level) {
        return picks.push(whole_pick(walk, at));
    }
    if walk.nodes[at].children == 0 {
        return picks.push(leaf_pick(walk, at, level));
    }
    push_children(walk, level, at, picks)
}

// Adds the picks of those children of a node of a level that are selected.
#[cycle(push_node)]
fn push_children(
    walk: Traversal<'_>,
    level: usize,
    at: usize,
    picks: &mut Picks,
) -> Result<(), NoMemory>
    requires level { level < length walk.task.now.matched }
    requires at { at < length walk.nodes.now }
    ensures { OnOk result (picks.new ≡ picks.old ++ taken
        (node_picks (task_of walk.entry.task.now.matched walk.entry.task.now.grouped)
        (length walk.entry.task.now.matched) walk.entry.nodes.now
        (length walk.entry.task.now.matched - (level + 1)) (level + 1))
        (task_of walk.entry.task.now.matched walk.entry.task.now.grouped)
        (has_star_among (child_nodes_of walk.entry.nodes.now (node_at walk.entry.nodes.now at)))
        level
        (child_nodes_of walk.entry.nodes.now (node_at walk.entry.nodes.now at))) }
{
    let (first, end) = children_of(walk, at);
    let starred = has_star(&walk.nodes[first..end]);
    for child in first..end {
        if !walk.task.takes(starred, level, walk.nodes[child].id) {
            continue;
        }
        push_node(walk, level + 1, child, picks)?;
    }
    Ok(())
}

// Where the children of a node begin and end.
fn children_of(walk: Traversal<'_>, at: usize) -> (usize, usize)
    requires at { at < length walk.nodes.now }
    ensures first { result.0 ≡ (node_at walk.entry.nodes.now at).first }
    ensures end { result.1 ≡ result.0 + (node_at walk.entry.nodes.now at).children }
    ensures within { result.1 ≤ length walk.entry.nodes.now }
{
    let node = walk.nodes[at];
    let first = node.first as usize;
    (first, first + node.children as usize)
}

// Whether one of some nodes is a star child.
fn has_star(subtrees: &[Node]) -> bool
    ensures { result ≡ has_star_among subtrees.now }
{
    for child in subtrees {
        if child.id == STAR {
            return true;
        }
    }
    false
}

// The document that stands for all of a node.
fn whole_pick(walk: Traversal<'_>, at: usize) -> Pick
    requires { at < length walk.nodes.now }
    ensures { result ≡ whole_pick (length walk.entry.task.now.matched)
        (node_at walk.entry.nodes.now at) }
{
    let total = walk.nodes[at].total;
    Pick {
        start: total,
        end: total + 1,
        level: walk.task.matched.len() as u32,
    }
}

// The documents of a leaf.
fn leaf_pick(walk: Traversal<'_>, at: usize, level: usize) -> Pick
    requires at { at < length walk.nodes.now }
    requires level { level ≤ 16 }
    ensures { result ≡ leaf_pick level (node_at walk.entry.nodes.now at) }
{
    let node = walk.nodes[at];
    Pick {
        start: node.start,
        end: node.end,
        level: level as u32,
    }
}
