//! The rules on the children of a node.

ghost use Rattle.std.specs.Prelude.{◌≡◌, ◌≤◌, ◌<◌, ◌+◌, ◌-◌, ◌==◌, ◌↔◌, IsTrue, if◌then◌else◌, length};
ghost use Rattle.star_tree.specs.NodeRules.{KeepChildrenRules};
ghost use Rattle.agg_laws.specs.Tree.{skips, star};
ghost use Rattle.star_file.specs.Children.{ChildKeeps};

use agg_laws::TreeShape;
use star_tree::Node;
use state_columns::STAR;

/// What is asked of each child of a node.
#[derive(Clone, Copy)]
pub struct ChildRules {
    /// The node's level.
    pub level: u32,
    /// How many ids its dimension has.
    pub count: u32,
    /// Whether there is no star child.
    pub skipped: bool,
    /// How many documents the node has.
    pub most: u32,
}

/// Whether a child keeps the rules, with so many before it and so many after it.
fn child_keeps(
    rules: &ChildRules,
    child: &Node,
    before: usize,
    after: usize,
    from: u32,
    least: u64,
) -> bool
    requires { rules.now.level ≤ 16 }
    ensures { IsTrue result ↔ ChildKeeps rules.now before after from least child.now }
{
    if child.level != rules.level + 1 || (child.id as u64) < least {
        return false;
    }
    if child.id == STAR {
        let size = child.end.saturating_sub(child.start);
        return after == 0 && !rules.skipped && before >= 2 && size <= rules.most;
    }
    child.id < rules.count && child.start == from
}

/// Where the documents of a node's children end, a star child's left out.
fn end_of(child: &Node, from: u32) -> u32
    ensures { result ≡ (if child.now.id == star then from else child.now.end) }
{
    if child.id == STAR { from } else { child.end }
}

/// Whether the children of a node keep the rules on them.
pub(crate) fn children_keep(
    shape: &TreeShape,
    counts: &[u32],
    node: &Node,
    subtrees: &[Node],
) -> bool
    requires counts { node.now.level < length counts.now }
    requires levels { length counts.now ≤ 16 }
    ensures { IsTrue result ↔ KeepChildrenRules shape.now counts.now node.now.level node.now.start
        node.now.end subtrees.now }
{
    let rules = ChildRules {
        level: node.level,
        count: counts[node.level as usize],
        skipped: shape.skips(node.level as usize),
        most: node.end.saturating_sub(node.start),
    };
    let mut from = node.start;
    let mut least: u64 = 0;
    for i in 0..subtrees.len() {
        let child = subtrees[i];
        if !child_keeps(&rules, &child, i, subtrees.len() - 1 - i, from, least) {
            return false;
        }
        from = end_of(&child, from);
        least = child.id as u64 + 1;
    }
    from == node.end
}
