//! The children of a node, one for each id.

ghost use Rattle.std.specs.Prelude.{◌≡◌, ◌≢◌, ℕ, ◌<◌, ◌≤◌, ◌++◌, length, OnOk};
ghost use Rattle.state_columns.specs.Region.{range};
ghost use Rattle.star_builder.specs.Building.{id_of, Rising, Ordinary, group_nodes};

use crate::NoMemory;
use star_table::StarTable;
use star_tree::Node;

/// Nodes of level `level + 1`, one for each id that the documents of a range have in a dimension.
pub(crate) fn push_groups(
    docs: &StarTable,
    nodes: &mut Vec<Node>,
    start: u32,
    end: u32,
    level: u8,
) -> Result<(), NoMemory>
    requires inside { end ≤ length docs.now.docs }
    requires order { start ≤ end }
    requires levels { level < docs.now.dims }
    requires rising { Rising level (range start end docs.now.docs) }
    requires ordinary { Ordinary level (range start end docs.now.docs) }
    ensures { OnOk result (nodes.new.items
        ≡ nodes.old.items ++ group_nodes level start (range start end docs.now.docs)) }
{
    let mut from = start;
    while from < end {
        let to = run_end(docs, from, end, level);
        let id = docs.dim(from, level);
        nodes.push(Node {
            level: level as u32 + 1,
            id,
            start: from,
            end: to,
            total: 0,
            first: 0,
            children: 0,
        })?;
        from = to;
    }
    Ok(())
}

/// Where the documents end that have the id of the first.
fn run_end(docs: &StarTable, from: u32, end: u32, level: u8) -> u32
    requires some { from < end }
    requires inside { end ≤ length docs.now.docs }
    requires levels { level < docs.now.dims }
    ensures after { from < result }
    ensures within { result ≤ end }
    ensures alike { (i : ℕ) → from ≤ i → i < result → id_of level i docs.now.docs
        ≡ id_of level from docs.now.docs }
    ensures stops { result < end → id_of level result docs.now.docs
        ≢ id_of level from docs.now.docs }
{
    let id = docs.dim(from, level);
    let mut to = from + 1;
    while to < end {
        if docs.dim(to, level) != id {
            return to;
        }
        to += 1;
    }
    to
}
