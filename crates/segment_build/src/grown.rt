//! The sections of star-trees.
ghost use Rattle.std.specs.Prelude.{◌≡◌, ◌<◌, ◌≤◌, ◌^◌, ◌++◌, ◌∷◌, [], length, OnOk};
ghost use Rattle.star_file.specs.Bytes.{doc_bytes, nodes_section};
ghost use Rattle.segment_build.specs.Made.{each_bytes};

use crate::docs::TreeDocs;
use crate::section::MadeSection;
use outside::{NoMemory, Seq};
use star_file::{Nodes, StarTree, write_nodes};
use std::alloc::Global;

/// The sections of star-trees: of each its nodes, and its documents.
#[derive(Drop)]
pub struct Grown {
    pub nodes: Vec<MadeSection>,
    pub stars: Vec<MadeSection>,
}

/// Adds the sections of a tree. Its nodes are written, and its documents when they are given.
pub(crate) fn push_tree(alloc: Global, tree: StarTree, grown: &mut Grown) -> Result<(), NoMemory>
    requires at_most { length tree.docs.docs < 2 ^ 32 }
    requires kinds { length tree.docs.kinds ≤ 16 }
    ensures nodes { OnOk result (each_bytes grown.new.nodes.items ≡
        each_bytes grown.old.nodes.items ++ nodes_section (length tree.docs.docs) tree.nodes ∷ []) }
    ensures stars { OnOk result (each_bytes grown.new.stars.items
        ≡ each_bytes grown.old.stars.items ++ doc_bytes tree.docs.docs ∷ []) }
{
    let mut nodes = Vec::new(alloc);
    write_nodes(&tree, &mut nodes)?;
    let StarTree { docs, nodes: _ } = tree;
    let tree = StarTree {
        docs,
        nodes: Nodes::new(alloc),
    };
    grown.nodes.push(MadeSection::Stands(Seq::from_vec(nodes)))?;
    grown.stars.push(MadeSection::Docs(TreeDocs { tree }))?;
    Ok(())
}
