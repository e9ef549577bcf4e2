//! The tree of some rows.

ghost use Rattle.std.specs.Prelude.{◌≡◌, ◌<◌, IfOk, Err, [], ◌∷◌};
ghost use Rattle.agg_laws.specs.Rows.{merged_rows};
ghost use Rattle.agg_laws.specs.Tree.{star, merged_docs, root_of};
ghost use Rattle.star_tree.specs.Flat.{blank, flat};
ghost use Rattle.star_file.specs.Rules.{most_bytes};
ghost use Rattle.star_builder.specs.Building.{bytes_of};
ghost use Rattle.star_builder.specs.Trees.{AreRootOf, AreRowsFor, IsGrownFrom, IsTooLarge, IsTreeOf};
ghost use Rattle.star_builder.specs.declared.fault.TreeFault.TheVariants as TreeFault;

use crate::NoMemory;
use crate::fault::TreeFault;
use crate::growing::Growing;
use crate::growth::they_fit;
use crate::visit::visit;
use agg_laws::TreeShape;
use star_file::{Nodes, StarTree};
use star_records::merge_equal;
use star_table::StarTable;
use star_tree::Node;
use state_columns::STAR;
use std::alloc::Global;

/// The tree of some rows, written flat: the nodes and documents of the nested tree, whose nodes
/// cover the rows, and whose split nodes share theirs among their children. It is too large exactly
/// where it takes more bytes than a tree may.
pub fn build_tree(alloc: Global, shape: &TreeShape, rows: StarTable) -> Result<StarTree, TreeFault>
    requires rows { AreRowsFor shape.now rows }
    ensures tree { IfOk result (IsTreeOf shape.now rows.docs) }
    ensures too_large { result ≡ Err TreeFault.TooLarge → IsTooLarge shape.now rows.docs }
{
    if rows.len() == 0 {
        return Ok(StarTree {
            docs: rows,
            nodes: Nodes::new(alloc),
        });
    }
    let docs = merge_equal(rows)?;
    grow(alloc, shape, docs)
}

/// The same, where the documents are merged already.
pub fn build_merged(
    alloc: Global,
    shape: &TreeShape,
    docs: StarTable,
) -> Result<StarTree, TreeFault>
    requires rows { AreRowsFor shape.now docs }
    requires merged { merged_docs merged_rows docs.docs ≡ docs.docs }
    ensures tree { IfOk result (IsTreeOf shape.now docs.docs) }
    ensures too_large { result ≡ Err TreeFault.TooLarge → IsTooLarge shape.now docs.docs }
{
    if docs.len() == 0 {
        return Ok(StarTree {
            docs,
            nodes: Nodes::new(alloc),
        });
    }
    grow(alloc, shape, docs)
}

/// The tree of merged documents, of which there are some.
fn grow(alloc: Global, shape: &TreeShape, docs: StarTable) -> Result<StarTree, TreeFault>
    requires { AreRootOf shape.now docs }
    ensures grown { IfOk result (IsGrownFrom shape.now docs) }
    ensures too_large { result ≡ Err TreeFault.TooLarge → most_bytes < bytes_of shape.now
        (flat merged_rows (root_of merged_rows shape.now shape.now.dims docs.docs)) }
{
    let nodes = root(alloc, docs.len() as u32)?;
    if !they_fit(shape, &docs, nodes.len()) {
        return Err(TreeFault::TooLarge);
    }
    let mut tree = Growing { docs, nodes };
    if let Err(fault) = visit(&mut tree, shape, 0, 0) {
        return Err(fault);
    }
    let Growing { docs, nodes } = tree;
    Ok(StarTree {
        docs,
        nodes: Nodes::from_vec(nodes),
    })
}

/// The root, before its visit.
fn root(alloc: Global, end: u32) -> Result<Vec<Node>, NoMemory>
    ensures { IfOk result (λ nodes. nodes.items ≡ blank 0 star 0 end ∷ []) }
{
    let mut nodes = Vec::new(alloc);
    nodes.push(Node {
        level: 0,
        id: STAR,
        start: 0,
        end,
        total: 0,
        first: 0,
        children: 0,
    })?;
    Ok(nodes)
}
