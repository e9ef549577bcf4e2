//! The laws of how many documents a query reads of a star-tree. Each is the contract of a function
//! that does nothing of its own.

ghost use Rattle.star_answer.specs.DocLaws.{DocsAreBounded, DocsAreFew, WalkReadsDocs};

use star_tree::{node_rules_law, reads_law};
use star_walk::walk_law;

/// A walk of the flat tree of a segment's rows reads just as many documents as the query reads of
/// the nested tree, where the walk asks of ids what the query asks of their values.
pub fn docs_read_law()
    ensures read { WalkReadsDocs }
{
    walk_law();
    node_rules_law();
}

/// Where the plan of a segment's rows is a star-tree, the query reads at most the leaf size times
/// the number of values that it meets of each split dimension.
pub fn docs_bound_law()
    ensures bound { DocsAreBounded }
{
    reads_law();
}

/// A query never reads more documents of a star-tree than the segment has rows.
pub fn docs_few_law()
    ensures at_most { DocsAreFew }
{}
