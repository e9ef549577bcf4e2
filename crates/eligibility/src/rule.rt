//! The rule by which a star-tree may answer a query
//! ([Pinot's star-tree index](https://docs.pinot.apache.org/basics/indexing/star-tree-index)).
ghost use Rattle.std.specs.Prelude.{◌≡◌, ◌≤◌, length};
ghost use Rattle.std.specs.List.{list_all};
ghost use Rattle.table_schema.specs.Columns.{is_member};
ghost use Rattle.eligibility.specs.Rule as spec;

use table_schema::{Agg, BoundQuery, Conjunct, TreeSetting};

/// Whether the tree may answer the query: trees are not switched off, each conjunct names one
/// column, and that and each group column are among the split dimensions, and each aggregate is one
/// of the pairs. It takes no memory.
pub fn eligible(query: &BoundQuery, tree: &TreeSetting) -> bool
    ensures { result ≡ spec.is_eligible query.now tree.now }
{
    let split = tree.split.as_slice();
    query.use_tree
        && are_filtered_by(query.conjuncts.as_slice(), split)
        && are_among(query.groups.as_slice(), split)
        && are_kept(query.aggs.as_slice(), tree.pairs.as_slice())
}

/// The number of the first tree that may answer the query. It takes no memory.
pub fn pick(query: &BoundQuery, trees: &[TreeSetting]) -> Option<u8>
    requires at_most { length trees.now ≤ 8 }
    ensures { result ≡ spec.picked query.now trees.now }
{
    for number in 0..trees.len() {
        if eligible(query, &trees[number]) {
            return Some(number as u8);
        }
    }
    None
}

// Each conjunct names one column, which is one of these.
fn are_filtered_by(conjuncts: &[Conjunct], split: &[u16]) -> bool
    ensures { result ≡ list_all (spec.is_filtered_by split.now) conjuncts.now }
{
    conjuncts
        .iter()
        .all(|conjunct| is_filtered_by(conjunct, split))
}

// The conjunct names one column, which is one of these.
fn is_filtered_by(conjunct: &Conjunct, split: &[u16]) -> bool
    ensures { result ≡ spec.is_filtered_by split.now conjunct.now }
{
    match conjunct {
        Conjunct::One(column, _) => split.contains(column),
        Conjunct::Many(_) => false,
    }
}

// Each column is one of these.
fn are_among(columns: &[u16], split: &[u16]) -> bool
    ensures { result ≡ list_all (is_member split.now) columns.now }
{
    columns.iter().all(|column| split.contains(column))
}

// Each aggregate is one of these.
fn are_kept(aggs: &[Agg], pairs: &[Agg]) -> bool
    ensures { result ≡ list_all (spec.is_kept pairs.now) aggs.now }
{
    aggs.iter().all(|agg| pairs.contains(agg))
}
