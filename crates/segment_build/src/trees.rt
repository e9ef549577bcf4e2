//! The star-trees of a segment are built, one after the other.
ghost use Rattle.std.specs.Prelude.{◌≡◌, ◌<◌, List, length, map, IfOk, OnOk};
ghost use Rattle.std.specs.List.{All};
ghost use Rattle.values.specs.declared.value.Value.{Value};
ghost use Rattle.values.specs.Columns.{ListedColumns, rows_of};
ghost use Rattle.table_schema.specs.ValidSettings.{IsValidTree};
ghost use Rattle.segment_build.specs.Coded.{AreCoded, HaveNumbers, columns_in, ids_at};
ghost use Rattle.segment_build.specs.Merging.{AreMerged, GrowsTree, GrowsTrees, IsMerged, MergesRows};

use crate::BuildFault;
use crate::coded::CodedColumns;
use crate::grown::{Grown, push_tree};
use crate::numbers::{make_numbers, no_numbers, pair_numbers};
use outside::{NoMemory, Seq};
use star_builder::{TreeFault, build_merged};
use star_file::StarTree;
use star_records::project_merged;
use star_table::StarTable;
use std::alloc::Global;
use table_schema::{Table, TreeSetting};

/// The documents of each star-tree of the columns' rows, merged. The numbers of a column are made
/// once for all trees.
pub(crate) fn merge_trees(
    alloc: Global,
    table: &Table,
    coded: &CodedColumns,
) -> Result<Vec<StarTable>, NoMemory>
    requires rows { AreCoded table.now coded.now }
    ensures { IfOk result (λ docs. AreMerged table.now (columns_in coded.now) docs.items) }
{
    let trees = table.settings.trees.as_slice();
    let mut all = Vec::with_capacity(alloc, trees.len())?;
    let mut numbers = no_numbers(alloc, coded)?;
    'trees: for at in 0..trees.len() {
        let docs = merged_of_tree(alloc, table, coded, &trees[at], &mut numbers)?;
        all.push(docs)?;
    }
    Ok(all)
}

/// The sections of the star-trees of these documents, or the number of the first tree that takes
/// more bytes than one may. What is made for a tree is let go before the next.
pub(crate) fn grow_trees(
    alloc: Global,
    table: &Table,
    merged: Vec<StarTable>,
) -> Result<Grown, BuildFault>
    requires { (t : ListedColumns) × AreMerged table.now t merged.items }
    ensures { (t : ListedColumns) → AreMerged table.now t merged.items →
        GrowsTrees table.now (rows_of t) result }
{
    let trees = table.settings.trees.as_slice();
    let mut grown = Grown {
        nodes: Vec::with_capacity(alloc, trees.len())?,
        stars: Vec::with_capacity(alloc, trees.len())?,
    };
    let mut left = merged.into_iter();
    'trees: for at in 0..trees.len() {
        let Some(docs) = left.next() else {
            unreachable!()
        };
        let tree = match grow_tree(alloc, &trees[at], docs) {
            Ok(tree) => tree,
            Err(TreeFault::TooLarge) => return Err(BuildFault::TooLarge(at as u8)),
            Err(TreeFault::NoMemory) => return Err(BuildFault::NoMemory),
        };
        push_tree(alloc, tree, &mut grown)?;
    }
    Ok(grown)
}

// A star-tree of merged documents.
fn grow_tree(alloc: Global, tree: &TreeSetting, docs: StarTable) -> Result<StarTree, TreeFault>
    requires { (rows : List (List Value)) × IsMerged rows tree.now docs }
    ensures { (rows : List (List Value)) → IsMerged rows tree.now docs →
        GrowsTree rows tree.now result }
{
    match build_merged(alloc, &tree.shape, docs) {
        Ok(grown) => Ok(grown),
        Err(fault) => Err(fault),
    }
}

// The rows as documents of a tree, merged: the order in which they came does not matter. The ids
// are copied, and the copies let go; those of pairs that count rows are zeros.
fn merged_of_tree(
    alloc: Global,
    table: &Table,
    coded: &CodedColumns,
    tree: &TreeSetting,
    numbers: &mut Vec<Vec<i64>>,
) -> Result<StarTable, NoMemory>
    requires rows { AreCoded table.now coded.now }
    requires tree { IsValidTree table.now.schema.fields tree.now }
    requires have { HaveNumbers (columns_in coded.now) (map (λ v. v.items) numbers.old.items) }
    ensures have { OnOk result (HaveNumbers (columns_in coded.now)
        (map (λ v. v.items) numbers.new.items)) }
    ensures merged { IfOk result (MergesRows (rows_of (columns_in coded.now)) tree.now) }
{
    let pairs = tree.pairs.as_slice();
    make_numbers(alloc, coded, pairs, numbers)?;
    let metrics = pair_numbers(alloc, numbers.as_slice(), pairs, coded.rows)?;
    let dims = split_ids(alloc, coded, tree.split.as_slice())?;
    let docs = project_merged(alloc, &tree.shape, dims, &metrics)?;
    Ok(docs)
}

// The ids of the rows in these columns.
fn split_ids(alloc: Global, coded: &CodedColumns, split: &[u16]) -> Result<Seq<Seq<u32>>, NoMemory>
    requires { All (λ column. column < length coded.now.columns.items) split.now }
    ensures { IfOk result (λ ids. ids ≡ map (ids_at coded.now) split.now) }
{
    let mut all = Vec::with_capacity(alloc, split.len())?;
    for column in split {
        let mut ids = Vec::new(alloc);
        coded.columns[*column as usize].ids.put_all(&mut ids)?;
        all.push(Seq::from_vec(ids))?;
    }
    Ok(Seq::from_vec(all))
}
