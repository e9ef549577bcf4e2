//! Of which columns of a segment the dictionaries are wanted for a query.
ghost use Rattle.std.specs.Prelude.{◌≡◌, ◌<◌, ◌≤◌, IfSome, None, Some, length};
ghost use Rattle.segment_plan.specs.Named.{MarksColumns};
ghost use Rattle.segment_opening.specs.Wanted as spec;
ghost use Rattle.table_schema.specs.ValidTable.{IsValidTable};

use segment_plan::{is_filtered, named_columns};
use std::alloc::{AllocError, Global};
use table_schema::{BoundQuery, Table, TreeSetting};

/// A mark for each of so many columns, whether the answer of a segment wants it.
pub(crate) fn wanted_columns(
    alloc: Global,
    query: &BoundQuery,
    by_tree: bool,
    count: usize,
) -> Result<Vec<bool>, AllocError>
    requires { count ≤ 65535 }
    ensures { MarksColumns count result (λ marks. marks.items)
        (spec.is_wanted query.now by_tree) }
{
    if !by_tree {
        return named_columns(alloc, query, &[], count);
    }
    let mut marks = Vec::with_capacity(alloc, count)?;
    for column in 0..count {
        marks.push(is_keyed(query, column as u16))?;
    }
    Ok(marks)
}

// Whether a conjunct names the column alone, or the query groups by it.
fn is_keyed(query: &BoundQuery, column: u16) -> bool
    ensures { result ≡ spec.is_keyed query.now column }
{
    is_filtered(query.conjuncts.as_slice(), column) || query.groups.as_slice().contains(&column)
}

/// A mark for each of so many columns, whether the plan of a segment wants it, or where this
/// star-tree is picked what is said of its bound.
pub(crate) fn detailed_columns(
    alloc: Global,
    query: &BoundQuery,
    table: &Table,
    tree: Option<u8>,
    count: usize,
) -> Result<Vec<bool>, AllocError>
    requires valid { IsValidTable table.now }
    requires tree { IfSome tree (λ n. n < length table.now.settings.trees) }
    requires at_most { count ≤ 65535 }
    ensures { MarksColumns count result (λ marks. marks.items)
        (spec.is_detailed query.now (spec.tree_at table.now tree)) }
{
    match tree {
        Some(number) => {
            let setting = table.settings.trees.at(number as usize);
            tree_columns(alloc, query, setting, count)
        }
        None => filtered_columns(alloc, query, count),
    }
}

// The columns that a conjunct names alone.
fn filtered_columns(
    alloc: Global,
    query: &BoundQuery,
    count: usize,
) -> Result<Vec<bool>, AllocError>
    requires { count ≤ 65535 }
    ensures { MarksColumns count result (λ marks. marks.items) (spec.is_detailed query.now None) }
{
    let mut marks = Vec::with_capacity(alloc, count)?;
    for column in 0..count {
        marks.push(is_filtered(query.conjuncts.as_slice(), column as u16))?;
    }
    Ok(marks)
}

// These, and those of which all values count for the bound of this tree.
fn tree_columns(
    alloc: Global,
    query: &BoundQuery,
    tree: &TreeSetting,
    count: usize,
) -> Result<Vec<bool>, AllocError>
    requires split { length tree.now.split ≤ 16 }
    requires at_most { count ≤ 65535 }
    ensures { MarksColumns count result (λ marks. marks.items)
        (spec.is_detailed query.now (Some tree.now)) }
{
    let mut marks = Vec::with_capacity(alloc, count)?;
    for column in 0..count {
        marks.push(is_detailed(query, tree, column as u16))?;
    }
    Ok(marks)
}

fn is_detailed(query: &BoundQuery, tree: &TreeSetting, column: u16) -> bool
    requires { length tree.now.split ≤ 16 }
    ensures { result ≡ spec.is_detailed query.now (Some tree.now) column }
{
    is_filtered(query.conjuncts.as_slice(), column) || is_whole(query, tree, column)
}

// Whether the column is a split dimension of the tree of which all values count for its bound.
fn is_whole(query: &BoundQuery, tree: &TreeSetting, column: u16) -> bool
    requires { length tree.now.split ≤ 16 }
    ensures { result ≡ spec.is_whole_from query.now tree.now.shape 0 tree.now.split column }
{
    let split = tree.split.as_slice();
    let grouped = query.groups.as_slice().contains(&column);
    for level in 0..split.len() {
        if split[level] == column && (grouped || tree.shape.skips(level)) {
            return true;
        }
    }
    false
}
