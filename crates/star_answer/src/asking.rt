//! What a query asks of the documents of a star-tree.

ghost use Rattle.std.specs.Prelude.{◌≡◌, ◌<◌, ◌≤◌, true, IfOk, length};
ghost use Rattle.table_schema.specs.Columns.{is_member};
ghost use Rattle.eligibility.specs.Rule.{is_eligible, is_kept};
ghost use Rattle.star_answer.specs.Served.{pair_of};
ghost use Rattle.segment_reads.specs.Docs.{field_of};
ghost use Rattle.star_answer.specs.Tasks.{AreColumnsOf, ArePairsOf, split_values};
ghost use Rattle.segment_plan.specs.Named.{AreGroupsLoaded};

use crate::NoMemory;
use segment_head::Head;
use star_reader::GroupColumn;
use std::alloc::Global;
use table_schema::{Agg, BoundQuery, TreeSetting};

/// The group columns of a query, in its order: which split dimension each is, and its values.
pub(crate) fn group_columns<'a>(
    alloc: Global,
    query: &BoundQuery,
    tree: &TreeSetting,
    head: &'a Head,
) -> Result<Vec<GroupColumn<'a>>, NoMemory>
    requires at_most { length tree.now.split ≤ 16 }
    requires eligible { is_eligible query.now tree.now ≡ true }
    requires loaded { AreGroupsLoaded query.now.groups head.now }
    ensures { IfOk result (λ columns. AreColumnsOf query.now.groups tree.now.split
        (split_values head.now tree.now.split) columns.items) }
{
    let split = tree.split.as_slice();
    let groups = query.groups.as_slice();
    let mut columns = Vec::with_capacity(alloc, groups.len())?;
    for column in groups {
        columns.push(GroupColumn {
            dim: place_of(split, *column),
            values: head.dictionary(*column),
        })?;
    }
    Ok(columns)
}

// The place of a column among these.
fn place_of(split: &[u16], column: u16) -> u8
    requires at_most { length split.now ≤ 16 }
    requires among { is_member split.now column ≡ true }
    ensures within { result < length split.now }
    ensures is { field_of split.now result ≡ column }
{
    for place in 0..split.len() {
        if split[place] == column {
            return place as u8;
        }
    }
    unreachable!()
}

/// For each aggregate of a query, the number of the pair of a tree that it is.
pub(crate) fn pair_numbers(
    alloc: Global,
    query: &BoundQuery,
    tree: &TreeSetting,
) -> Result<Vec<u8>, NoMemory>
    requires at_most { length tree.now.pairs ≤ 16 }
    requires eligible { is_eligible query.now tree.now ≡ true }
    ensures { IfOk result (λ numbers. ArePairsOf query.now.aggs tree.now.pairs numbers.items) }
{
    let pairs = tree.pairs.as_slice();
    let aggs = query.aggs.as_slice();
    let mut numbers = Vec::with_capacity(alloc, aggs.len())?;
    for agg in aggs {
        numbers.push(pair_number(pairs, agg))?;
    }
    Ok(numbers)
}

// The number of an aggregate among these pairs.
fn pair_number(pairs: &[Agg], agg: &Agg) -> u8
    requires at_most { length pairs.now ≤ 16 }
    requires among { is_kept pairs.now agg.now ≡ true }
    ensures within { result < length pairs.now }
    ensures is { pair_of pairs.now result ≡ agg.now }
{
    for number in 0..pairs.len() {
        if pairs[number] == *agg {
            return number as u8;
        }
    }
    unreachable!()
}
