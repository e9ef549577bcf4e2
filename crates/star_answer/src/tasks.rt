//! What a query asks of each split dimension of a star-tree.

ghost use Rattle.std.specs.Prelude.{◌≡◌, true, IfOk, length};
ghost use Rattle.eligibility.specs.Rule.{is_eligible};
ghost use Rattle.segment_plan.specs.Matched.{AreLoaded};
ghost use Rattle.star_reader.specs.Answers.{asked_of};
ghost use Rattle.star_answer.specs.Served.{AsksFor};
ghost use Rattle.star_walk.specs.Walking.{HasEach};
ghost use Rattle.star_answer.specs.Tasks.{AreGrouped, AreTested, split_values};

use crate::NoMemory;
use crate::intersection::matched_ids;
use eligibility::eligible_law;
use outside::Seq;
use segment_head::Head;
use star_walk::Task;
use std::alloc::Global;
use table_schema::{BoundQuery, Conjunct, TreeSetting};
use value_ids::IdSet;

/// For each split dimension of a tree: the ids of the values that satisfy all conjuncts on it,
/// where there are such conjuncts, and whether the query groups by it.
pub(crate) fn tree_task(
    alloc: Global,
    query: &BoundQuery,
    tree: &TreeSetting,
    head: &Head,
) -> Result<Task, NoMemory>
    requires eligible { is_eligible query.now tree.now ≡ true }
    requires loaded { AreLoaded query.now.conjuncts head.now }
    ensures each { IfOk result (λ t. HasEach t.matched t.grouped) }
    ensures entries { IfOk result (λ t. length t.matched ≡ length tree.now.split) }
    ensures asks { IfOk result (λ t. AsksFor query.now tree.now.split
        (split_values head.now tree.now.split) (asked_of t)) }
{
    eligible_law();
    let split = tree.split.as_slice();
    let matched = tested(alloc, query.conjuncts.as_slice(), split, head)?;
    let grouped = grouped(alloc, query.groups.as_slice(), split)?;
    Ok(Task { matched, grouped })
}

// For each of these columns, the ids of the values that satisfy all conjuncts on it.
fn tested(
    alloc: Global,
    conjuncts: &[Conjunct],
    split: &[u16],
    head: &Head,
) -> Result<Seq<Option<IdSet>>, NoMemory>
    requires loaded { AreLoaded conjuncts.now head.now }
    ensures { IfOk result (AreTested conjuncts.now split.now head.now (length split.now)) }
{
    let mut all = Seq::with_capacity(alloc, split.len())?;
    for level in 0..split.len() {
        all.push(matched_ids(alloc, conjuncts, split[level], head)?)?;
    }
    Ok(all)
}

// Whether each of these columns is among others.
fn grouped(alloc: Global, groups: &[u16], split: &[u16]) -> Result<Seq<bool>, NoMemory>
    ensures { IfOk result (AreGrouped groups.now split.now (length split.now)) }
{
    let mut all = Seq::with_capacity(alloc, split.len())?;
    for level in 0..split.len() {
        all.push(groups.contains(&split[level]))?;
    }
    Ok(all)
}
