//! The index by which the rows of a conjunct are found.
ghost use Rattle.std.specs.Prelude.{◌≡◌, IfOk, map, slice_get};
ghost use Rattle.table_schema.specs.NeedIds.{is_set};
ghost use Rattle.segment_plan.specs.Choices as spec;
ghost use Rattle.segment_plan.specs.Matched.{AreLoaded};

use crate::{IndexChoice, NoMemory};
use data_types::Seq;
use segment_head::Head;
use std::alloc::Global;
use table_schema::{Conjunct, Settings};
use value_ids::IdSet;

/// There are ids, and no id between them is left out. They ascend, so the ends tell.
pub fn are_consecutive(ids: &IdSet) -> bool
    ensures { result ≡ spec.are_consecutive ids.now }
{
    let ids = ids.as_slice();
    match ids {
        [] => false,
        [first, ..] => ids[ids.len() - 1] - *first == ids.len() as u32 - 1,
    }
}

/// A choice for each conjunct.
pub fn choices(
    alloc: Global,
    conjuncts: &[Conjunct],
    settings: &Settings,
    head: &Head,
) -> Result<Seq<IndexChoice>, NoMemory>
    requires loaded { AreLoaded conjuncts.now head.now }
    ensures { IfOk result (λ choices. choices
        ≡ map (spec.choice_of settings.now head.now) conjuncts.now) }
{
    let mut choices = Seq::with_capacity(alloc, conjuncts.len())?;
    for conjunct in conjuncts {
        choices.push(choice(alloc, conjunct, settings, head)?)?;
    }
    Ok(choices)
}

// The first of the indexes that serves the conjunct.
fn choice(
    alloc: Global,
    conjunct: &Conjunct,
    settings: &Settings,
    head: &Head,
) -> Result<IndexChoice, NoMemory>
    requires loaded { spec.IsReady head.now conjunct.now }
    ensures { IfOk result (λ c. c ≡ spec.choice_of settings.now head.now conjunct.now) }
{
    let Conjunct::One(column, condition) = conjunct else {
        return Ok(IndexChoice::Unindexed);
    };
    if is_sorted_on(settings.sorted, *column) {
        return Ok(IndexChoice::Sorted);
    }
    if is_set(settings.inverted.as_slice(), *column) {
        return Ok(IndexChoice::Inverted);
    }
    if !is_set(settings.ranged.as_slice(), *column) {
        return Ok(IndexChoice::Unindexed);
    }
    let ids = head.dictionary(*column).ids_matching(alloc, condition)?;
    if are_consecutive(&ids) {
        Ok(IndexChoice::Range)
    } else {
        Ok(IndexChoice::Unindexed)
    }
}

// The column is the sorted one.
fn is_sorted_on(sorted: Option<u16>, column: u16) -> bool
    ensures { result ≡ spec.is_sorted_on sorted column }
{
    match sorted {
        Some(sorted) => sorted == column,
        None => false,
    }
}

// The mark of the column is set.
fn is_set(marks: &[bool], column: u16) -> bool
    ensures { result ≡ is_set (slice_get marks.now column) }
{
    match marks.get(column as usize) {
        Some(mark) => *mark,
        None => false,
    }
}
