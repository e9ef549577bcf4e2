//! Which columns of a text are enough for a query.
ghost use Rattle.std.specs.Prelude.{◌≡◌, true, IfOk};
ghost use Rattle.std.specs.List.{All};
ghost use Rattle.text_scan.specs.Named.{AllMarked, AreEnough, IsAggMarked, IsTestMarked, StayMarked, is_marked};

use std::alloc::{AllocError, Global};
use table_schema::{Agg, BoundQuery, Conjunct};

/// Marks for so many columns, by which a column that is not marked has no part in a query. Where a
/// condition is of several columns there are no marks, which leaves all columns marked.
pub(crate) fn named_columns(
    alloc: Global,
    query: &BoundQuery,
    count: usize,
) -> Result<Vec<bool>, AllocError>
    ensures { IfOk result (λ marks. AreEnough query.now marks.items) }
{
    let mut marks = vec![in alloc; false; count]?;
    if !mark_all(&mut marks, query) {
        return Ok(Vec::new(alloc));
    }
    Ok(marks)
}

// Marks the columns that a query takes, if each of its conjuncts is a test of one.
fn mark_all(marks: &mut [bool], query: &BoundQuery) -> bool
    ensures { result ≡ true → AllMarked query.now marks.new }
{
    let conjuncts = query.conjuncts.as_slice();
    let groups = query.groups.as_slice();
    let aggs = query.aggs.as_slice();
    if !mark_conjuncts(marks, conjuncts) {
        return false;
    }
    mark_groups(marks, groups);
    mark_aggs(marks, aggs);
    true
}

// Marks a column.
#[tactic(auto, using(crate::proofs::NamedLemmas::set_stays, crate::proofs::NamedLemmas::set_marked, crate::proofs::NamedLemmas::past_marked))]
fn mark(marks: &mut [bool], column: u16)
    ensures stay { StayMarked marks.old marks.new }
    ensures marked { is_marked marks.new column ≡ true }
{
    let column = usize::from(column);
    if column < marks.len() {
        marks[column] = true;
    }
}

// Marks the column of a conjunct, if it is a test of one.
fn mark_conjunct(marks: &mut [bool], conjunct: &Conjunct) -> bool
    ensures stay { StayMarked marks.old marks.new }
    ensures marked { result ≡ true → IsTestMarked marks.new conjunct.now }
{
    match conjunct {
        Conjunct::One(column, _) => {
            mark(marks, *column);
            true
        }
        Conjunct::Many(_) => false,
    }
}

// Marks the columns of the conjuncts, if each is a test of one.
fn mark_conjuncts(marks: &mut [bool], conjuncts: &[Conjunct]) -> bool
    ensures { result ≡ true → All (IsTestMarked marks.new) conjuncts.now }
{
    'conjuncts: for i in 0..conjuncts.len() {
        if !mark_conjunct(marks, &conjuncts[i]) {
            return false;
        }
    }
    true
}

// Marks the group columns.
fn mark_groups(marks: &mut [bool], groups: &[u16])
    ensures stay { StayMarked marks.old marks.new }
    ensures marked { All (λ column. is_marked marks.new column ≡ true) groups.now }
{
    'groups: for i in 0..groups.len() {
        mark(marks, groups[i]);
    }
}

// Marks the column whose numbers an aggregate takes, if it takes some.
fn mark_agg(marks: &mut [bool], agg: &Agg)
    ensures stay { StayMarked marks.old marks.new }
    ensures marked { IsAggMarked marks.new agg.now }
{
    if let Some(column) = agg.column {
        mark(marks, column);
    }
}

// Marks the columns whose numbers the aggregates take.
fn mark_aggs(marks: &mut [bool], aggs: &[Agg])
    ensures stay { StayMarked marks.old marks.new }
    ensures marked { All (IsAggMarked marks.new) aggs.now }
{
    'aggs: for i in 0..aggs.len() {
        mark_agg(marks, &aggs[i]);
    }
}
