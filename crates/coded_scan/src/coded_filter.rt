//! The conditions of a query on the rows of a segment: each test is made once on each distinct
//! value of its column, and looked up by id from then on.

ghost use Rattle.std.specs.Prelude.{◌≡◌, ◌&&◌, ◌||◌, ◌<◌, ℕ, IfOk, OnOk, true};
ghost use Rattle.values.specs.Columns.{row_of};
ghost use Rattle.values.specs.Tests.{holds};
ghost use Rattle.table_schema.specs.Conditions as spec;
ghost use Rattle.coded_columns.specs.Coded.{table_of};
ghost use Rattle.coded_scan.specs.RowFilters.{AllCover, all_let, covers, lets};
ghost use Rattle.segment_plan.specs.Served.{is_served, unserved};

use crate::row_filter::RowFilter;
use coded_columns::SegmentColumns;
use data_types::Seq;
use segment_plan::{IndexChoice, choice_at, is_served};
use std::alloc::Global;
use table_schema::{Conjunct, Wide};
use values::{NoMemory, Test, Value, holds_value};

/// The conditions that are those of the conjuncts that are not served.
pub fn row_filters_of<'a>(
    alloc: Global,
    segment: &SegmentColumns<'a>,
    conjuncts: &[Conjunct],
    choices: &[IndexChoice],
) -> Result<Vec<RowFilter<'a>>, NoMemory>
    ensures lets { IfOk result (λ row_filters. (at : ℕ) → at < segment.now.count
        → all_let at row_filters.items ≡ spec.all_hold (row_of (table_of segment.now).columns at)
        (unserved choices.now conjuncts.now)) }
    ensures covers { IfOk result (λ row_filters. AllCover segment.now.count row_filters.items) }
{
    let mut row_filters = Vec::new(alloc);
    for at in 0..conjuncts.len() {
        push_unserved(
            alloc,
            &mut row_filters,
            segment,
            &conjuncts[at],
            choice_at(choices, at),
        )?;
    }
    Ok(row_filters)
}

// Adds the condition that a conjunct is, unless it is served.
#[tactic(auto, using(crate::proofs::RowFilterLemmas::all_push))]
fn push_unserved<'a>(
    alloc: Global,
    row_filters: &mut Vec<RowFilter<'a>>,
    segment: &SegmentColumns<'a>,
    conjunct: &Conjunct,
    choice: IndexChoice,
) -> Result<(), NoMemory>
    requires covers { AllCover segment.now.count row_filters.old.items }
    ensures lets { OnOk result ((at : ℕ) → at < segment.now.count → all_let at row_filters.new.items
        ≡ (all_let at row_filters.old.items && (is_served choice conjunct.now
        || spec.conjunct_holds (row_of (table_of segment.now).columns at) conjunct.now))) }
    ensures covers { OnOk result (AllCover segment.now.count row_filters.new.items) }
{
    if is_served(choice, conjunct) {
        return Ok(());
    }
    let row_filter = row_filter_of(alloc, segment, conjunct)?;
    row_filters.push(row_filter)?;
    Ok(())
}

// The condition that a conjunct is.
fn row_filter_of<'a>(
    alloc: Global,
    segment: &SegmentColumns<'a>,
    conjunct: &Conjunct,
) -> Result<RowFilter<'a>, NoMemory>
    ensures lets { IfOk result (λ row_filter. (at : ℕ) → at < segment.now.count → lets at row_filter
        ≡ spec.conjunct_holds (row_of (table_of segment.now).columns at) conjunct.now) }
    ensures covers { IfOk result (λ row_filter. covers segment.now.count row_filter ≡ true) }
{
    match conjunct {
        Conjunct::One(field, test) => {
            let row_filter = tested(alloc, segment, *field, test)?;
            Ok(row_filter)
        }
        Conjunct::Many(wide) => {
            let row_filter = wide_row_filter(alloc, segment, wide)?;
            Ok(row_filter)
        }
    }
}

// The condition that the value in a field satisfies a test.
fn tested<'a>(
    alloc: Global,
    segment: &SegmentColumns<'a>,
    field: u16,
    test: &Test,
) -> Result<RowFilter<'a>, NoMemory>
    ensures lets { IfOk result (λ row_filter. (at : ℕ) → at < segment.now.count → lets at row_filter
        ≡ holds (spec.cell (row_of (table_of segment.now).columns at) field) test.now) }
    ensures covers { IfOk result (λ row_filter. covers segment.now.count row_filter ≡ true) }
{
    match segment.column(field) {
        Some(column) => {
            let matching = column.dictionary.ids_matching(alloc, test)?;
            Ok(RowFilter::Ids(column.ids, matching))
        }
        None => Ok(RowFilter::Fixed(holds_value(test, &Value::Whole(0)))),
    }
}

// A condition over several columns.
fn wide_row_filter<'a>(
    alloc: Global,
    segment: &SegmentColumns<'a>,
    wide: &Wide,
) -> Result<RowFilter<'a>, NoMemory>
    ensures lets { IfOk result (λ row_filter. (at : ℕ) → at < segment.now.count → lets at row_filter
        ≡ spec.wide_holds (row_of (table_of segment.now).columns at) wide.now) }
    ensures covers { IfOk result (λ row_filter. covers segment.now.count row_filter ≡ true) }
{
    match wide {
        Wide::Leaf(field, test) => {
            let row_filter = tested(alloc, segment, *field, test)?;
            Ok(row_filter)
        }
        Wide::All(inner) => {
            let mut row_filters = Seq::with_capacity(alloc, inner.len())?;
            for member in inner.as_slice() {
                row_filters.push(wide_row_filter(alloc, segment, member)?)?;
            }
            Ok(RowFilter::All(row_filters))
        }
        Wide::Any(inner) => {
            let mut row_filters = Seq::with_capacity(alloc, inner.len())?;
            for member in inner.as_slice() {
                row_filters.push(wide_row_filter(alloc, segment, member)?)?;
            }
            Ok(RowFilter::Any(row_filters))
        }
    }
}
