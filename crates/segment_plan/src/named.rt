//! Which columns a query names.

ghost use Rattle.std.specs.Prelude.{◌≡◌, ◌≤◌, ◌&&◌, not};
ghost use Rattle.std.specs.List.{list_any};
ghost use Rattle.segment_plan.specs.Named as spec;
ghost use Rattle.segment_plan.specs.Served.{is_served, rest_of, unserved};

use crate::plans::IndexChoice;
use crate::serving::{choice_at, is_served};
use std::alloc::Global;
use table_schema::{Agg, BoundQuery, Conjunct, Wide};
use values::NoMemory;

/// A mark for each of so many columns, whether the query names it in a group column, an aggregate
/// or a conjunct that is not served.
pub fn named_columns(
    alloc: Global,
    query: &BoundQuery,
    choices: &[IndexChoice],
    count: usize,
) -> Result<Vec<bool>, NoMemory>
    requires { count ≤ 65535 }
    ensures { spec.MarksColumns count result (λ named. named.items)
        (spec.query_names (rest_of query.now choices.now)) }
{
    let mut named = Vec::with_capacity(alloc, count)?;
    for column in 0..count {
        named.push(query_names(query, choices, column as u16))?;
    }
    Ok(named)
}

fn query_names(query: &BoundQuery, choices: &[IndexChoice], column: u16) -> bool
    ensures { result ≡ spec.query_names (rest_of query.now choices.now) column }
{
    conjuncts_name(query.conjuncts.as_slice(), choices, column)
        || is_in(query.groups.as_slice(), column)
        || aggs_name(query.aggs.as_slice(), column)
}

// A conjunct that is not served names the column.
fn conjuncts_name(conjuncts: &[Conjunct], choices: &[IndexChoice], column: u16) -> bool
    ensures { result
        ≡ list_any (spec.conjunct_names column) (unserved choices.now conjuncts.now) }
{
    for at in 0..conjuncts.len() {
        if names_unserved(&conjuncts[at], choice_at(choices, at), column) {
            return true;
        }
    }
    false
}

// The conjunct is not served and names the column.
fn names_unserved(conjunct: &Conjunct, choice: IndexChoice, column: u16) -> bool
    ensures { result
        ≡ (not (is_served choice conjunct.now) && spec.conjunct_names column conjunct.now) }
{
    !is_served(choice, conjunct) && conjunct_names(conjunct, column)
}

fn conjunct_names(conjunct: &Conjunct, column: u16) -> bool
    ensures { result ≡ spec.conjunct_names column conjunct.now }
{
    match conjunct {
        Conjunct::One(other, _) => *other == column,
        Conjunct::Many(wide) => wide_names(wide, column),
    }
}

fn wide_names(wide: &Wide, column: u16) -> bool
    ensures { result ≡ spec.wide_names column wide.now }
{
    match wide {
        Wide::Leaf(other, _) => *other == column,
        Wide::All(inner) => {
            for member in inner.as_slice() {
                if wide_names(member, column) {
                    return true;
                }
            }
            false
        }
        Wide::Any(inner) => {
            for member in inner.as_slice() {
                if wide_names(member, column) {
                    return true;
                }
            }
            false
        }
    }
}

fn is_in(numbers: &[u16], column: u16) -> bool
    ensures { result ≡ spec.is_in numbers.now column }
{
    for number in numbers {
        if *number == column {
            return true;
        }
    }
    false
}

fn aggs_name(aggs: &[Agg], column: u16) -> bool
    ensures { result ≡ list_any (spec.agg_names column) aggs.now }
{
    for agg in aggs {
        if agg_names(agg, column) {
            return true;
        }
    }
    false
}

fn agg_names(agg: &Agg, column: u16) -> bool
    ensures { result ≡ spec.agg_names column agg.now }
{
    match agg.column {
        Some(other) => other == column,
        None => false,
    }
}
