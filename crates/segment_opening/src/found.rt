//! Columns that a query only tests are looked up where their dictionaries lie.
ghost use Rattle.std.specs.Prelude.{◌≡◌, ◌≤◌, ◌<◌, ◌++◌, ◌∷◌, [], false, Some, IfOk, IfSome, OnOk, get_or, length, slice_get};
ghost use Rattle.outside.specs.Seen.{seen};
ghost use Rattle.value_ids.specs.Dictionary.{most_values};
ghost use Rattle.segment_head.specs.Calls.{IsColumnOf};
ghost use Rattle.segment_head.specs.Heads.{OfWhole};
ghost use Rattle.segment_head.specs.Lookups.{OfColumn};
ghost use Rattle.segment_plan.specs.Named.{AreNamedLoaded};
ghost use Rattle.segment_opening.specs.Calls.{IsQueryOnHead, LoadsMore, LooksUp};
ghost use Rattle.segment_opening.specs.Found.{AreFound, IsFoundFor, IsFoundIn, TellsOthers, unfiltered};

use crate::emptied::is_large;
use crate::loading::load_marked;
use crate::tests::{has_few_bounds, is_met};
use outside::Shelf;
use segment_file::HeadFault;
use segment_head::{EngineFault, Head, Matched, NoMemory};
use segment_plan::{IndexChoice, named_columns};
use std::alloc::Global;
use table_schema::{BoundQuery, Conjunct, Table};
use values::Test;

/// Looks up the columns of the conjuncts of a query, where each names one column, of which nothing
/// else is asked, and some of these have large dictionaries; unless a star-tree answers. Bounds are
/// cut where the dictionaries lie.
pub(crate) fn look_up<S: Shelf>(
    alloc: Global,
    shelf: &mut S,
    table: &Table,
    query: &BoundQuery,
    by_tree: bool,
    head: &Head,
) -> Result<Option<Vec<Matched>>, EngineFault>
    requires { IsQueryOnHead query.now table.now head.now }
    ensures untreed { IfOk result (λ found. IfSome found (λ f. by_tree ≡ false)) }
    ensures found { IfOk result (λ found. IfSome found (λ f.
        AreFound query.now table.now (S.held shelf.old) head.now f.items)) }
    ensures looks { LooksUp table.now result head.now
        (seen S.Shelf shelf.old) (seen S.Shelf shelf.new) }
{
    if by_tree || !are_worth(query.conjuncts.as_slice(), head) {
        return Ok(None);
    }
    let others = other_columns(alloc, query, table.schema.fields.len())?;
    if some_marked(query.conjuncts.as_slice(), others.as_slice()) {
        return Ok(None);
    }
    find_each(alloc, shelf, table, head, query, others.as_slice())
}

// Whether each conjunct names one column and has few bounds, and some column is large.
fn are_worth(conjuncts: &[Conjunct], head: &Head) -> bool {
    let mut large = false;
    for conjunct in conjuncts {
        match conjunct {
            Conjunct::One(column, test) => {
                if !has_few_bounds(test) {
                    return false;
                }
                large = large || is_large(head, *column);
            }
            Conjunct::Many(_) => return false,
        }
    }
    large
}

// Whether a conjunct is on a column that is marked, so that nothing is looked up in vain.
fn some_marked(conjuncts: &[Conjunct], marks: &[bool]) -> bool {
    for conjunct in conjuncts {
        if let Conjunct::One(column, _) = conjunct {
            if let Some(true) = marks.get(*column as usize) {
                return true;
            }
        }
    }
    false
}

// What is found for each conjunct of a query, unless a column is among others that are marked, or a
// dictionary is bad.
fn find_each<S: Shelf>(
    alloc: Global,
    shelf: &mut S,
    table: &Table,
    head: &Head,
    query: &BoundQuery,
    others: &[bool],
) -> Result<Option<Vec<Matched>>, EngineFault>
    requires asked { IsQueryOnHead query.now table.now head.now }
    requires others { TellsOthers query.now (length table.now.schema.fields) others.now }
    ensures found { IfOk result (λ found. IfSome found (λ f.
        AreFound query.now table.now (S.held shelf.old) head.now f.items)) }
    ensures looks { LooksUp table.now result head.now
        (seen S.Shelf shelf.old) (seen S.Shelf shelf.new) }
{
    let conjuncts = query.conjuncts.as_slice();
    let mut found = Vec::with_capacity(alloc, conjuncts.len())?;
    'conjuncts: for at in 0..conjuncts.len() {
        match find_for(alloc, shelf, table, head, query, others, at) {
            Ok(Some(matched)) => match push(&mut found, matched) {
                Ok(()) => {}
                Err(_) => return Err(EngineFault::NoMemory),
            },
            Ok(None) => return Ok(None),
            Err(fault) => return Err(fault),
        }
    }
    Ok(Some(found))
}

// Adds what was found.
fn push(found: &mut Vec<Matched>, matched: Matched) -> Result<(), NoMemory>
    ensures { OnOk result (found.new.items ≡ found.old.items ++ matched ∷ []) }
{
    found.push(matched)?;
    Ok(())
}

// What is found for one conjunct of the query.
fn find_for<S: Shelf>(
    alloc: Global,
    shelf: &mut S,
    table: &Table,
    head: &Head,
    query: &BoundQuery,
    others: &[bool],
    at: usize,
) -> Result<Option<Matched>, EngineFault>
    requires asked { IsQueryOnHead query.now table.now head.now }
    requires others { TellsOthers query.now (length table.now.schema.fields) others.now }
    requires at { at < length query.now.conjuncts }
    ensures found { IfOk result (λ found. IfSome found (λ matched. (conjunct : _) →
        slice_get query.now.conjuncts at ≡ Some conjunct →
        IsFoundFor query.now table.now (S.held shelf.old) head.now conjunct matched)) }
    ensures looks { LooksUp table.now result head.now
        (seen S.Shelf shelf.old) (seen S.Shelf shelf.new) }
{
    let Conjunct::One(column, test) = query.conjuncts.at(at) else {
        return Ok(None);
    };
    if is_marked(others, *column) {
        return Ok(None);
    }
    let met = is_met(alloc, test)?;
    if !met {
        return Ok(None);
    }
    find(alloc, shelf, table, head, *column, test)
}

// Whether a column is marked.
fn is_marked(marks: &[bool], column: u16) -> bool
    requires { column < length marks.now }
    ensures { result ≡ get_or marks.now column false }
{
    marks[column as usize]
}

/// How many values a column has, and the ids of those that satisfy a test, unless its dictionary is
/// bad.
pub(crate) fn find<S: Shelf>(
    alloc: Global,
    shelf: &mut S,
    table: &Table,
    head: &Head,
    column: u16,
    test: &Test,
) -> Result<Option<Matched>, EngineFault>
    requires { IsColumnOf table.now head.now column }
    ensures found { IfOk result (λ found. IfSome found (λ m.
        OfWhole table.now (S.held shelf.old) head.now (OfColumn column (IsFoundIn test.now m)))) }
    ensures few { IfOk result (λ found. IfSome found (λ m. m.count ≤ most_values)) }
    ensures looks { LooksUp table.now result head.now
        (seen S.Shelf shelf.old) (seen S.Shelf shelf.new) }
{
    match head.matched(alloc, shelf, table, column, test) {
        Ok(matched) => Ok(Some(matched)),
        Err(HeadFault::NotASegment(_)) => Ok(None),
        Err(HeadFault::ReadFault) => Err(EngineFault::ReadFault),
        Err(HeadFault::NoMemory) => Err(EngineFault::NoMemory),
    }
}

/// Loads the dictionaries of the group columns and of those that aggregates name.
pub(crate) fn load_others<S: Shelf>(
    alloc: Global,
    shelf: &mut S,
    table: &Table,
    query: &BoundQuery,
    head: &mut Head,
) -> Result<(), EngineFault>
    requires asked { IsQueryOnHead query.now table.now head.old }
    ensures loads { LoadsMore table.now result head.old head.new
        (seen S.Shelf shelf.old) (seen S.Shelf shelf.new) }
    ensures others { OnOk result (AreNamedLoaded (unfiltered query.now) head.new) }
{
    let others = other_columns(alloc, query, table.schema.fields.len())?;
    load_marked(alloc, shelf, table, others.as_slice(), head)
}

// A mark for each of so many columns, of those that the query names in group columns and
// aggregates.
fn other_columns(alloc: Global, query: &BoundQuery, count: usize) -> Result<Vec<bool>, NoMemory>
    requires at_most { count ≤ 65535 }
    ensures { IfOk result (λ marks. TellsOthers query.now count marks.items) }
{
    let choices = vec![in alloc; IndexChoice::Sorted; query.conjuncts.len()]?;
    named_columns(alloc, query, choices.as_slice(), count)
}
