//! The values of a column that satisfy the conjuncts on it.
ghost use Rattle.std.specs.Prelude.{◌≡◌, ◌≤◌, [], IfOk, drop, length, map, slice_index_or};
ghost use Rattle.std.specs.List.{filter};
ghost use Rattle.value_ids.specs.Ids.{matching};
ghost use Rattle.segment_plan.specs.Matched as spec;

use crate::NoMemory;
use dictionary::Dictionary;
use std::alloc::Global;
use table_schema::Conjunct;
use value_ids::IdSet;

/// Whether some conjunct names the column alone.
pub fn is_filtered(conjuncts: &[Conjunct], column: u16) -> bool
    ensures { result ≡ spec.is_filtered conjuncts.now column }
{
    conjuncts.iter().any(|conjunct| is_on(conjunct, column))
}

/// How many values of the dictionary of a column satisfy each conjunct that names it alone. Bounds
/// are looked up, and no value is tested.
pub(crate) fn matched(
    alloc: Global,
    conjuncts: &[Conjunct],
    column: u16,
    dictionary: &Dictionary,
) -> Result<u32, NoMemory>
    ensures { IfOk result (λ n. n ≡ spec.matched conjuncts.now column dictionary.now.values) }
{
    let sets = matching_sets(alloc, conjuncts, column, dictionary)?;
    let sets = sets.as_slice();
    if sets.is_empty() {
        return Ok(dictionary.count());
    }
    Ok(count_shared(sets))
}

/// Whether the conjunct names the column alone.
pub fn is_on(conjunct: &Conjunct, column: u16) -> bool
    ensures { result ≡ spec.is_on column conjunct.now }
{
    match conjunct {
        Conjunct::One(named, _) => *named == column,
        Conjunct::Many(_) => false,
    }
}

// For each conjunct that names the column alone, the ids of the values that satisfy it.
fn matching_sets(
    alloc: Global,
    conjuncts: &[Conjunct],
    column: u16,
    dictionary: &Dictionary,
) -> Result<Vec<IdSet>, NoMemory>
    ensures { IfOk result (λ sets. sets.items
        ≡ map (λ condition. matching condition dictionary.now.values)
        (spec.conditions_on column conjuncts.now)) }
{
    let mut sets = Vec::new(alloc);
    for conjunct in conjuncts {
        if let Conjunct::One(named, condition) = conjunct {
            if *named == column {
                sets.push(dictionary.ids_matching(alloc, condition)?)?;
            }
        }
    }
    Ok(sets)
}

// How many ids of the first set are in each of the others.
fn count_shared(sets: &[IdSet]) -> u32
    requires some { 1 ≤ length sets.now }
    ensures { result ≡ length (filter (spec.is_in_all (drop 1 sets.now))
        (slice_index_or sets.now 0 [])) }
{
    let others = after_first(sets);
    let mut count = 0;
    for id in sets[0].as_slice() {
        if is_in_all(others, *id) {
            count += 1;
        }
    }
    count
}

// All sets but the first.
fn after_first(sets: &[IdSet]) -> &[IdSet]
    requires { 1 ≤ length sets.now }
    ensures { result.now ≡ drop 1 sets.now }
{
    &sets[1..]
}

// The id is in each of the sets.
fn is_in_all(sets: &[IdSet], id: u32) -> bool
    ensures { result ≡ spec.is_in_all sets.now id }
{
    sets.iter().all(|ids| ids.contains(id))
}
