//! The filter of a query, which is asked by the ids that were found for its conjuncts.
ghost use Rattle.std.specs.Prelude.{◌≡◌, ◌≤◌, ◌<◌, ℕ, IfOk, None, get_or, length, map, pos};
ghost use Rattle.std.specs.List.{list_any};
ghost use Rattle.values.specs.declared.value.Value.TheVariants as value;
ghost use Rattle.segment_opening.specs.Found as spec;

use outside::Seq;
use segment_head::{Matched, NoMemory};
use segment_plan::{are_consecutive, is_on};
use std::alloc::Global;
use table_schema::{Conjunct, Wide};
use value_ids::{IdSet, complement_of};
use values::{Test, Value};

/// What a query is asked by, where the columns that it tests were looked up.
#[derive(Drop)]
pub struct Found {
    /// Its filter, which tests ids of these columns in place of their values.
    pub conjuncts: Seq<Conjunct>,
    /// How many values each column has of which ids are tested.
    pub counts: Vec<Option<u32>>,
}

/// The filter that asks for the ids that were found for some conjuncts, over so many columns.
pub(crate) fn asked_by(
    alloc: Global,
    conjuncts: &[Conjunct],
    found: &[Matched],
    columns: usize,
) -> Result<Found, NoMemory>
    requires same { length found.now ≡ length conjuncts.now }
    requires at_most { columns ≤ 65535 }
    ensures conjuncts { IfOk result (λ f. spec.AreOnes conjuncts.now →
        spec.AreByIds conjuncts.now found.now f.conjuncts) }
    ensures count { IfOk result (λ f. length f.counts.items ≡ columns) }
    ensures counts { IfOk result (λ f. (column : ℕ) → column < columns →
        get_or f.counts.items column None ≡ spec.count_for conjuncts.now found.now column) }
{
    let counts = counts_for(alloc, conjuncts, found, columns)?;
    let conjuncts = conjuncts_by(alloc, conjuncts, found)?;
    Ok(Found { conjuncts, counts })
}

// The counts of so many columns.
fn counts_for(
    alloc: Global,
    conjuncts: &[Conjunct],
    found: &[Matched],
    columns: usize,
) -> Result<Vec<Option<u32>>, NoMemory>
    requires same { length found.now ≡ length conjuncts.now }
    requires at_most { columns ≤ 65535 }
    ensures count { IfOk result (λ counts. length counts.items ≡ columns) }
    ensures each { IfOk result (λ counts. (column : ℕ) → column < columns →
        get_or counts.items column None ≡ spec.count_for conjuncts.now found.now column) }
{
    let mut counts = Vec::with_capacity(alloc, columns)?;
    for column in 0..columns {
        counts.push(count_for(conjuncts, found, column as u16))?;
    }
    Ok(counts)
}

// What the first of the conjuncts on a column found as its count.
fn count_for(conjuncts: &[Conjunct], found: &[Matched], column: u16) -> Option<u32>
    requires { length found.now ≡ length conjuncts.now }
    ensures { result ≡ spec.count_for conjuncts.now found.now column }
{
    for at in 0..conjuncts.len() {
        if is_on(&conjuncts[at], column) {
            return Some(found[at].count);
        }
    }
    None
}

// The conjuncts that ask for what was found for others.
fn conjuncts_by(
    alloc: Global,
    conjuncts: &[Conjunct],
    found: &[Matched],
) -> Result<Seq<Conjunct>, NoMemory>
    requires same { length found.now ≡ length conjuncts.now }
    ensures { IfOk result (λ asked. spec.AreOnes conjuncts.now →
        spec.AreByIds conjuncts.now found.now asked) }
{
    let mut asked = Seq::with_capacity(alloc, conjuncts.len())?;
    'conjuncts: for at in 0..conjuncts.len() {
        let conjunct = conjunct_by(alloc, &conjuncts[at], &found[at])?;
        asked.push(conjunct)?;
    }
    Ok(asked)
}

// The conjunct that asks for what was found for another, if that names one column.
fn conjunct_by(alloc: Global, conjunct: &Conjunct, matched: &Matched) -> Result<Conjunct, NoMemory>
    ensures { IfOk result (λ asked. spec.IsOne conjunct.now →
        spec.IsByIds matched.now conjunct.now asked) }
{
    match conjunct {
        Conjunct::One(column, _) => Ok(Conjunct::One(*column, test_of(alloc, matched)?)),
        Conjunct::Many(_) => Ok(Conjunct::Many(Wide::All(Seq::new(alloc)))),
    }
}

// The test that a number is one of these ids: one from the first to the last, where they follow one
// another, and where they are most of all, that it is none of the others.
fn test_of(alloc: Global, matched: &Matched) -> Result<Test, NoMemory>
    ensures { IfOk result (spec.PicksIds matched.now) }
{
    let ids = &matched.ids;
    if are_consecutive(ids) {
        let low = as_value(*ids.at(0));
        let high = as_value(*ids.at(ids.len() as usize - 1));
        return Ok(Test::Between(low, high, false));
    }
    if ids.len() > matched.count / 2 {
        let others = complement_of(alloc, matched.count, ids)?;
        return Ok(Test::OneOf(values_of(alloc, others.as_slice())?, true));
    }
    Ok(Test::OneOf(values_of(alloc, ids.as_slice())?, false))
}

// The ids as values.
fn values_of(alloc: Global, ids: &[u32]) -> Result<Seq<Value>, NoMemory>
    ensures { IfOk result (λ values. values ≡ map (λ id. value.Whole (pos id)) ids.now) }
{
    let mut values = Seq::with_capacity(alloc, ids.len())?;
    'ids: for id in ids {
        values.push(as_value(*id))?;
    }
    Ok(values)
}

// An id as a value.
fn as_value(id: u32) -> Value
    ensures { result ≡ value.Whole (pos id) }
{
    Value::Whole(i64::from(id))
}

/// Whether the ids of some conjunct have none in common with those of each conjunct on its column.
pub(crate) fn some_shares_none(conjuncts: &[Conjunct], found: &[Matched]) -> bool
    requires { length found.now ≡ length conjuncts.now }
    ensures { result
        ≡ spec.some_shares_none conjuncts.now found.now conjuncts.now found.now }
{
    for at in 0..conjuncts.len() {
        if shares_none(conjuncts, found, &conjuncts[at], &found[at]) {
            return true;
        }
    }
    false
}

// No id of this conjunct is one of those of each conjunct on its column.
fn shares_none(
    conjuncts: &[Conjunct],
    found: &[Matched],
    conjunct: &Conjunct,
    matched: &Matched,
) -> bool
    requires { length found.now ≡ length conjuncts.now }
    ensures { result ≡ spec.shares_none conjuncts.now found.now conjunct.now matched.now }
{
    match conjunct {
        Conjunct::One(column, _) => !some_shared(conjuncts, found, *column, &matched.ids),
        Conjunct::Many(_) => false,
    }
}

// Whether one of the ids is among those of each conjunct on the column.
fn some_shared(conjuncts: &[Conjunct], found: &[Matched], column: u16, ids: &IdSet) -> bool
    requires { length found.now ≡ length conjuncts.now }
    ensures { result ≡ list_any (spec.is_shared conjuncts.now found.now column) ids.now }
{
    let ids = ids.as_slice();
    for id in ids {
        if is_shared(conjuncts, found, column, *id) {
            return true;
        }
    }
    false
}

// Whether an id is among those of each conjunct on the column.
fn is_shared(conjuncts: &[Conjunct], found: &[Matched], column: u16, id: u32) -> bool
    requires { length found.now ≡ length conjuncts.now }
    ensures { result ≡ spec.is_shared conjuncts.now found.now column id }
{
    for at in 0..conjuncts.len() {
        if lacks(&conjuncts[at], &found[at], column, id) {
            return false;
        }
    }
    true
}

// The id is none of those of a conjunct on the column.
fn lacks(conjunct: &Conjunct, matched: &Matched, column: u16, id: u32) -> bool
    ensures { result ≡ spec.lacks conjunct.now matched.now column id }
{
    is_on(conjunct, column) && !matched.ids.contains(id)
}
