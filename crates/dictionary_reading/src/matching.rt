//! The ids of the values that satisfy a test, by where its bounds cut the values. None is tested.
ghost use Rattle.std.specs.Prelude.{◌≡◌, ◌≤◌, ◌<◌, ◌+◌, ℕ, List, IfOk, OnOk, length};
ghost use Rattle.values.specs.Order.{value_order};
ghost use Rattle.values.specs.Tests.{holds, is_between, is_member, negated_if, op_holds};
ghost use Rattle.values.specs.declared.value.Value as spec;
ghost use Rattle.value_ids.specs.Ids.{AreThose, Cuts, Picks, matching, negated_ids};
ghost use Rattle.dictionary_reading.specs.Bounds.{AreCut, AreCutsFrom, bounds_of};

use std::alloc::Global;
use value_ids::{Cut, IdSet, complement_of, intersection_of, range_of, set_of, union_of};
use values::{CompareOp, NoMemory, Test};

/// The ids of those of so many values that satisfy a test, whose bounds cut the values so.
pub fn matching_ids(alloc: Global, test: &Test, cuts: &[Cut], count: u32) -> Result<IdSet, NoMemory>
    requires each { length (bounds_of test.now) ≤ length cuts.now }
    ensures { IfOk result (λ ids. (values : List spec.Value) →
        AreCut count (bounds_of test.now) cuts.now values → ids ≡ matching test.now values) }
{
    let mut at = 0;
    let ids = matching_from(alloc, test, cuts, count, &mut at)?;
    let _list = ids.as_slice();
    Ok(ids)
}

// The same, where the cuts are those from a place on, which moves past them.
fn matching_from(
    alloc: Global,
    test: &Test,
    cuts: &[Cut],
    count: u32,
    at: &mut usize,
) -> Result<IdSet, NoMemory>
    requires each { at.old + length (bounds_of test.now) ≤ length cuts.now }
    ensures ids { IfOk result (λ ids. (values : List spec.Value) → length values ≡ count →
        AreCutsFrom at.old (bounds_of test.now) cuts.now values →
        Picks (λ value. holds value test.now) values ids) }
    ensures past { OnOk result (at.new ≡ at.old + length (bounds_of test.now)) }
{
    match test {
        Test::Compare(op, _) => {
            let cut = cuts[*at];
            *at += 1;
            compared(alloc, *op, cut, count)
        }
        Test::Between(_, _, negated) => {
            let low = cuts[*at];
            let high = cuts[*at + 1];
            *at += 2;
            between(alloc, low, high, *negated, count)
        }
        Test::OneOf(members, negated) => {
            let from = *at;
            *at += members.len();
            one_of(alloc, &cuts[from..*at], *negated, count)
        }
        Test::All(tests) => {
            let mut ids = range_of(alloc, 0, count)?;
            for test in tests.as_slice() {
                let own = matching_from(alloc, test, cuts, count, at)?;
                ids = intersection_of(alloc, &ids, &own)?;
            }
            Ok(ids)
        }
        Test::Any(tests) => {
            let mut ids = IdSet::new(alloc);
            for test in tests.as_slice() {
                let own = matching_from(alloc, test, cuts, count, at)?;
                ids = union_of(alloc, count, &ids, &own)?;
            }
            Ok(ids)
        }
    }
}

// The ids of the values that stand so to the bound of this cut: those of one run, or all others.
fn compared(alloc: Global, op: CompareOp, cut: Cut, count: u32) -> Result<IdSet, NoMemory>
    ensures { IfOk result (λ ids. (values : List spec.Value) (bound : spec.Value) →
        length values ≡ count → Cuts values bound cut.from cut.to →
        Picks (λ value. op_holds op (value_order value bound)) values ids) }
{
    let Cut { from, to } = cut;
    match op {
        CompareOp::Equal => range_of(alloc, from, to),
        CompareOp::Unequal => complement_of(alloc, count, &range_of(alloc, from, to)?),
        CompareOp::Less => range_of(alloc, 0, from),
        CompareOp::AtMost => range_of(alloc, 0, to),
        CompareOp::More => range_of(alloc, to, count),
        CompareOp::AtLeast => range_of(alloc, from, count),
    }
}

// The ids of the values between the bounds of two cuts, or all others.
fn between(alloc: Global, low: Cut, high: Cut, negated: bool, count: u32) -> Result<IdSet, NoMemory>
    ensures { IfOk result (λ ids. (values : List spec.Value) (least greatest : spec.Value) →
        length values ≡ count → Cuts values least low.from low.to →
        Cuts values greatest high.from high.to →
        Picks (λ value. negated_if negated (is_between least value greatest)) values ids) }
{
    let ids = range_of(alloc, low.from, high.to)?;
    negated_set(alloc, negated, count, ids)
}

// The ids of the values that are the bound of one of these cuts, or all others.
fn one_of(alloc: Global, cuts: &[Cut], negated: bool, count: u32) -> Result<IdSet, NoMemory>
    ensures { IfOk result (λ ids. (values members : List spec.Value) →
        length values ≡ count → length members ≡ length cuts.now →
        AreCutsFrom 0 members cuts.now values →
        Picks (λ value. negated_if negated (is_member members value)) values ids) }
{
    let ids = set_of(alloc, places_of(alloc, cuts)?)?;
    negated_set(alloc, negated, count, ids)
}

// The place of each bound that is there.
fn places_of(alloc: Global, cuts: &[Cut]) -> Result<Vec<u32>, NoMemory>
    ensures { IfOk result (λ places. (values members : List spec.Value) →
        length members ≡ length cuts.now → AreCutsFrom 0 members cuts.now values →
        Picks (is_member members) values places.items) }
{
    let mut places = Vec::new(alloc);
    for cut in cuts {
        if cut.to <= cut.from {
            continue;
        }
        places.push(cut.from)?;
    }
    Ok(places)
}

// The ids, or those of all other values.
fn negated_set(alloc: Global, negated: bool, count: u32, ids: IdSet) -> Result<IdSet, NoMemory>
    ensures { IfOk result (AreThose (negated_ids negated count ids)) }
{
    if negated {
        complement_of(alloc, count, &ids)
    } else {
        Ok(ids)
    }
}
