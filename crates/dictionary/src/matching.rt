//! The ids of the values that satisfy a test. Values that ascend are cut by a bound, and none is
//! tested.
ghost use Rattle.std.specs.Prelude.{IfOk};
ghost use Rattle.values.specs.Tests.{is_between, is_member, negated_if, holds};
ghost use Rattle.value_ids.specs.Ids.{AreThose, Picks, negated_ids};

use std::alloc::Global;
use value_ids::{
    AscendingValues, Cut, IdSet, compared, complement_of, cut_at, intersection_of, range_of,
    set_of, union_of,
};
use values::{NoMemory, Test, Value};

/// The ids of the values that satisfy the test.
pub fn matching_ids(
    alloc: Global,
    test: &Test,
    ascending: AscendingValues<'_>,
) -> Result<IdSet, NoMemory>
    ensures { IfOk result (Picks (λ value. holds value test.now) ascending.entry.values.now) }
{
    let count = ascending.values.len() as u32;
    match test {
        Test::Compare(op, bound) => compared(alloc, *op, bound, ascending),
        Test::OneOf(members, negated) => one_of(alloc, members.as_slice(), *negated, ascending),
        Test::Between(low, high, negated) => between(alloc, low, high, *negated, ascending),
        Test::All(tests) => {
            let mut ids = range_of(alloc, 0, count)?;
            for test in tests.as_slice() {
                ids = intersection_of(alloc, &ids, &matching_ids(alloc, test, ascending)?)?;
            }
            Ok(ids)
        }
        Test::Any(tests) => {
            let mut ids = IdSet::new(alloc);
            for test in tests.as_slice() {
                ids = union_of(alloc, count, &ids, &matching_ids(alloc, test, ascending)?)?;
            }
            Ok(ids)
        }
    }
}

// The ids, or those of all other values.
fn negated_set(alloc: Global, negated: bool, count: u32, ids: IdSet) -> Result<IdSet, NoMemory>
    ensures { IfOk result (AreThose (negated_ids negated count ids)) }
{
    if negated {
        complement_of(alloc, count, &ids)
    } else {
        Ok(ids)
    }
}

fn between(
    alloc: Global,
    low: &Value,
    high: &Value,
    negated: bool,
    ascending: AscendingValues<'_>,
) -> Result<IdSet, NoMemory>
    ensures { IfOk result (Picks (λ value. negated_if negated (is_between low.now value high.now))
        ascending.entry.values.now) }
{
    let ids = range_of(
        alloc,
        cut_at(ascending, low).from,
        cut_at(ascending, high).to,
    )?;
    negated_set(alloc, negated, ascending.values.len() as u32, ids)
}

// The place of each member that is there.
fn places_of(
    alloc: Global,
    members: &[Value],
    ascending: AscendingValues<'_>,
) -> Result<Vec<u32>, NoMemory>
    ensures { IfOk result (λ places. Picks (is_member members.now) ascending.entry.values.now
        places.items) }
{
    let mut places = Vec::new(alloc);
    for member in members {
        let Cut { from, to } = cut_at(ascending, member);
        if to <= from {
            continue;
        }
        places.push(from)?;
    }
    Ok(places)
}

fn one_of(
    alloc: Global,
    members: &[Value],
    negated: bool,
    ascending: AscendingValues<'_>,
) -> Result<IdSet, NoMemory>
    ensures { IfOk result (Picks (λ value. negated_if negated (is_member members.now value))
        ascending.entry.values.now) }
{
    let ids = set_of(alloc, places_of(alloc, members, ascending)?)?;
    negated_set(alloc, negated, ascending.values.len() as u32, ids)
}
