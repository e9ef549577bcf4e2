//! Which groups satisfy HAVING.

ghost use Rattle.std.specs.Prelude.{◌≡◌, ◌<◌, ◌++◌, ◌∷◌, [], if◌then◌else◌, IfOk, OnOk, Some, length};
ghost use Rattle.std.specs.List.{range_with_len};
ghost use Rattle.group_table.specs.Kept.{IsTable, group_at};
ghost use Rattle.table_schema.specs.Conditions.{cell};
ghost use Rattle.broker_merge.specs.Order.{state_in};
ghost use Rattle.broker_merge.specs.Rank.{HasGroup, IsFair};
ghost use Rattle.broker_merge.specs.Having as spec;
ghost use Rattle.broker_merge.specs.Having.{IsAsked, MayBeAsked};

use agg_laws::{AggState, AverageState, compare_states};
use group_table::GroupsIn;
use std::alloc::Global;
use table_schema::Having;
use values::{CompareOp, NoMemory, Value, op_holds};

/// The places of the groups that a query asks for, of so many.
pub(crate) fn asked(
    alloc: Global,
    table: &GroupsIn<'_>,
    count: u32,
    having: &Option<Having>,
) -> Result<Vec<u32>, NoMemory>
    requires table { IsTable table.now }
    requires count { count ≡ length table.now.groups }
    requires asked { MayBeAsked table.now having.now }
    ensures { IfOk result (λ v. v.items ≡ spec.asked_places table.now having.now) }
{
    match having {
        Some(having) => holding(alloc, table, count, having),
        None => places_below(alloc, count),
    }
}

#[tactic(auto, using(crate::proofs::RankLemmas::range_more))]
fn places_below(alloc: Global, count: u32) -> Result<Vec<u32>, NoMemory>
    ensures { IfOk result (λ v. v.items ≡ range_with_len 0 count) }
{
    let mut places = Vec::with_capacity(alloc, count as usize)?;
    for at in 0..count {
        places.push(at)?;
    }
    Ok(places)
}

// The places of the groups that satisfy the condition.
#[tactic(auto, using(crate::proofs::AskedLemmas::filter_more))]
fn holding(
    alloc: Global,
    table: &GroupsIn<'_>,
    count: u32,
    having: &Having,
) -> Result<Vec<u32>, NoMemory>
    requires table { IsTable table.now }
    requires count { count ≡ length table.now.groups }
    requires asked { IsAsked table.now having.now }
    ensures { IfOk result (λ v. v.items ≡ spec.asked_places table.now (Some having.now)) }
{
    let mut places = Vec::new(alloc);
    for at in 0..count {
        let wanted = holds(table, at, having);
        push_if(&mut places, at, wanted)?;
    }
    Ok(places)
}

// Adds a place that is wanted.
fn push_if(places: &mut Vec<u32>, at: u32, wanted: bool) -> Result<(), NoMemory>
    ensures { OnOk result (places.new.items
        ≡ places.old.items ++ (if wanted then at ∷ [] else [])) }
{
    if wanted {
        places.push(at)?;
    }
    Ok(())
}

// Whether a group satisfies the condition.
fn holds(table: &GroupsIn<'_>, at: u32, having: &Having) -> bool
    requires group { HasGroup table.now at }
    requires asked { IsAsked table.now having.now }
    ensures { result ≡ spec.group_holds (group_at table.now at) having.now }
{
    match having {
        Having::Group(place, op, value) => {
            let order = values::compare(value_at(table, at, *place), value);
            op_holds(*op, order)
        }
        Having::Agg(place, op, number) => {
            let state = state_at(table, at, *place);
            state_holds(*op, state, *number)
        }
        Having::Not(inner) => !holds(table, at, inner.get()),
        Having::All(members) => {
            for member in members.as_slice() {
                if !holds(table, at, member) {
                    return false;
                }
            }
            true
        }
        Having::Any(members) => {
            for member in members.as_slice() {
                if holds(table, at, member) {
                    return true;
                }
            }
            false
        }
    }
}

// A value of the key of a group.
fn value_at<'a>(table: &'a GroupsIn<'_>, at: u32, place: u16) -> &'a Value
    requires group { HasGroup table.now at }
    requires column { place < table.now.columns }
    ensures { result.now ≡ cell (group_at table.now at).0 place }
{
    table.key_at(at).at(place as usize)
}

// An aggregate of a group, which can be compared.
fn state_at<'a>(table: &'a GroupsIn<'_>, at: u32, place: u16) -> &'a AggState
    requires group { HasGroup table.now at }
    requires grouped { 0 < table.now.columns }
    requires agg { place < length table.now.kinds }
    ensures state { result.now ≡ state_in (group_at table.now at) place }
    ensures fair { IsFair result.now }
{
    table.state_at(at, place)
}

// Whether an aggregate satisfies a comparison with a number.
fn state_holds(op: CompareOp, state: &AggState, bound: i64) -> bool
    requires { IsFair state.now }
    ensures { result ≡ spec.state_holds op state.now bound }
{
    match *state {
        AggState::Count(count) => op_holds(op, i128::from(count).cmp(&i128::from(bound))),
        AggState::Sum(sum) => op_holds(op, sum.cmp(&i128::from(bound))),
        AggState::Least(least) => number_holds(op, least, bound),
        AggState::Greatest(greatest) => number_holds(op, greatest, bound),
        AggState::Average(_) => {
            let one = AggState::Average(AverageState {
                sum: i128::from(bound),
                count: 1,
            });
            op_holds(op, compare_states(state, &one))
        }
    }
}

fn number_holds(op: CompareOp, number: Option<i64>, bound: i64) -> bool
    ensures { result ≡ spec.number_holds op number bound }
{
    match number {
        Some(number) => op_holds(op, number.cmp(&bound)),
        None => false,
    }
}
