//! Sets of ids made of ids and of other sets.
ghost use Rattle.std.specs.Prelude.{◌≡◌, ◌||◌, IfOk};
ghost use Rattle.value_ids.specs.Ids.{AreThose, has_id, is_in_both, is_in_either, is_outside, is_within};

use crate::IdSet;
use std::alloc::Global;
use values::NoMemory;

/// The ids from one up to another.
pub fn range_of(alloc: Global, from: u32, to: u32) -> Result<IdSet, NoMemory>
    ensures { IfOk result (AreThose (is_within from to)) }
{
    let mut ids = IdSet::new(alloc);
    ids.push_run(from, to)?;
    Ok(ids)
}

/// The ids below a count that are not in the set.
pub fn complement_of(alloc: Global, count: u32, ids: &IdSet) -> Result<IdSet, NoMemory>
    ensures { IfOk result (AreThose (is_outside count ids.now)) }
{
    let mut outside = IdSet::new(alloc);
    let mut next = 0;
    let list = ids.as_slice();
    for id in list {
        outside.push_run(next, (*id).min(count))?;
        next = id.saturating_add(1);
    }
    outside.push_run(next, count)?;
    Ok(outside)
}

/// The ids below a count that are in one of the two sets.
pub fn union_of(alloc: Global, count: u32, a: &IdSet, b: &IdSet) -> Result<IdSet, NoMemory>
    ensures { IfOk result (AreThose (is_in_either count a.now b.now)) }
{
    let mut ids = IdSet::new(alloc);
    for id in 0..count {
        if !is_in_either(a, b, id) {
            continue;
        }
        ids.push(id)?;
    }
    Ok(ids)
}

fn is_in_either(a: &IdSet, b: &IdSet, id: u32) -> bool
    ensures { result ≡ has_id a.now id || has_id b.now id }
{
    a.contains(id) || b.contains(id)
}

/// The ids that are in both sets.
pub fn intersection_of(alloc: Global, a: &IdSet, b: &IdSet) -> Result<IdSet, NoMemory>
    ensures { IfOk result (AreThose (is_in_both a.now b.now)) }
{
    let mut ids = IdSet::new(alloc);
    let list = a.as_slice();
    for id in list {
        if !b.contains(*id) {
            continue;
        }
        ids.push(*id)?;
    }
    Ok(ids)
}

/// The set of these ids.
pub fn set_of(alloc: Global, mut places: Vec<u32>) -> Result<IdSet, NoMemory>
    ensures { IfOk result (AreThose (has_id places.items)) }
{
    places.sort_unstable();
    let mut ids = IdSet::new(alloc);
    for place in &places {
        if ids.contains(*place) {
            continue;
        }
        ids.push(*place)?;
    }
    Ok(ids)
}
