//! The pool of one query.

ghost use Rattle.std.specs.Prelude.{◌≡◌, ◌≤◌, ◌^◌, IfOk, length, map};
ghost use Rattle.group_table.specs.QueryPool.{IsPoolFor, Limits};

use agg_laws::Kinds;
use data_types::Seq;
use state_pool::SlotPool;
use std::alloc::Global;
use table_schema::{Agg, BoundQuery};
use values::NoMemory;

/// A pool for the groups of a query, of which there may be so many. Without group columns there is
/// one group, and one slot.
pub fn pool_for(alloc: Global, query: &BoundQuery, most: u32) -> Result<SlotPool, NoMemory>
    requires some { 1 ≤ most }
    requires few { length query.now.aggs ≤ 2 ^ 16 }
    ensures { IfOk result (IsPoolFor query.now most) }
{
    let kinds = kinds_in(alloc, query.aggs.as_slice())?;
    let mut quotas = Seq::new(alloc);
    quotas.push(quota_for(query, most))?;
    SlotPool::with_slots(alloc, &kinds, &quotas)
}

// How many groups there can be.
fn quota_for(query: &BoundQuery, most: u32) -> u32
    requires { 1 ≤ most }
    ensures limits { Limits query.now most result }
    ensures some { 1 ≤ result }
{
    if query.groups.is_empty() {
        return 1;
    }
    most
}

/// The kinds of aggregates.
pub fn kinds_in(alloc: Global, aggs: &[Agg]) -> Result<Kinds, NoMemory>
    ensures { IfOk result (λ kinds. kinds ≡ map (λ agg. agg.kind) aggs.now) }
{
    let mut kinds = Kinds::new(alloc);
    for agg in aggs {
        kinds.push(agg.kind)?;
    }
    Ok(kinds)
}
