//! A pool of slots with the quotas 2 and 1.

ghost use Rattle.std.specs.Prelude.{◌≡◌, ◌<◌, ◌∷◌, [], IfOk, length};
ghost use Rattle.agg_laws.specs.declared.aggregate_kind.AggKind.TheVariants as kind;
ghost use Rattle.state_pool.specs.Pool.{Place, IsNew, IsOut};

use crate::aggregates::sums_and_counts;
use crate::expect::Expectations;
use data_types::Seq;
use state_pool::SlotPool;
use std::alloc::{AllocError, Global};

// A pool of two owners, of which one may hold two slots and the other one.
fn pool_of_two(alloc: Global) -> Result<SlotPool, AllocError>
    ensures { IfOk result (IsNew (kind.Sum ∷ kind.Count ∷ []) (2 ∷ 1 ∷ [])) }
{
    let kinds = sums_and_counts(alloc)?;
    let mut quotas = Seq::new(alloc);
    quotas.push(2)?;
    quotas.push(1)?;
    SlotPool::with_slots(alloc, &kinds, &quotas)
}

// Whether an owner takes a slot, which it keeps. Slots that were out still are.
fn takes(pool: &mut SlotPool, owner: u16) -> bool
    requires { owner < length pool.old.quotas }
    ensures quotas { pool.new.quotas ≡ pool.old.quotas }
    ensures still { (slot : Place) → IsOut pool.old slot → IsOut pool.new slot }
{
    match pool.take(owner) {
        Some(slot) => {
            drop(slot);
            true
        }
        None => false,
    }
}

fn expect_quotas(pool: &mut SlotPool, all: &Expectations)
    requires { length pool.old.quotas ≡ 2 }
{
    let Some(slot) = pool.take(1) else {
        all.expect(false, "owner 1 takes one slot");
        return;
    };
    all.expect(!takes(pool, 1), "then owner 1 has none");
    all.expect(takes(pool, 0), "owner 0 takes one slot");
    all.expect(takes(pool, 0), "owner 0 takes another");
    all.expect(!takes(pool, 0), "then owner 0 has none");
    pool.give_back(slot);
    all.expect(takes(pool, 1), "owner 1 takes a slot that it gave back");
}

pub fn slots_of_owners(alloc: Global, all: &Expectations) {
    if let Ok(mut pool) = pool_of_two(alloc) {
        expect_quotas(&mut pool, all);
        drop(pool);
    }
    all.end("slots of owners");
}
