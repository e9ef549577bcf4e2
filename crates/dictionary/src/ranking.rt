//! The ranks of values: of each its place among the distinct ones, in ascending order.
ghost use Rattle.std.specs.Prelude.{◌≡◌, ◌≤◌, ◌<◌, ◌^◌, ◌↔◌, [], length, pos, IfOk, IsTrue};
ghost use Rattle.std.specs.Cmp.Lexicographic.{slice_cmp};
ghost use Rattle.std.specs.Ordering.{int_cmp, nat_cmp};
ghost use Rattle.std.specs.declared.cmp.Ordering.TheVariants.{Equal};
ghost use Rattle.dictionary.specs.Ranking.{AreNumbered, AreRanks, IsAgain, Ranks, values_of};

use crate::keyed::Keyed;
use data_types::TextPool;
use std::alloc::{AllocError, Global};

/// Values in ascending order, by the places that they have in a list.
#[derive(Drop)]
pub struct Ranking {
    /// For each distinct value a place that has it, the least value first.
    pub order: Vec<u32>,
    /// For each value its place among the distinct ones.
    pub ranks: Vec<u32>,
}

/// The ranks of texts.
pub fn rank_texts(alloc: Global, texts: &TextPool) -> Result<Ranking, AllocError>
    ensures { IfOk result (λ r.
        AreRanks (slice_cmp nat_cmp) [] texts.now r.order.items r.ranks.items) }
{
    rank_items(alloc, keyed_texts(alloc, texts)?)
}

// The texts with their places.
fn keyed_texts<'a>(alloc: Global, texts: &'a TextPool) -> Result<Vec<(Keyed<'a>, u32)>, AllocError>
    ensures few { IfOk result (λ items. length items.items ≤ 2 ^ 32) }
    ensures numbered { IfOk result (λ items. AreNumbered items.items) }
    ensures values { IfOk result (λ items. values_of items.items ≡ texts.now) }
{
    let mut items = Vec::with_capacity(alloc, texts.len())?;
    'texts: for at in 0..texts.len() {
        let Some(text) = texts.get(at) else {
            unreachable!()
        };
        let Ok(place) = u32::try_from(at) else {
            return Err(AllocError);
        };
        items.push((Keyed::new(text), place))?;
    }
    Ok(items)
}

/// The ranks of numbers.
pub fn rank_numbers(alloc: Global, numbers: &[i64]) -> Result<Ranking, AllocError>
    ensures { IfOk result (λ r.
        AreRanks int_cmp (pos 0) numbers.now r.order.items r.ranks.items) }
{
    rank_items(alloc, placed_numbers(alloc, numbers)?)
}

// The numbers with their places.
fn placed_numbers(alloc: Global, numbers: &[i64]) -> Result<Vec<(i64, u32)>, AllocError>
    ensures few { IfOk result (λ items. length items.items ≤ 2 ^ 32) }
    ensures numbered { IfOk result (λ items. AreNumbered items.items) }
    ensures values { IfOk result (λ items. values_of items.items ≡ numbers.now) }
{
    let mut items = Vec::with_capacity(alloc, numbers.len())?;
    'numbers: for at in 0..numbers.len() {
        let Ok(place) = u32::try_from(at) else {
            return Err(AllocError);
        };
        items.push((numbers[at], place))?;
    }
    Ok(items)
}

// The ranks of values, each of which comes with its place.
fn rank_items<T: Ord + Drop>(alloc: Global, mut items: Vec<(T, u32)>) -> Result<Ranking, AllocError>
    requires few { length items.items ≤ 2 ^ 32 }
    requires numbered { AreNumbered items.items }
    requires exact { (a : T) (b : T) → T.cmp a b ≡ Equal → a ≡ b }
    ensures { IfOk result (λ r. (d : T) →
        AreRanks T.cmp d (values_of items.items) r.order.items r.ranks.items) }
{
    items.sort_unstable();
    let mut order = Vec::with_capacity(alloc, items.len())?;
    let mut ranks = zeros(alloc, items.len())?;
    'items: for i in 0..items.len() {
        let rank = rank_at(&items, i, &mut order)?;
        ranks[items[i].1 as usize] = rank;
    }
    Ok(Ranking { order, ranks })
}

/// So many zeros.
pub fn zeros(alloc: Global, count: usize) -> Result<Vec<u32>, AllocError>
    ensures { IfOk result (λ zeros. length zeros.items ≡ count) }
{
    vec![in alloc; 0; count]
}

// The rank of the item at a place, where those before it were given theirs.
#[inline(always)]
fn rank_at<T: Ord>(items: &[(T, u32)], i: usize, order: &mut Vec<u32>) -> Result<u32, AllocError>
    requires within { i < length items.now }
    requires few { length items.now ≤ 2 ^ 32 }
    requires short { length order.old.items ≤ i }
    requires some { 0 < i → 0 < length order.old.items }
    ensures { IfOk result (λ rank. (d : T) →
        Ranks T.cmp d items.now order.old.items order.new.items i rank) }
{
    if is_again(items, i) {
        return Ok((order.len() - 1) as u32);
    }
    let rank = order.len() as u32;
    order.push(items[i].1)?;
    Ok(rank)
}

// Whether the item has the value of the one before it.
#[inline(always)]
fn is_again<T: Ord>(items: &[(T, u32)], i: usize) -> bool
    requires { i < length items.now }
    ensures later { IsTrue result → 0 < i }
    ensures again { (d : T) → IsTrue result ↔ IsAgain T.cmp d items.now i }
{
    if i == 0 {
        return false;
    }
    are_equal(&items[i - 1].0, &items[i].0)
}

#[inline(always)]
fn are_equal<T: Ord>(a: &T, b: &T) -> bool
    ensures { IsTrue result ↔ T.cmp a.now b.now ≡ Equal }
{
    a.cmp(b).is_eq()
}
