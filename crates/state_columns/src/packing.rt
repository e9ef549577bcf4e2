//! Combinations of ids packed in words, which are ordered as numbers.

ghost use Rattle.std.specs.Prelude.{◌≡◌, Some, map, IfOk};
ghost use Rattle.std.specs.Option.{IfSome};
ghost use Rattle.agg_laws.specs.Tree.{set_star};
ghost use Rattle.state_columns.specs.Packing.{pack, place, AreWithin};

use crate::starred_ids::starred_id;
use agg_laws::NoMemory;
use std::alloc::Global;

/// What the ids of a dimension lie within: the least, and how far above it the greatest is.
#[derive(Clone, Copy)]
pub struct Span {
    pub least: u32,
    pub above: u32,
}

/// A combination with one dimension starred, packed in a number, where it lies within the spans and
/// the number stays small.
pub fn packed(ids: &[u32], spans: &[Span], level: usize) -> Option<u64>
    ensures { IfSome result (λ key. AreWithin spans.now (set_star level ids.now)
        × (key ≡ pack 0 spans.now (set_star level ids.now))) }
{
    if ids.len() != spans.len() {
        return None;
    }
    let mut key: u64 = 0;
    for at in 0..ids.len() {
        let id = starred_id(ids, at, level);
        let span = spans[at];
        if id < span.least || id - span.least > span.above || key >= 2147483648 {
            return None;
        }
        key = key * (span.above as u64 + 1) + (id - span.least) as u64;
    }
    Some(key)
}

/// The numbers of documents whose places in a range are the low bits of some words.
pub fn places(alloc: Global, words: &[u64], start: u32) -> Result<Vec<u32>, NoMemory>
    ensures { IfOk result (λ order. order.items ≡ map (place start) words.now) }
{
    let mut order: Vec<u32> = Vec::with_capacity(alloc, words.len())?;
    for word in words {
        order.push(start.wrapping_add((*word % 1048576) as u32))?;
    }
    Ok(order)
}
