//! Picks that follow one another are coalesced before they are read.

ghost use Rattle.std.specs.Prelude.{◌≡◌, IfOk};
ghost use Rattle.star_walk.specs.Coalescing.{touches, reaching, coalesced};

use crate::NoMemory;
use crate::pick::{Pick, Picks};
use std::alloc::Global;

/// The same picks, each coalesced with the one before it where that ends at its start and has its
/// level.
pub fn coalesced(alloc: Global, picks: &Picks) -> Result<Picks, NoMemory>
    ensures { IfOk result (λ all. all ≡ coalesced picks.now) }
{
    let list = picks.as_slice();
    let mut all = Picks::new(alloc);
    if list.is_empty() {
        return Ok(all);
    }
    let mut held = list[0];
    for i in 1..list.len() {
        let next = list[i];
        if touches(&held, &next) {
            held = reaching(&held, &next);
            continue;
        }
        all.push(held)?;
        held = next;
    }
    all.push(held)?;
    Ok(all)
}

/// Whether a pick ends where the next begins, and both have one level.
fn touches(pick: &Pick, next: &Pick) -> bool
    ensures { result ≡ touches pick.now next.now }
{
    pick.end == next.start && pick.level == next.level
}

/// A pick that goes on to the end of another.
fn reaching(pick: &Pick, next: &Pick) -> Pick
    ensures { result ≡ reaching pick.now next.now }
{
    Pick {
        start: pick.start,
        end: next.end,
        level: pick.level,
    }
}
