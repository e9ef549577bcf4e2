//! Where the group of a key may be found: a guess, made of the ids of the key.

use std::alloc::Global;
use std::mem::replace;
use values::NoMemory;

// A free slot. Any other has the place of a group in its lower half, and in its upper half the hash
// of ids that its key had.
const FREE: u64 = u64::MAX;

// How many slots are looked at, from that of the hash on.
const MOST_PROBES: usize = 8;

// How many slots there are at first, and how often they may be made twice as many.
const FEWEST_SLOTS: usize = 64;

const MOST_DOUBLINGS: usize = 14;

/// Makes room for the places of so many groups. Those that are noted stay.
pub(crate) fn make_room(
    alloc: Global,
    slots: &mut Vec<u64>,
    groups: usize,
) -> Result<(), NoMemory> {
    let size = size_for(slots.len().max(FEWEST_SLOTS), groups);
    if size == slots.len() {
        return Ok(());
    }
    let wider = vec![in alloc; FREE; size]?;
    let noted = replace(slots, wider);
    for slot in &noted {
        if *slot != FREE {
            put(slots, *slot);
        }
    }
    Ok(())
}

// So many slots, doubled until there is one for each group or they are the most.
fn size_for(size: usize, groups: usize) -> usize {
    let mut size = size;
    for _ in 0..MOST_DOUBLINGS {
        if size < groups {
            size = size.saturating_mul(2);
        }
    }
    size
}

/// The hash of the ids of a key. Any number will do: it is only where the search begins.
#[inline(always)]
pub(crate) fn hash_of(ids: &[u32]) -> u64 {
    let mut hash: u64 = 0;
    for id in ids {
        let spread = (hash ^ u64::from(*id)).wrapping_mul(0x9E37_79B9_7F4A_7C15);
        hash = spread ^ (spread >> 32);
    }
    hash >> 32
}

/// The place that was noted last for ids of this hash. What is at it is to be compared.
#[inline(always)]
pub(crate) fn guess(slots: &[u64], hash: u64) -> Option<u32> {
    let size = slots.len();
    if size == 0 {
        return None;
    }
    let mut at = hash as usize & (size - 1);
    for _ in 0..MOST_PROBES {
        let Some(slot) = slots.get(at) else {
            return None;
        };
        if *slot >> 32 == hash {
            return Some((*slot & 0xFFFF_FFFF) as u32);
        }
        if *slot == FREE {
            return None;
        }
        at = at.wrapping_add(1) & (size - 1);
    }
    None
}

/// Notes the place of a group for ids of this hash.
pub(crate) fn note(slots: &mut [u64], hash: u64, place: u32) {
    put(slots, (hash << 32) | u64::from(place));
}

// Puts a content where the hash is that of another, else into a free slot, else into the last that
// is looked at.
fn put(slots: &mut [u64], content: u64) {
    let size = slots.len();
    if size == 0 {
        return;
    }
    let hash = content >> 32;
    let mut at = hash as usize & (size - 1);
    for _ in 1..MOST_PROBES {
        let Some(slot) = slots.get(at) else {
            return;
        };
        if *slot == FREE || *slot >> 32 == hash {
            break;
        }
        at = at.wrapping_add(1) & (size - 1);
    }
    if let Some(slot) = slots.get_mut(at) {
        *slot = content;
    }
}
