//! Masks of ids: a bit for each, 64 of them a word.
ghost use Rattle.std.specs.Prelude.{◌≡◌, ◌<◌, ◌≤◌, ◌*◌, ◌/◌, ◌||◌, ℕ, length, nat_eq, OnOk};
ghost use Rattle.value_ids.specs.Ids.{has_bit, is_within, SameBits};

use std::alloc::AllocError;

/// Whether the bit of an id is set.
#[inline(always)]
pub fn has_bit(mask: &[u64], id: u32) -> bool
    ensures { result ≡ has_bit mask.now id }
{
    match mask.get(id as usize / 64) {
        Some(word) => (*word >> (id % 64)) & 1 == 1,
        None => false,
    }
}

/// Makes the mask long enough for an id.
pub fn make_room(mask: &mut Vec<u64>, id: u32) -> Result<(), AllocError>
    ensures same { SameBits mask.old.items mask.new.items }
    ensures room { OnOk result (id / 64 < length mask.new.items) }
{
    let word = id as usize / 64;
    if word >= mask.len() {
        mask.resize(word + 1, 0)?;
    }
    Ok(())
}

/// Sets the bit of an id.
pub fn set_bit(mask: &mut Vec<u64>, id: u32)
    requires { id / 64 < length mask.old.items }
    ensures { (q : ℕ) → has_bit mask.new.items q ≡ nat_eq q id || has_bit mask.old.items q }
{
    mask[id as usize / 64] |= 1 << (id % 64);
}

/// Sets the bits of the ids from one up to another, whole words at once.
pub fn set_run(mask: &mut [u64], from: u32, to: u32)
    requires order { from ≤ to }
    requires room { to ≤ 64 * length mask.old }
    ensures { (q : ℕ) → has_bit mask.new q ≡ is_within from to q || has_bit mask.old q }
{
    let end = to as usize;
    let mut id = from as usize;
    while id < end {
        let word = &mut mask[id / 64];
        if id % 64 == 0 && id + 64 <= end {
            *word = u64::MAX;
            id += 64;
        } else {
            *word |= 1 << (id % 64);
            id += 1;
        }
    }
}
