//! How many rows each key has.

ghost use Rattle.std.specs.Prelude.{◌≡◌, ◌≢◌, ◌<◌, ◌+◌, ◌^◌, ◌==◌, ◌∷◌, [], ℕ, count_by, get_or, length};
ghost use Rattle.value_ids.specs.Coding.{AreBelow};

/// Adds to the count of each key how many of the rows have it.
pub fn count_keys(keys: &[u32], counts: &mut [u32])
    requires below { AreBelow (length counts.old) keys.now }
    requires fits { (key : ℕ) → get_or counts.old key 0 + length keys.now < 2 ^ 32 }
    ensures { (key : ℕ) → get_or counts.new key 0
        ≡ get_or counts.old key 0 + count_by (λ k. k == key) keys.now }
{
    if counts.len() == 1 {
        // No row is looked at.
        count_more(counts, keys.len() as u32);
        return;
    }
    for at in 0..keys.len() {
        count_one(counts, keys[at] as usize);
    }
}

// Adds so many to the first count.
fn count_more(counts: &mut [u32], many: u32)
    requires some { 0 < length counts.old }
    requires fits { get_or counts.old 0 0 + many < 2 ^ 32 }
    ensures own { get_or counts.new 0 0 ≡ get_or counts.old 0 0 + many }
    ensures others { (other : ℕ) → other ≢ 0 → get_or counts.new other 0
        ≡ get_or counts.old other 0 }
{
    counts[0] += many;
}

// Adds one to the count of a key.
#[inline(always)]
fn count_one(counts: &mut [u32], key: usize)
    requires key { key < length counts.old }
    requires fits { get_or counts.old key 0 + 1 < 2 ^ 32 }
    ensures { (other : ℕ) → get_or counts.new other 0
        ≡ get_or counts.old other 0 + count_by (λ k. k == other) (key ∷ []) }
{
    counts[key] += 1;
}
