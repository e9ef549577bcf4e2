//! The words of rows: where the key of one is another than that of the word before.

ghost use Rattle.std.specs.Prelude.{◌≡◌, ◌≢◌, ◌-◌, ◌<◌, length, slice_index, true, false};
ghost use Rattle.star_rows.specs.Words.{key_in};

/// There are fewer rows than 2^20; what a word has beyond a multiple of it is the number of its
/// row.
pub const MOST_ROWS: u32 = 1048576;

/// Whether a word has the key of the one before it.
pub fn repeats(words: &[u32], at: usize) -> bool
    requires { at < length words.now }
    ensures same { result ≡ true → (0 < at)
        × (key_in (slice_index words.now (at - 1)) ≡ key_in (slice_index words.now at)) }
    ensures other { result ≡ false → 0 < at
        → key_in (slice_index words.now (at - 1)) ≢ key_in (slice_index words.now at) }
{
    if at == 0 {
        return false;
    }
    words[at - 1] / MOST_ROWS == words[at] / MOST_ROWS
}

/// Whether a word has another key than the one before it.
pub fn changes_key(words: &[u64], at: usize) -> bool
    requires { at < length words.now }
    ensures other { result ≡ true → (0 < at)
        × (key_in (slice_index words.now (at - 1)) ≢ key_in (slice_index words.now at)) }
    ensures same { result ≡ false → 0 < at
        → key_in (slice_index words.now (at - 1)) ≡ key_in (slice_index words.now at) }
{
    if at == 0 {
        return false;
    }
    words[at - 1] / MOST_ROWS as u64 != words[at] / MOST_ROWS as u64
}

/// Whether a wide word has another key than the one before it.
pub fn changes_wide_key(words: &[u128], at: usize) -> bool
    requires { at < length words.now }
    ensures other { result ≡ true → (0 < at)
        × (key_in (slice_index words.now (at - 1)) ≢ key_in (slice_index words.now at)) }
    ensures same { result ≡ false → 0 < at
        → key_in (slice_index words.now (at - 1)) ≡ key_in (slice_index words.now at) }
{
    if at == 0 {
        return false;
    }
    words[at - 1] / MOST_ROWS as u128 != words[at] / MOST_ROWS as u128
}
