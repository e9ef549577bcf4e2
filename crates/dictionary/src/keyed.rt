//! A text and the number that its first bytes spell.
ghost use Rattle.std.specs.Prelude.{◌≡◌, ◌<◌, ◌^◌, get_or, length, refl, Some, nat_eq};
ghost use Rattle.std.specs.Cmp.Lexicographic.{pointwise, slice_cmp, nat_list_eq_equiv, nat_list_cmp_total, texts_ties, texts_po};
ghost use Rattle.std.specs.Cmp.{partial_equiv_from_equiv};
ghost use Rattle.std.specs.Ordering.{nat_cmp};
ghost use Rattle.dictionary.specs.Keys.{IsKey};

use std::cmp::Ordering;
use std::marker::Model;

// So many bytes are in a key.
const KEY_BYTES: usize = 16;

/// A text with its first sixteen bytes as a number, so that most comparisons look at no text.
#[derive(Debug, Drop)]
pub struct Keyed<'a> {
    key: u128,
    text: &'a [u8],
}

impl<'a> Model for Keyed<'a> {
    ghost use Rattle.std.specs.Prelude.{List, ℕ};
    ghost use Rattle.dictionary.specs.Keys.{IsKey};

    ghost Value = { List ℕ };

    ghost view = { λ k. k.text.now };

    ghost invariant = { λ k. IsKey k.key k.text.now };
}

impl<'a> Keyed<'a> {
    pub fn new(text: &'a [u8]) -> Self
        ensures { result ≡ text.now }
    {
        let key = key_of(text);
        Keyed { key, text }
    }
}

// The byte at a place, or 0 after the end.
#[inline(always)]
fn byte_at(text: &[u8], at: usize) -> u8
    ensures { result ≡ get_or text.now at 0 }
{
    if at < text.len() { text[at] } else { 0 }
}

// The number that the first bytes spell.
#[inline(always)]
fn key_of(text: &[u8]) -> u128
    ensures { IsKey result text.now }
{
    let mut key: u128 = 0;
    'bytes: for i in 0..KEY_BYTES {
        key = key * 256 + byte_at(text, i) as u128;
    }
    key
}

impl PartialEq for Keyed<'_> {
    ghost eq = { λ x y. pointwise nat_eq x y };

    ghost laws = { partial_equiv_from_equiv nat_list_eq_equiv };

    fn eq(&self, other: &Self) -> bool {
        self.text == other.text
    }
}

impl Eq for Keyed<'_> {
    ghost laws = { nat_list_eq_equiv };
}

impl PartialOrd for Keyed<'_> {
    ghost partial_cmp = { λ x y. Some (slice_cmp nat_cmp x y) };

    ghost laws = { texts_po };

    fn partial_cmp(&self, other: &Self) -> Option<Ordering> {
        Some(self.cmp(other))
    }
}

/// By bytes; a proper prefix comes first.
impl Ord for Keyed<'_> {
    ghost cmp = { λ x y. slice_cmp nat_cmp x y };

    ghost total = { nat_list_cmp_total };

    ghost matches_partial_cmp = { λ x y. refl };

    ghost matches_eq = { λ x y. texts_ties x y };

    fn cmp(&self, other: &Self) -> Ordering {
        if self.key < other.key {
            return Ordering::Less;
        }
        if other.key < self.key {
            return Ordering::Greater;
        }
        self.text.cmp(other.text)
    }
}
