//! Numbers among bytes.
ghost use Rattle.std.specs.Prelude.{◌≡◌, ◌≤◌, ◌<◌, ◌+◌, ◌-◌, ◌⊎◌, ◌^◌, true, MatchOption, length};
ghost use Rattle.data_types.specs.Numbers.{is_in_range};
ghost use Rattle.dictionary.specs.Spelling.{counted, number_bytes};
ghost use Rattle.values.specs.declared.value.Value.TheVariants as value;
ghost use Rattle.dictionary_reading.specs.InFile.{part};

use data_types::FieldKind;
use dictionary::number_of;

/// The number that four bytes spell.
pub fn four_at(bytes: &[u8], at: usize) -> u32
    requires { at + 4 ≤ length bytes.now }
    ensures spelled { counted result ≡ part at 4 bytes.now }
    ensures within { result < 2 ^ 32 }
{
    match bytes[at..].split_first_chunk::<4>() {
        Some((number, _)) => u32::from_be_bytes(*number),
        None => unreachable!(),
    }
}

/// The number that eight bytes spell.
pub fn eight_at(bytes: &[u8], at: usize) -> i64
    requires { at + 8 ≤ length bytes.now }
    ensures spelled { number_bytes (value.Whole result) ≡ part at 8 bytes.now }
    ensures within { is_in_range FieldKind.Long result ≡ true }
{
    match bytes[at..].split_first_chunk::<8>() {
        Some((number, _)) => number_of(number),
        None => unreachable!(),
    }
}

/// The bytes between two places, the first of which is counted from `base`.
pub fn between(bytes: &[u8], base: u32, start: u32, end: u32) -> Option<&[u8]>
    ensures { MatchOption result
        ((start < base) ⊎ (end < start) ⊎ (length bytes.now + base < end))
        (λ part_is. (base ≤ start) × (start ≤ end) × (end ≤ length bytes.now + base) ×
        (part_is.now ≡ part (start - base) (end - start) bytes.now)) }
{
    let from = start.checked_sub(base)? as usize;
    let count = end.checked_sub(start)? as usize;
    let (_, rest) = bytes.split_at_checked(from)?;
    let (found, _) = rest.split_at_checked(count)?;
    Some(found)
}
