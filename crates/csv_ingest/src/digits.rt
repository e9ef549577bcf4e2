//! Whole numbers between two places of a text, eight digits at a time.
ghost use Rattle.std.specs.Prelude.{◌≡◌, ◌≤◌, ◌<◌, ◌+◌, ◌-◌, ◌%◌, ◌^◌, ◌++◌, Some, Ok, true, false, pos, length, map, replicate, take, drop, get_or, IfSome};
ghost use Rattle.std.specs.List.{All};
ghost use Rattle.data_types.specs.Numbers.{negative, place_value, range_of, unsigned_number, whole_of};

use data_types::FieldKind;
use std::simd::prelude::*;

// So many bytes are looked at together.
const LANES: usize = 8;

// The least number that takes more digits than these.
const PAST_LANES: u64 = 100_000_000;

/// The whole number of a kind that the bytes of a text between two places spell, if they are a `-`
/// or none and sixteen digits or fewer.
#[inline(always)]
pub fn whole_between(kind: FieldKind, text: &[u8], start: usize, end: usize) -> Option<i64>
    requires ordered { start ≤ end }
    requires within { end ≤ length text.now }
    ensures { IfSome result (λ number.
        whole_of kind (take (end - start) (drop start text.now)) ≡ Ok number) }
{
    let minus = has_minus(text, start, end);
    let magnitude = digits_between(text, start + minus as usize, end)?;
    if !is_in_range(kind, magnitude) {
        return None;
    }
    Some(signed(minus, magnitude))
}

// Whether the bytes of a text between two places begin with a `-`.
#[inline(always)]
fn has_minus(text: &[u8], start: usize, end: usize) -> bool
    requires within { end ≤ length text.now }
    ensures { result ≡ true → (start < end) × (get_or text.now start 0 ≡ 45) }
{
    start < end && text[start] == b'-'
}

// Whether a number of few digits is one of the kind, with either sign.
#[inline(always)]
fn is_in_range(kind: FieldKind, magnitude: u64) -> bool
    requires { magnitude < 10 ^ 16 }
    ensures { result ≡ true → magnitude < range_of kind }
{
    match kind {
        FieldKind::Int => magnitude < 1 << 31,
        _ => true,
    }
}

// A number of few digits with its sign.
#[inline(always)]
fn signed(minus: bool, magnitude: u64) -> i64
    requires { magnitude < 10 ^ 16 }
    ensures plus { minus ≡ false → result ≡ pos magnitude }
    ensures minus { minus ≡ true → result ≡ negative magnitude }
{
    if minus {
        -(magnitude as i64)
    } else {
        magnitude as i64
    }
}

// The number that the bytes of a text between two places spell, if they are sixteen digits or
// fewer.
#[inline(always)]
fn digits_between(text: &[u8], start: usize, end: usize) -> Option<u64>
    requires within { end ≤ length text.now }
    ensures spells { IfSome result (λ number.
        unsigned_number (take (end - start) (drop start text.now)) ≡ Some number) }
    ensures small { IfSome result (λ number. number < 10 ^ 16) }
{
    if end.saturating_sub(start) <= LANES {
        return Some(few_digits(text, start, end)? as u64);
    }
    let low = few_digits(text, end - LANES, end)?;
    let high = few_digits(text, start, end - LANES)?;
    Some(high as u64 * PAST_LANES + low as u64)
}

// The same of eight digits or fewer.
#[inline(always)]
fn few_digits(text: &[u8], start: usize, end: usize) -> Option<u32>
    requires within { end ≤ length text.now }
    ensures spells { IfSome result (λ number.
        unsigned_number (take (end - start) (drop start text.now)) ≡ Some number) }
    ensures small { IfSome result (λ number. number < 10 ^ 8) }
{
    let len = end.saturating_sub(start);
    if len == 0 || len > LANES || end < LANES {
        return None;
    }
    let digits = digits_before(text, end, len);
    if !are_digits(digits) {
        return None;
    }
    Some(spelled(digits))
}

// What so many bytes before a place count as digits, after zeros; more than 9 where one is none.
#[inline(always)]
fn digits_before(text: &[u8], end: usize, len: usize) -> u8x8
    requires len { len ≤ 8 }
    requires some { 8 ≤ end }
    requires within { end ≤ length text.now }
    ensures { result ≡ replicate (8 - len) 0
        ++ map (λ byte. (byte + 208) % 256) (take len (drop (end - len) text.now)) }
{
    let counts = u8x8::from_slice(&text[end - LANES..]) - u8x8::splat(b'0');
    u8x8::from_array([0, 1, 2, 3, 4, 5, 6, 7])
        .simd_ge(u8x8::splat((LANES - len) as u8))
        .select(counts, u8x8::splat(0))
}

// Whether each lane is what a digit counts.
#[inline(always)]
fn are_digits(digits: u8x8) -> bool
    ensures { result ≡ true → All (λ digit. digit ≤ 9) digits }
{
    digits.simd_gt(u8x8::splat(9)).to_bitmask() == 0
}

// The number that digits spell.
#[inline(always)]
fn spelled(digits: u8x8) -> u32
    requires width { length digits ≡ 8 }
    requires digits { All (λ digit. digit ≤ 9) digits }
    ensures spells { result ≡ place_value (map (λ digit. digit + 48) digits) }
    ensures small { result < 10 ^ 8 }
{
    digits
        .cast::<u32>()
        .strict_mul(u32x8::from_array([10_000_000, 1_000_000, 100_000, 10_000, 1_000, 100, 10, 1]))
        .strict_reduce_sum()
}
