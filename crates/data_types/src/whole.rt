//! Whole numbers read from texts.

ghost use Rattle.std.specs.Prelude.{◌≡◌, ◌-◌, ◌<◌, ◌≤◌, true, false, length};
ghost use Rattle.std.specs.List.{list_all};
ghost use Rattle.data_types.specs.Numbers.{whole_of, is_digit};
ghost use Rattle.data_types.specs.Magnitude.{magnitude_of, refusal_of, signed_of};

use crate::FieldKind;

/// Why a text is no whole number of a field.
#[derive(Clone, Copy, Debug, PartialEq, Eq)]
pub enum WholeFault {
    NotANumber,
    OutOfRange,
}

/// So many digits spell a number within every range of 64 bits.
const FEW_DIGITS: usize = 18;

/// The most that can stand before one more digit, so that the number fits in 64 bits and is at
/// most one above the greatest distance from 0 of a signed 64-bit number.
const MOST_BEFORE_A_DIGIT: u64 = 922337203685477580;

/// The whole number that a text spells in ASCII: an optional `+` or `-` and one digit or more.
///
/// `Int` takes signed 32-bit numbers, and each other kind signed 64-bit ones. No memory is taken.
#[inline(always)]
pub fn read_whole(kind: FieldKind, text: &[u8]) -> Result<i64, WholeFault>
    ensures { result ≡ whole_of kind text.now }
{
    let (minus, digits) = match text {
        [b'-', digits @ ..] => (true, digits),
        [b'+', digits @ ..] => (false, digits),
        _ => (false, text),
    };
    let magnitude = read_magnitude(digits)?;
    signed(kind, minus, magnitude)
}

#[inline(always)]
fn read_magnitude(digits: &[u8]) -> Result<u64, WholeFault>
    ensures { result ≡ magnitude_of digits.now }
{
    if digits.is_empty() {
        return Err(WholeFault::NotANumber);
    }
    if digits.len() <= FEW_DIGITS {
        return read_few(digits);
    }
    read_many(digits)
}

/// The same of few digits, which need no look at the number between them.
#[inline(always)]
fn read_few(digits: &[u8]) -> Result<u64, WholeFault>
    requires some { 0 < length digits.now }
    requires at_most { length digits.now ≤ 18 }
    ensures { result ≡ magnitude_of digits.now }
{
    let mut number: u64 = 0;
    for byte in digits {
        let digit = digit_of(*byte);
        if digit > 9 {
            return Err(refusal(digits));
        }
        number = number * 10 + digit as u64;
    }
    Ok(number)
}

#[inline(never)]
fn read_many(digits: &[u8]) -> Result<u64, WholeFault>
    requires { 0 < length digits.now }
    ensures { result ≡ magnitude_of digits.now }
{
    let mut number: u64 = 0;
    for byte in digits {
        let digit = digit_of(*byte);
        if digit > 9 || number > MOST_BEFORE_A_DIGIT {
            return Err(refusal(digits));
        }
        number = number * 10 + digit as u64;
    }
    Ok(number)
}

/// What a digit counts; more than 9 for any other byte.
#[inline(always)]
fn digit_of(byte: u8) -> u8
    ensures digit { result ≤ 9 → (is_digit byte ≡ true) × (result ≡ byte - 48) }
    ensures other { 9 < result → is_digit byte ≡ false }
{
    byte.wrapping_sub(b'0')
}

fn is_digit(byte: u8) -> bool
    ensures { result ≡ is_digit byte }
{
    b'0' <= byte && byte <= b'9'
}

fn all_digits(bytes: &[u8]) -> bool
    ensures { result ≡ list_all is_digit bytes.now }
{
    bytes.iter().all(|byte| is_digit(*byte))
}

/// The fault of a text that is not made of digits, or of digits that spell too large a number.
#[cold]
fn refusal(digits: &[u8]) -> WholeFault
    ensures { result ≡ refusal_of digits.now }
{
    if all_digits(digits) {
        WholeFault::OutOfRange
    } else {
        WholeFault::NotANumber
    }
}

#[inline(always)]
fn signed(kind: FieldKind, minus: bool, magnitude: u64) -> Result<i64, WholeFault>
    ensures { result ≡ signed_of kind minus magnitude }
{
    let range = match kind {
        FieldKind::Int => 1 << 31,
        _ => 1 << 63,
    };
    if !minus && magnitude < range {
        return Ok(magnitude as i64);
    }
    if minus && magnitude == 0 {
        return Ok(0);
    }
    if minus && magnitude <= range {
        return Ok(-1 - (magnitude - 1) as i64);
    }
    Err(WholeFault::OutOfRange)
}
