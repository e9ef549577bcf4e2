//! One field of a record, what stands between two, and what ends a record.
ghost use Rattle.std.specs.Prelude.{◌≡◌, ◌++◌, ◌∷◌, [], ◌&&◌, ◌==◌, OnOk, if◌then◌else◌, length, nat_lt};
ghost use Rattle.std.specs.Fmt.{signed_decimal};
ghost use Rattle.csv.specs.Writing.{default_writer, field_text, needs_byte, needs_quotes, next_sep, quoted};
ghost use Rattle.csv_text.specs.Rows.{end_of};

use itoa::Buffer;
use std::alloc::AllocError;

/// Appends what stands before the field of this number, from 0.
#[inline(always)]
pub(crate) fn separate(at: usize, text: &mut Vec<u8>) -> Result<(), AllocError>
    ensures { OnOk result (text.new.items ≡ text.old.items ++ next_sep default_writer at) }
{
    if at > 0 {
        text.push(b',')?;
    }
    Ok(())
}

/// Appends a number, which wants no quotes.
#[inline(always)]
pub(crate) fn push_number(number: i64, text: &mut Vec<u8>) -> Result<(), AllocError>
    ensures { OnOk result (text.new.items
        ≡ text.old.items ++ field_text default_writer (signed_decimal number)) }
{
    push_digits(number, text)
}

// Appends a number in decimal.
#[inline(always)]
fn push_digits(number: i64, text: &mut Vec<u8>) -> Result<(), AllocError>
    ensures { OnOk result (text.new.items ≡ text.old.items ++ signed_decimal number) }
{
    let mut digits = Buffer::new();
    text.extend_from_slice(digits.format(number).as_bytes())
}

/// Appends some bytes, between quotes where they want some.
pub(crate) fn push_field(bytes: &[u8], text: &mut Vec<u8>) -> Result<(), AllocError>
    ensures { OnOk result (text.new.items
        ≡ text.old.items ++ field_text default_writer bytes.now) }
{
    if wants_quotes(bytes) {
        return push_quoted(bytes, text);
    }
    text.extend_from_slice(bytes)
}

/// Ends a record of so many fields that began at this place: a record that shows no byte shows two
/// quotes.
pub(crate) fn end_record(fields: usize, start: usize, text: &mut Vec<u8>) -> Result<(), AllocError>
    ensures { OnOk result (text.new.items ≡ text.old.items
        ++ end_of (nat_lt fields 2 && (length text.old.items == start))) }
{
    if fields < 2 && text.len() == start {
        text.extend_from_slice(b"\"\"")?;
    }
    text.push(b'\n')?;
    Ok(())
}

// Whether some bytes want quotes.
fn wants_quotes(bytes: &[u8]) -> bool
    ensures { result ≡ needs_quotes default_writer bytes.now }
{
    for byte in bytes {
        if is_special(*byte) {
            return true;
        }
    }
    false
}

// Whether a byte wants quotes around it.
#[inline(always)]
fn is_special(byte: u8) -> bool
    ensures { result ≡ needs_byte default_writer byte }
{
    byte == b',' || byte == b'"' || byte == b'\r' || byte == b'\n'
}

// Appends some bytes between quotes, each quote among them twice.
fn push_quoted(bytes: &[u8], text: &mut Vec<u8>) -> Result<(), AllocError>
    ensures { OnOk result (text.new.items ≡ text.old.items ++ quoted default_writer bytes.now) }
{
    text.push(b'"')?;
    for byte in bytes {
        push_escaped(*byte, text)?;
    }
    text.push(b'"')?;
    Ok(())
}

// Appends a byte, a quote twice.
fn push_escaped(byte: u8, text: &mut Vec<u8>) -> Result<(), AllocError>
    ensures { OnOk result (text.new.items
        ≡ text.old.items ++ (if byte == 34 then 34 ∷ byte ∷ [] else byte ∷ [])) }
{
    if byte == b'"' {
        text.push(b'"')?;
    }
    text.push(byte)?;
    Ok(())
}
