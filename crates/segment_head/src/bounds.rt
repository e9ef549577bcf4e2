//! The bounds of columns are written, and read.
ghost use Rattle.std.specs.Prelude.{◌≡◌, ◌≢◌, ◌<◌, ◌^◌, ◌++◌, List, length, IfOk, OnOk, MatchOption};
ghost use Rattle.segment_file.specs.Bounds.{AreBounds, IsBound, NoBound, bounds_bytes, bounds_of};
ghost use Rattle.segment_file.specs.Front.{short};

use crate::NoMemory;
use data_types::{FieldKind, Name};
use dictionary::{Dictionary, is_in_range, number_of};
use segment_file::{Ends, push_ends};
use std::alloc::Global;
use table_schema::Field;
use values::{MOST_TEXT_BYTES, Value};

/// Appends the bounds of columns with these dictionaries; a column without values has none.
pub(crate) fn push_bounds(
    alloc: Global,
    dictionaries: &[Dictionary],
    out: &mut Vec<u8>,
) -> Result<(), NoMemory>
    ensures { OnOk result (out.new.items ≡
        out.old.items ++ bounds_bytes (bounds_of dictionaries.now)) }
{
    for dictionary in dictionaries {
        push_ends(alloc, dictionary, out)?;
    }
    Ok(())
}

/// The bounds of these fields that the bytes are, if they are.
pub(crate) fn read_bounds(
    alloc: Global,
    fields: &[Field],
    bytes: &[u8],
) -> Result<Option<Vec<Ends>>, NoMemory>
    ensures { IfOk result (λ read. MatchOption read
        ((bounds : List Ends) → ¬ AreBounds fields.now bytes.now bounds)
        (λ bounds. AreBounds fields.now bytes.now bounds.items)) }
{
    let mut bounds = Vec::with_capacity(alloc, fields.len())?;
    let mut rest = bytes;
    for field in fields {
        let Some((least, following)) = read_bound(alloc, field.kind, rest)? else {
            return Ok(None);
        };
        let Some((greatest, after)) = read_bound(alloc, field.kind, following)? else {
            return Ok(None);
        };
        bounds.push(Ends { least, greatest })?;
        rest = after;
    }
    if rest.is_empty() {
        Ok(Some(bounds))
    } else {
        Ok(None)
    }
}

// The value of the kind at the front, and the bytes after it.
fn read_bound(
    alloc: Global,
    kind: FieldKind,
    bytes: &[u8],
) -> Result<Option<(Value, &[u8])>, NoMemory>
    ensures { IfOk result (λ read. MatchOption read
        (NoBound kind bytes.now)
        (λ p. IsBound kind bytes.now p.0 p.1.now)) }
{
    match kind {
        FieldKind::Int | FieldKind::Long => Ok(read_number(kind, bytes)),
        FieldKind::Text => {
            let Some((text, rest)) = split_text(bytes) else {
                return Ok(None);
            };
            Ok(Some((Value::Text(Name::from_text(alloc, text)?), rest)))
        }
    }
}

fn read_number(kind: FieldKind, bytes: &[u8]) -> Option<(Value, &[u8])>
    requires { kind ≢ FieldKind.Text }
    ensures { MatchOption result
        (NoBound kind bytes.now)
        (λ p. IsBound kind bytes.now p.0 p.1.now) }
{
    let (number, rest) = bytes.split_first_chunk::<8>()?;
    let number = number_of(number);
    if is_in_range(kind, number) {
        Some((Value::Whole(number), rest))
    } else {
        None
    }
}

// The text after its length at the front, and the bytes after it.
fn split_text(bytes: &[u8]) -> Option<(&str, &[u8])>
    ensures { MatchOption result
        (NoBound FieldKind.Text bytes.now)
        (λ p. IsBound FieldKind.Text bytes.now (Value.Text p.0.now) p.1.now) }
{
    let (length, rest) = split_short(bytes)?;
    if length > MOST_TEXT_BYTES {
        return None;
    }
    let (text, following) = rest.split_at_checked(length)?;
    let Ok(text) = str::from_utf8(text) else {
        return None;
    };
    Some((text, following))
}

// The number that two bytes at the front spell, and the bytes after them.
fn split_short(bytes: &[u8]) -> Option<(usize, &[u8])>
    ensures { MatchOption result
        (length bytes.now < 2)
        (λ p. (p.0 < 2 ^ 16) × (bytes.now ≡ short p.0 ++ p.1.now)) }
{
    let (number, rest) = bytes.split_first_chunk::<2>()?;
    Some((u16::from_be_bytes(*number) as usize, rest))
}
