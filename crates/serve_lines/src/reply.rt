//! The replies of lines.
ghost use Rattle.std.specs.Prelude.{◌≡◌, IfOk};
ghost use Rattle.serve_lines.specs.Step.{closed_text, opened_text, replaced_text, stepped_text};

use outside::{Bytes, Seq};
use std::alloc::{AllocError, Global};

/// The reply that a cursor was opened over so many segments.
pub(crate) fn opened(alloc: Global, cursor: &str, segments: u32) -> Result<Bytes, AllocError>
    ensures { IfOk result (λ text. text ≡ opened_text cursor.now segments) }
{
    let mut text = b"opened ".to_vec(alloc)?;
    text.extend_from_slice(cursor.as_bytes())?;
    text.extend_from_slice(b", ")?;
    let digits = segments.to_string(alloc)?;
    text.extend_from_slice(digits.as_bytes())?;
    text.extend_from_slice(b" segments\n")?;
    Ok(Seq::from_vec(text))
}

/// The reply that a cursor answered a segment, and has so many left.
pub(crate) fn stepped(alloc: Global, cursor: &str, left: u32) -> Result<Bytes, AllocError>
    ensures { IfOk result (λ text. text ≡ stepped_text cursor.now left) }
{
    let mut text = b"stepped ".to_vec(alloc)?;
    text.extend_from_slice(cursor.as_bytes())?;
    text.extend_from_slice(b", ")?;
    let digits = left.to_string(alloc)?;
    text.extend_from_slice(digits.as_bytes())?;
    text.extend_from_slice(b" left\n")?;
    Ok(Seq::from_vec(text))
}

/// The reply that a cursor was closed.
pub(crate) fn closed(alloc: Global, cursor: &str) -> Result<Bytes, AllocError>
    ensures { IfOk result (λ text. text ≡ closed_text cursor.now) }
{
    let mut text = b"closed ".to_vec(alloc)?;
    text.extend_from_slice(cursor.as_bytes())?;
    text.push(b'\n')?;
    Ok(Seq::from_vec(text))
}

/// The reply that a segment has so many other rows.
pub(crate) fn replaced(alloc: Global, name: &str, rows: usize) -> Result<Bytes, AllocError>
    ensures { IfOk result (λ text. text ≡ replaced_text name.now rows) }
{
    let mut text = b"replaced ".to_vec(alloc)?;
    text.extend_from_slice(name.as_bytes())?;
    text.extend_from_slice(b", ")?;
    let digits = rows.to_string(alloc)?;
    text.extend_from_slice(digits.as_bytes())?;
    text.extend_from_slice(b" rows\n")?;
    Ok(Seq::from_vec(text))
}
