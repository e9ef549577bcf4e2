//! Cells are put into a text that has room after its end.
ghost use Rattle.std.specs.Prelude.{◌≡◌, ◌≤◌, ◌<◌, ◌+◌, ◌-◌, ◌++◌, [], ℕ, IfOk, List, drop, get_or, length, take};
ghost use Rattle.csv_text.specs.Cells.{HasCells, IsPut};

use crate::cells::{CHUNK, Cells};
use std::alloc::AllocError;
use std::simd::prelude::*;

// So much room is made after the end of a text at once.
const ROOM: usize = 65_536;

/// Puts a cell at the end of a text, and answers where it ends then.
#[inline(always)]
pub(crate) fn put_cell(
    cells: &Cells,
    id: usize,
    text: &mut Vec<u8>,
    at: usize,
) -> Result<usize, AllocError>
    requires at { at ≤ length text.old.items }
    requires cells { (texts : List (List ℕ)) × HasCells texts cells.now × (id < length texts) }
    ensures { (texts : List (List ℕ)) → HasCells texts cells.now → id < length texts
        → IfOk result (IsPut text.old.items at (get_or texts id []) text.new.items) }
{
    let starts = cells.starts.as_slice();
    put_part(cells.bytes.as_slice(), starts[id], starts[id + 1], text, at)
}

// Puts the bytes between two places, after which there is a chunk more.
#[inline(always)]
fn put_part(
    bytes: &[u8],
    from: usize,
    to: usize,
    text: &mut Vec<u8>,
    at: usize,
) -> Result<usize, AllocError>
    requires order { from ≤ to }
    requires within { to + 16 ≤ length bytes.now }
    requires at { at ≤ length text.old.items }
    ensures { IfOk result (IsPut text.old.items at (take (to - from) (drop from bytes.now))
        text.new.items) }
{
    if to - from > CHUNK || text.len() - at < CHUNK {
        return put_long(&bytes[from..to], text, at);
    }
    put_chunk(bytes, from, to - from, text, at);
    Ok(at + (to - from))
}

// Puts at most a chunk of the bytes from a place on over a chunk of a text: the rest of it is no
// part of the text.
#[inline(always)]
fn put_chunk(bytes: &[u8], from: usize, count: usize, text: &mut [u8], at: usize)
    requires count { count ≤ 16 }
    requires from { from + 16 ≤ length bytes.now }
    requires at { at + 16 ≤ length text.old }
    ensures count { length text.new ≡ length text.old }
    ensures text { take (at + count) text.new
        ≡ take at text.old ++ take count (drop from bytes.now) }
{
    u8x16::from_slice(&bytes[from..]).copy_to_slice(&mut text[at..]);
}

// Puts any bytes at the end of a text, which gets room for more where it has not as much.
#[inline(never)]
fn put_long(bytes: &[u8], text: &mut Vec<u8>, at: usize) -> Result<usize, AllocError>
    requires { at ≤ length text.old.items }
    ensures { IfOk result (IsPut text.old.items at bytes.now text.new.items) }
{
    if text.len() - at >= bytes.len() {
        put_slice(bytes, text, at);
        return Ok(at + bytes.len());
    }
    text.truncate(at);
    text.extend_from_slice(bytes)?;
    let end = text.len();
    text.resize(end + ROOM, 0)?;
    Ok(end)
}

// Puts some bytes over those of a text.
fn put_slice(bytes: &[u8], text: &mut [u8], at: usize)
    requires { at + length bytes.now ≤ length text.old }
    ensures count { length text.new ≡ length text.old }
    ensures text { take (at + length bytes.now) text.new ≡ take at text.old ++ bytes.now }
{
    text[at..at + bytes.len()].copy_from_slice(bytes);
}
