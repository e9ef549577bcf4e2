//! The separators of a text, 64 bytes at a time.
ghost use Rattle.std.specs.Prelude.{◌≡◌, ◌≤◌, ◌<◌, ◌+◌, ◌^◌, ◌++◌, ◌∷◌, [], length, map, take, drop, OnOk};
ghost use Rattle.std.specs.Simd.Lanes.{mask_l};
ghost use Rattle.csv_ingest.specs.Places.{is_separator, places};

use std::alloc::AllocError;
use std::simd::prelude::*;

// So many bytes are looked at together.
const LANES: usize = 64;

/// Appends the places of the separators of a text.
pub fn push_separators(text: &[u8], out: &mut Vec<u32>) -> Result<(), AllocError>
    requires { length text.now < 2 ^ 32 }
    ensures { OnOk result (out.new.items ≡ out.old.items ++ places is_separator 0 text.now) }
{
    let count = text.len() / LANES;
    'parts: for i in 0..count {
        push_block(text, i * LANES, out)?;
    }
    'bytes: for at in count * LANES..text.len() {
        push_byte(text[at], at as u32, out)?;
    }
    Ok(())
}

// A bit for each of the next 64 bytes, which is set where the byte is a separator.
#[inline(always)]
fn mask_at(text: &[u8], at: usize) -> u64
    requires { at + 64 ≤ length text.now }
    ensures { result ≡ mask_l (map is_separator (take 64 (drop at text.now))) }
{
    let lanes = u8x64::from_slice(&text[at..]);
    let marks = lanes.simd_eq(u8x64::splat(b','))
        | lanes.simd_eq(u8x64::splat(b'\n'))
        | lanes.simd_eq(u8x64::splat(b'\r'))
        | lanes.simd_eq(u8x64::splat(b'"'));
    marks.to_bitmask()
}

// Appends the places of the separators among the next 64 bytes.
#[inline(always)]
fn push_block(text: &[u8], at: usize, out: &mut Vec<u32>) -> Result<(), AllocError>
    requires few { length text.now < 2 ^ 32 }
    requires within { at + 64 ≤ length text.now }
    ensures { OnOk result (out.new.items
        ≡ out.old.items ++ places is_separator at (take 64 (drop at text.now))) }
{
    let first = at as u32;
    let mut left = mask_at(text, at);
    'bits: while left != 0 {
        out.push(first + left.trailing_zeros())?;
        left = left & (left - 1);
    }
    Ok(())
}

fn is_separator(byte: u8) -> bool
    ensures { result ≡ is_separator byte }
{
    byte == b',' || byte == b'\n' || byte == b'\r' || byte == b'"'
}

// Appends the place of a byte, if it is a separator.
fn push_byte(byte: u8, at: u32, out: &mut Vec<u32>) -> Result<(), AllocError>
    ensures { OnOk result (out.new.items
        ≡ out.old.items ++ places is_separator at (byte ∷ [])) }
{
    if is_separator(byte) {
        return Ok(out.push(at)?);
    }
    Ok(())
}
