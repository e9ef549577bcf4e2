//! Ids are written.
ghost use Rattle.std.specs.Prelude.{◌≡◌, ◌≤◌, ◌<◌, ◌+◌, ◌^◌, ◌++◌, ℕ, All, length, take, replicate, OnOk, IfOk};
ghost use Rattle.bit_column.specs.Bits.{bits, bits_of};
ghost use Rattle.bit_column.specs.Column.{Appends, spelled};

use crate::Width;
use crate::bits::{joined, last_byte, whole_byte};
use outside::NoMemory;

/// Appends ids, each in so many bits with the most significant first, and zero bits to the end of
/// the last byte.
pub fn write(ids: &[u32], width: u32, out: &mut Vec<u8>) -> Result<(), NoMemory>
    requires width { 1 ≤ width }
    requires bound { width ≤ 32 }
    requires ids { All (λ id. id < 2 ^ width) ids.now }
    ensures { Appends result (spelled width ids.now) out.old.items out.new.items }
{
    let start = out.len();
    if let Err(fault) = push_ids(ids, Width { bits: width }, out) {
        out.truncate(start);
        return Err(fault);
    }
    Ok(())
}

// Appends ids and the zero bits. After want of memory some bytes are there.
fn push_ids(ids: &[u32], width: Width, out: &mut Vec<u8>) -> Result<(), NoMemory>
    requires { All (λ id. id < 2 ^ width.bits) ids.now }
    ensures bits { OnOk result ((zeros : ℕ) × (zeros < 8) × (bits_of 8 out.new.items
        ≡ bits_of 8 out.old.items ++ (bits_of width.bits ids.now ++ replicate zeros 0))) }
    ensures kept { take (length out.old.items) out.new.items ≡ out.old.items }
{
    out.reserve(ids.len().saturating_mul(width.bits as usize).div_ceil(8))?;
    let mut window = 0;
    let mut have = 0;
    for id in ids {
        window = joined(window, have, *id, width);
        match push_word(window, have + width.bits, out) {
            Ok(left) => have = left,
            Err(fault) => return Err(fault),
        }
    }
    let left = push_bytes(window, have, out)?;
    if left > 0 {
        out.push(last_byte(window, left))?;
    }
    Ok(())
}

// Appends four whole bytes of the window, if it has as many, and says how many bits are left.
#[inline(always)]
fn push_word(window: u64, have: u32, out: &mut Vec<u8>) -> Result<u32, NoMemory>
    requires { have < 64 }
    ensures left { IfOk result (λ left. left < 32) }
    ensures bits { IfOk result (λ left. bits_of 8 out.new.items ++ bits left window
        ≡ bits_of 8 out.old.items ++ bits have window) }
    ensures kept { take (length out.old.items) out.new.items ≡ out.old.items }
{
    if have < 32 {
        return Ok(have);
    }
    let left = have - 32;
    out.extend_from_slice(&four_bytes(window, left))?;
    Ok(left)
}

// The four bytes of the window that so many bits follow.
#[inline(always)]
fn four_bytes(window: u64, following: u32) -> [u8; 4]
    requires { following < 32 }
    ensures { bits (32 + following) window ≡ bits_of 8 result ++ bits following window }
{
    [
        whole_byte(window, following + 24),
        whole_byte(window, following + 16),
        whole_byte(window, following + 8),
        whole_byte(window, following),
    ]
}

// Appends the whole bytes of the window, and says how many bits are left.
fn push_bytes(window: u64, have: u32, out: &mut Vec<u8>) -> Result<u32, NoMemory>
    requires { have < 64 }
    ensures left { IfOk result (λ left. left < 8) }
    ensures bits { IfOk result (λ left. bits_of 8 out.new.items ++ bits left window
        ≡ bits_of 8 out.old.items ++ bits have window) }
    ensures kept { take (length out.old.items) out.new.items ≡ out.old.items }
{
    let mut left = have;
    while left >= 8 {
        left -= 8;
        out.push(whole_byte(window, left))?;
    }
    Ok(left)
}
