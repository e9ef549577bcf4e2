//! Four ids in a vector.
ghost use Rattle.std.specs.Prelude.{◌≡◌, ◌≤◌, ◌<◌, ◌+◌, ◌-◌, ◌*◌, ◌/◌, ◌%◌, ◌^◌, ℕ, length, get_or};
ghost use Rattle.bit_column.specs.Bits.{bits_of, field};
ghost use Rattle.bit_column.specs.Unpacked.{AreFactors, ArePositions, IsFilled, IsPlan};

use crate::Width;
use std::simd::prelude::*;

/// How four ids come out of sixteen bytes: where the first begins in its byte, where the four bytes
/// of each are, the last one first, and what moves each to the front of its bytes.
#[derive(Clone, Copy)]
pub struct Plan {
    pub bit: u32,
    pub positions: u8x16,
    pub factors: u32x4,
}

/// Puts the ids of so many groups of eight, which are followed by enough bytes. Columns whose ids
/// take more than two bytes each mostly have one of the widths that have code of their own.
#[inline(never)]
pub fn put_groups(bytes: &[u8], bit: u32, groups: usize, width: Width, ids: &mut [u32])
    requires bit { bit < 8 }
    requires narrow { width.bits ≤ 24 }
    requires there { 0 < groups → groups * width.bits + 16 ≤ length bytes.now }
    requires room { 8 * groups ≤ length ids.old }
    ensures { IsFilled bit width.bits (8 * groups) (bits_of 8 bytes.now) ids.new }
{
    match width.bits {
        17 => put_all(bytes, bit, groups, Width { bits: 17 }, ids),
        18 => put_all(bytes, bit, groups, Width { bits: 18 }, ids),
        19 => put_all(bytes, bit, groups, Width { bits: 19 }, ids),
        20 => put_all(bytes, bit, groups, Width { bits: 20 }, ids),
        _ => put_all(bytes, bit, groups, width, ids),
    }
}

// The same by the code of a width.
#[inline(always)]
fn put_all(bytes: &[u8], bit: u32, groups: usize, width: Width, ids: &mut [u32])
    requires bit { bit < 8 }
    requires narrow { width.bits ≤ 24 }
    requires there { 0 < groups → groups * width.bits + 16 ≤ length bytes.now }
    requires room { 8 * groups ≤ length ids.old }
    ensures { IsFilled bit width.bits (8 * groups) (bits_of 8 bytes.now) ids.new }
{
    let second = bit + 4 * width.bits;
    let near = plan_from(bit, width);
    let far = plan_from(second % 8, width);
    for group in 0..groups {
        let at = group * width.bits as usize;
        put_four(bytes, at, width, near, ids, 8 * group);
        let after = at + second as usize / 8;
        put_four(bytes, after, width, far, ids, 8 * group + 4);
    }
}

// Puts four ids after those before them.
#[inline(always)]
fn put_four(bytes: &[u8], at: usize, width: Width, plan: Plan, ids: &mut [u32], to: usize)
    requires there { at + 16 ≤ length bytes.now }
    requires narrow { width.bits ≤ 24 }
    requires plan { IsPlan width.bits plan }
    requires to { to + 4 ≤ length ids.old }
    ensures { (first : ℕ) → 8 * at + plan.bit ≡ first + to * width.bits
        → IsFilled first width.bits to (bits_of 8 bytes.now) ids.old
        → IsFilled first width.bits (to + 4) (bits_of 8 bytes.now) ids.new }
{
    four(bytes, at, width, plan).copy_to_slice(&mut ids[to..]);
}

/// Four ids, the first of which begins where the plan has it after a byte.
#[inline(always)]
pub fn four(bytes: &[u8], at: usize, width: Width, plan: Plan) -> u32x4
    requires there { at + 16 ≤ length bytes.now }
    requires narrow { width.bits ≤ 24 }
    requires plan { IsPlan width.bits plan }
    ensures long { length result ≡ 4 }
    ensures each { (i : ℕ) → i < 4 → get_or result i 0
        ≡ field width.bits (8 * at + (plan.bit + i * width.bits)) (bits_of 8 bytes.now) }
{
    let own = u8x16::from_slice(&bytes[at..]).swizzle_dyn(plan.positions & u8x16::splat(15));
    u32x4::from_le_bytes(own) * plan.factors >> u32x4::splat(32 - width.bits)
}

/// The plan for ids the first of which begins at a bit of its byte.
#[inline(always)]
pub fn plan_from(bit: u32, width: Width) -> Plan
    requires bit { bit < 8 }
    requires narrow { width.bits ≤ 24 }
    ensures plan { IsPlan width.bits result }
    ensures bit { result.bit ≡ bit }
{
    Plan {
        bit,
        positions: positions_from(bit, width.bits),
        factors: factors_from(bit, width.bits),
    }
}

// Where the bytes of the ids from a bit on are, the last byte first.
#[inline(always)]
fn positions_from(bit: u32, width: u32) -> u8x16
    requires bit { bit < 8 }
    requires narrow { width ≤ 24 }
    ensures { ArePositions bit width result }
{
    let mut at = [0u8; 16];
    for k in 0..16 {
        at[k] = ((bit + k as u32 / 4 * width) / 8 + 3 - k as u32 % 4) as u8;
    }
    u8x16::from_array(at)
}

// What moves the ids from a bit on to the front of their bytes.
#[inline(always)]
fn factors_from(bit: u32, width: u32) -> u32x4
    requires bit { bit < 8 }
    requires narrow { width ≤ 24 }
    ensures { AreFactors bit width result }
{
    let mut by = [0u32; 4];
    for k in 0..4 {
        by[k] = 1 << ((bit + k as u32 * width) % 8);
    }
    u32x4::from_array(by)
}
