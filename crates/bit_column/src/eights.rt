//! Eight ids in a vector.
ghost use Rattle.std.specs.Prelude.{◌≡◌, ◌↔◌, ◌≤◌, ◌<◌, ◌+◌, ◌-◌, ◌*◌, ◌/◌, ◌%◌, ◌^◌, ◌++◌, ℕ, All, IsTrue, length, get_or, take};
ghost use Rattle.bit_column.specs.Bits.{bits_of, field};
ghost use Rattle.bit_column.specs.Unpacked.{AreEightFactors, AreEightPositions, IsEightPlan, IsFilled};

use crate::Width;
use crate::testing::narrow_below;
use std::simd::prelude::*;

/// How eight ids of few bits come out of sixteen bytes: where the first begins in its byte, where
/// the two bytes of each are, the last one first, and what moves each to the front of its bytes.
#[derive(Clone, Copy)]
pub struct EightPlan {
    pub bit: u32,
    pub positions: u8x16,
    pub factors: u16x8,
}

/// Puts the ids of so many groups of eight, of which there are some and which are followed by
/// enough bytes, and tells whether each is below the count.
#[inline(always)]
pub fn put_eights(
    bytes: &[u8],
    bit: u32,
    groups: usize,
    width: Width,
    count: u32,
    ids: &mut [u16],
) -> bool
    requires bit { bit < 8 }
    requires narrow { width.bits ≤ 9 }
    requires some { 0 < groups }
    requires there { groups * width.bits + 16 ≤ length bytes.now }
    requires room { 8 * groups ≤ length ids.old }
    ensures filled { IsFilled bit width.bits (8 * groups) (bits_of 8 bytes.now) ids.new }
    ensures below { IsTrue result ↔ All (λ id. id < count) (take (8 * groups) ids.new) }
{
    let plan = plan_from(bit, width);
    let mut most = u16x8::splat(0);
    for group in 0..groups {
        let at = group * width.bits as usize;
        let lanes = put_eight(bytes, at, width, plan, ids, 8 * group);
        most = most.simd_max(lanes);
    }
    narrow_below(&most.to_array(), count)
}

// Puts eight ids after those before them, and gives them.
#[inline(always)]
fn put_eight(
    bytes: &[u8],
    at: usize,
    width: Width,
    plan: EightPlan,
    ids: &mut [u16],
    to: usize,
) -> u16x8
    requires there { at + 16 ≤ length bytes.now }
    requires narrow { width.bits ≤ 9 }
    requires plan { IsEightPlan width.bits plan }
    requires to { to + 8 ≤ length ids.old }
    ensures filled { (first : ℕ) → 8 * at + plan.bit ≡ first + to * width.bits
        → IsFilled first width.bits to (bits_of 8 bytes.now) ids.old
        → IsFilled first width.bits (to + 8) (bits_of 8 bytes.now) ids.new }
    ensures long { length result ≡ 8 }
    ensures put { take (to + 8) ids.new ≡ take to ids.old ++ result }
{
    let lanes = eight(bytes, at, width, plan);
    lanes.copy_to_slice(&mut ids[to..]);
    lanes
}

// Eight ids, the first of which begins where the plan has it after a byte.
#[inline(always)]
fn eight(bytes: &[u8], at: usize, width: Width, plan: EightPlan) -> u16x8
    requires there { at + 16 ≤ length bytes.now }
    requires narrow { width.bits ≤ 9 }
    requires plan { IsEightPlan width.bits plan }
    ensures long { length result ≡ 8 }
    ensures each { (i : ℕ) → i < 8 → get_or result i 0
        ≡ field width.bits (8 * at + (plan.bit + i * width.bits)) (bits_of 8 bytes.now) }
{
    let own = u8x16::from_slice(&bytes[at..]).swizzle_dyn(plan.positions & u8x16::splat(15));
    let down = (16 - width.bits) as u16;
    u16x8::from_le_bytes(own) * plan.factors >> u16x8::splat(down)
}

/// The plan for ids the first of which begins at a bit of its byte.
#[inline(always)]
pub fn plan_from(bit: u32, width: Width) -> EightPlan
    requires bit { bit < 8 }
    requires narrow { width.bits ≤ 14 }
    ensures plan { IsEightPlan width.bits result }
    ensures bit { result.bit ≡ bit }
{
    EightPlan {
        bit,
        positions: positions_from(bit, width.bits),
        factors: factors_from(bit, width.bits),
    }
}

// Where the bytes of the ids from a bit on are, the last byte first.
#[inline(always)]
fn positions_from(bit: u32, width: u32) -> u8x16
    requires bit { bit < 8 }
    requires narrow { width ≤ 14 }
    ensures { AreEightPositions bit width result }
{
    let mut at = [0u8; 16];
    for k in 0..16 {
        at[k] = ((bit + k as u32 / 2 * width) / 8 + 1 - k as u32 % 2) as u8;
    }
    u8x16::from_array(at)
}

// What moves the ids from a bit on to the front of their bytes.
#[inline(always)]
fn factors_from(bit: u32, width: u32) -> u16x8
    requires bit { bit < 8 }
    requires narrow { width ≤ 14 }
    ensures { AreEightFactors bit width result }
{
    let mut by = [0u16; 8];
    for k in 0..8 {
        by[k] = 1 << ((bit + k as u32 * width) % 8);
    }
    u16x8::from_array(by)
}
