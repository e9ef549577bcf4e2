//! Eight ids of more bits in a vector, out of the three bytes of each.
ghost use Rattle.std.specs.Prelude.{◌≡◌, ◌↔◌, ◌≤◌, ◌<◌, ◌+◌, ◌-◌, ◌*◌, ◌/◌, ◌%◌, ◌^◌, ◌++◌, ℕ, All, IsTrue, length, get_or, take};
ghost use Rattle.bit_column.specs.Bits.{bits_of, field};
ghost use Rattle.bit_column.specs.Unpacked.{AreLastPositions, IsEightPlan, IsFilled};

use crate::Width;
use crate::eights::{EightPlan, plan_from};
use crate::testing::narrow_below;
use std::simd::prelude::*;

/// Puts the ids of so many groups of eight, of which there are some and which are followed by
/// enough bytes, and tells whether each is below the count.
#[inline(always)]
pub fn put_long_eights(
    bytes: &[u8],
    bit: u32,
    groups: usize,
    width: Width,
    count: u32,
    ids: &mut [u16],
) -> bool
    requires bit { bit < 8 }
    requires narrow { width.bits ≤ 14 }
    requires some { 0 < groups }
    requires there { groups * width.bits + 16 ≤ length bytes.now }
    requires room { 8 * groups ≤ length ids.old }
    ensures filled { IsFilled bit width.bits (8 * groups) (bits_of 8 bytes.now) ids.new }
    ensures below { IsTrue result ↔ All (λ id. id < count) (take (8 * groups) ids.new) }
{
    let plan = plan_from(bit, width);
    let last = last_positions(bit, width.bits);
    let mut most = u16x8::splat(0);
    for group in 0..groups {
        let at = group * width.bits as usize;
        let lanes = put_long_eight(bytes, at, width, plan, last, ids, 8 * group);
        most = most.simd_max(lanes);
    }
    narrow_below(&most.to_array(), count)
}

// Puts eight ids after those before them, and gives them.
#[inline(always)]
fn put_long_eight(
    bytes: &[u8],
    at: usize,
    width: Width,
    plan: EightPlan,
    last: u8x16,
    ids: &mut [u16],
    to: usize,
) -> u16x8
    requires there { at + 16 ≤ length bytes.now }
    requires narrow { width.bits ≤ 14 }
    requires plan { IsEightPlan width.bits plan }
    requires last { AreLastPositions plan.bit width.bits last }
    requires to { to + 8 ≤ length ids.old }
    ensures filled { (first : ℕ) → 8 * at + plan.bit ≡ first + to * width.bits
        → IsFilled first width.bits to (bits_of 8 bytes.now) ids.old
        → IsFilled first width.bits (to + 8) (bits_of 8 bytes.now) ids.new }
    ensures long { length result ≡ 8 }
    ensures put { take (to + 8) ids.new ≡ take to ids.old ++ result }
{
    let lanes = long_eight(bytes, at, width, plan, last);
    lanes.copy_to_slice(&mut ids[to..]);
    lanes
}

// Eight ids, the first of which begins where the plan has it after a byte. The first two bytes of
// each are moved to the front, and the third one to where they end.
#[inline(always)]
fn long_eight(bytes: &[u8], at: usize, width: Width, plan: EightPlan, last: u8x16) -> u16x8
    requires there { at + 16 ≤ length bytes.now }
    requires narrow { width.bits ≤ 14 }
    requires plan { IsEightPlan width.bits plan }
    requires last { AreLastPositions plan.bit width.bits last }
    ensures long { length result ≡ 8 }
    ensures each { (i : ℕ) → i < 8 → get_or result i 0
        ≡ field width.bits (8 * at + (plan.bit + i * width.bits)) (bits_of 8 bytes.now) }
{
    let own = u8x16::from_slice(&bytes[at..]);
    let two = own.swizzle_dyn(plan.positions & u8x16::splat(15));
    let third = own.swizzle_dyn(last & u8x16::splat(15));
    let down = (16 - width.bits) as u16;
    let end = (u16x8::from_le_bytes(third) & u16x8::splat(255)) * plan.factors >> u16x8::splat(8);
    (u16x8::from_le_bytes(two) * plan.factors + end) >> u16x8::splat(down)
}

// Where the third bytes of the ids from a bit on are.
#[inline(always)]
fn last_positions(bit: u32, width: u32) -> u8x16
    requires bit { bit < 8 }
    requires narrow { width ≤ 14 }
    ensures { AreLastPositions bit width result }
{
    let mut at = [0u8; 16];
    for k in 0..16 {
        at[k] = ((bit + k as u32 / 2 * width) / 8 + 2) as u8;
    }
    u8x16::from_array(at)
}
