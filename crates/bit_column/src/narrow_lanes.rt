//! Ids are put in two bytes each, eight in a vector where they have few bits and else four.
ghost use Rattle.std.specs.Prelude.{◌≡◌, ◌↔◌, ◌≤◌, ◌<◌, ◌+◌, ◌*◌, ℕ, All, IsTrue, length, take};
ghost use Rattle.bit_column.specs.Bits.{bits_of};
ghost use Rattle.bit_column.specs.Unpacked.{IsFilled, IsPlan};

use crate::Width;
use crate::eights::put_eights;
use crate::lanes::{Plan, four, plan_from};
use crate::long_eights::put_long_eights;
use crate::testing::narrow_below;

/// Puts the ids of so many groups of eight, of which there are some and which are followed by
/// enough bytes, by code of their width, and tells whether each is below the count.
#[inline(never)]
pub fn put_narrow_groups(
    bytes: &[u8],
    bit: u32,
    groups: usize,
    width: Width,
    count: u32,
    ids: &mut [u16],
) -> bool
    requires bit { bit < 8 }
    requires narrow { width.bits ≤ 16 }
    requires some { 0 < groups }
    requires there { groups * width.bits + 16 ≤ length bytes.now }
    requires room { 8 * groups ≤ length ids.old }
    ensures filled { IsFilled bit width.bits (8 * groups) (bits_of 8 bytes.now) ids.new }
    ensures below { IsTrue result ↔ All (λ id. id < count) (take (8 * groups) ids.new) }
{
    match width.bits {
        1 => put_eights(bytes, bit, groups, Width { bits: 1 }, count, ids),
        2 => put_eights(bytes, bit, groups, Width { bits: 2 }, count, ids),
        3 => put_eights(bytes, bit, groups, Width { bits: 3 }, count, ids),
        4 => put_eights(bytes, bit, groups, Width { bits: 4 }, count, ids),
        5 => put_eights(bytes, bit, groups, Width { bits: 5 }, count, ids),
        6 => put_eights(bytes, bit, groups, Width { bits: 6 }, count, ids),
        7 => put_eights(bytes, bit, groups, Width { bits: 7 }, count, ids),
        8 => put_eights(bytes, bit, groups, Width { bits: 8 }, count, ids),
        9 => put_eights(bytes, bit, groups, Width { bits: 9 }, count, ids),
        10 => put_long_eights(bytes, bit, groups, Width { bits: 10 }, count, ids),
        11 => put_long_eights(bytes, bit, groups, Width { bits: 11 }, count, ids),
        12 => put_long_eights(bytes, bit, groups, Width { bits: 12 }, count, ids),
        13 => put_long_eights(bytes, bit, groups, Width { bits: 13 }, count, ids),
        14 => put_long_eights(bytes, bit, groups, Width { bits: 14 }, count, ids),
        15 => put_tested(bytes, bit, groups, Width { bits: 15 }, count, ids),
        16 => put_tested(bytes, bit, groups, Width { bits: 16 }, count, ids),
        _ => put_tested(bytes, bit, groups, width, count, ids),
    }
}

// The same by the code of a width of more bits, after which each id is looked at.
#[inline(always)]
fn put_tested(
    bytes: &[u8],
    bit: u32,
    groups: usize,
    width: Width,
    count: u32,
    ids: &mut [u16],
) -> bool
    requires bit { bit < 8 }
    requires narrow { width.bits ≤ 16 }
    requires there { groups * width.bits + 16 ≤ length bytes.now }
    requires room { 8 * groups ≤ length ids.old }
    ensures filled { IsFilled bit width.bits (8 * groups) (bits_of 8 bytes.now) ids.new }
    ensures below { IsTrue result ↔ All (λ id. id < count) (take (8 * groups) ids.new) }
{
    put_all(bytes, bit, groups, width, ids);
    narrow_below(&ids[..8 * groups], count)
}

// Puts the ids of so many groups of eight, four at a time.
#[inline(always)]
fn put_all(bytes: &[u8], bit: u32, groups: usize, width: Width, ids: &mut [u16])
    requires bit { bit < 8 }
    requires narrow { width.bits ≤ 16 }
    requires there { 0 < groups → groups * width.bits + 16 ≤ length bytes.now }
    requires room { 8 * groups ≤ length ids.old }
    ensures { IsFilled bit width.bits (8 * groups) (bits_of 8 bytes.now) ids.new }
{
    let second = bit + 4 * width.bits;
    let near = plan_from(bit, width);
    let far = plan_from(second % 8, width);
    for group in 0..groups {
        let at = group * width.bits as usize;
        put_four(bytes, at, width, near, ids, 8 * group);
        let after = at + second as usize / 8;
        put_four(bytes, after, width, far, ids, 8 * group + 4);
    }
}

// Puts four ids after those before them.
#[inline(always)]
fn put_four(bytes: &[u8], at: usize, width: Width, plan: Plan, ids: &mut [u16], to: usize)
    requires there { at + 16 ≤ length bytes.now }
    requires narrow { width.bits ≤ 16 }
    requires plan { IsPlan width.bits plan }
    requires to { to + 4 ≤ length ids.old }
    ensures { (first : ℕ) → 8 * at + plan.bit ≡ first + to * width.bits
        → IsFilled first width.bits to (bits_of 8 bytes.now) ids.old
        → IsFilled first width.bits (to + 4) (bits_of 8 bytes.now) ids.new }
{
    four(bytes, at, width, plan)
        .cast::<u16>()
        .copy_to_slice(&mut ids[to..]);
}
