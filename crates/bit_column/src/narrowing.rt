//! Ids are unpacked into two bytes each: in vectors while whole groups of eight are left, and then
//! one by one.
ghost use Rattle.std.specs.Prelude.{◌≡◌, ◌↔◌, ◌≤◌, ◌<◌, ◌+◌, ◌*◌, All, IfErr, IsTrue, OnErr, OnOk, length, take};
ghost use Rattle.bit_column.specs.Bits.{bits_of, field, pieces};
ghost use Rattle.bit_column.specs.Unpacked.{IsFilled};
ghost use Rattle.bit_column.specs.declared.fault.ColumnFault.TheVariants.{BadId};

use crate::narrow_lanes::put_narrow_groups;
use crate::reading::id_from;
use crate::testing::narrow_below;
use crate::unpacking::{FEW_GROUPS, whole_groups};
use crate::{ColumnFault, Width};

/// The ids from a bit on, as many as there is place for, each of which is to be below the count.
pub fn unpack_narrow(
    bytes: &[u8],
    bit: usize,
    width: Width,
    count: u32,
    ids: &mut [u16],
) -> Result<(), ColumnFault>
    requires bit { bit < 8 }
    requires narrow { width.bits ≤ 16 }
    requires held { bit + length ids.old * width.bits ≤ 8 * length bytes.now }
    ensures ids { OnOk result
        (ids.new ≡ pieces width.bits bit (length ids.old) (bits_of 8 bytes.now)) }
    ensures below { OnOk result (All (λ id. id < count) ids.new) }
    ensures bad { OnErr result
        (¬ All (λ id. id < count) (pieces width.bits bit (length ids.old) (bits_of 8 bytes.now))) }
    ensures only { IfErr result (λ fault. fault ≡ BadId) }
{
    if put_ids(bytes, bit as u32, width, count, ids) {
        return Ok(());
    }
    Err(ColumnFault::BadId)
}

// Puts the ids from a bit on, and tells whether each is below the count.
fn put_ids(bytes: &[u8], bit: u32, width: Width, count: u32, ids: &mut [u16]) -> bool
    requires bit { bit < 8 }
    requires narrow { width.bits ≤ 16 }
    requires held { bit + length ids.old * width.bits ≤ 8 * length bytes.now }
    ensures ids { ids.new ≡ pieces width.bits bit (length ids.old) (bits_of 8 bytes.now) }
    ensures below { IsTrue result ↔ All (λ id. id < count) ids.new }
{
    let groups = whole_groups(bytes, width, ids.len());
    if groups < FEW_GROUPS {
        put_rest(bytes, bit, 0, width, ids);
        return narrow_below(ids, count);
    }
    let below = put_narrow_groups(bytes, bit, groups, width, count, ids);
    put_rest(bytes, bit, groups, width, ids);
    if !below {
        return false;
    }
    narrow_below(&ids[8 * groups..], count)
}

// Puts the ids after those of so many groups.
fn put_rest(bytes: &[u8], bit: u32, groups: usize, width: Width, ids: &mut [u16])
    requires bit { bit < 8 }
    requires narrow { width.bits ≤ 16 }
    requires held { bit + length ids.old * width.bits ≤ 8 * length bytes.now }
    requires groups { 8 * groups ≤ length ids.old }
    requires before { IsFilled bit width.bits (8 * groups) (bits_of 8 bytes.now) ids.old }
    ensures filled { IsFilled bit width.bits (length ids.old) (bits_of 8 bytes.now) ids.new }
    ensures kept { take (8 * groups) ids.new ≡ take (8 * groups) ids.old }
{
    let mut byte = groups * width.bits as usize;
    let mut begins = bit;
    for to in 8 * groups..ids.len() {
        ids[to] = narrow_id(bytes, byte, begins, width);
        begins += width.bits;
        byte += begins as usize / 8;
        begins %= 8;
    }
}

// The id that begins so many bits after a byte.
#[inline(always)]
fn narrow_id(bytes: &[u8], byte: usize, bit: u32, width: Width) -> u16
    requires bit { bit < 8 }
    requires narrow { width.bits ≤ 16 }
    requires held { 8 * byte + bit + width.bits ≤ 8 * length bytes.now }
    ensures { result ≡ field width.bits (8 * byte + bit) (bits_of 8 bytes.now) }
{
    id_from(bytes, byte, bit, width) as u16
}
