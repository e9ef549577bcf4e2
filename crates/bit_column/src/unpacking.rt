//! Ids are unpacked: four at a time in vectors while whole groups of eight are left, and then one
//! by one.
ghost use Rattle.std.specs.Prelude.{◌≡◌, ◌≤◌, ◌<◌, ◌+◌, ◌*◌, All, length, IfErr, OnErr, OnOk};
ghost use Rattle.bit_column.specs.Bits.{bits_of, pieces};
ghost use Rattle.bit_column.specs.Unpacked.{IsFilled};
ghost use Rattle.bit_column.specs.declared.fault.ColumnFault.TheVariants.{BadId};

use crate::lanes::put_groups;
use crate::reading::id_from;
use crate::testing::are_below;
use crate::words::put_words;
use crate::{ColumnFault, Width};

/// A vector has four ids of at most so many bits.
const MOST_IN_LANE: u32 = 24;

/// So many bytes are read for four ids.
const LANE_BYTES: usize = 16;

/// Fewer groups of eight than so many take less time one by one than the plans of vectors do.
pub const FEW_GROUPS: usize = 8;

/// The ids from a bit on, as many as there is place for, each of which is to be below the count.
pub fn unpack(
    bytes: &[u8],
    bit: usize,
    width: Width,
    count: u32,
    ids: &mut [u32],
) -> Result<(), ColumnFault>
    requires bit { bit < 8 }
    requires held { bit + length ids.old * width.bits ≤ 8 * length bytes.now }
    ensures ids { OnOk result
        (ids.new ≡ pieces width.bits bit (length ids.old) (bits_of 8 bytes.now)) }
    ensures below { OnOk result (All (λ id. id < count) ids.new) }
    ensures bad { OnErr result
        (¬ All (λ id. id < count) (pieces width.bits bit (length ids.old) (bits_of 8 bytes.now))) }
    ensures only { IfErr result (λ fault. fault ≡ BadId) }
{
    put_ids(bytes, bit as u32, width, ids);
    if are_below(ids, count) {
        return Ok(());
    }
    Err(ColumnFault::BadId)
}

/// Puts the ids from a bit on, as many as there is place for.
pub fn put_ids(bytes: &[u8], bit: u32, width: Width, ids: &mut [u32])
    requires bit { bit < 8 }
    requires held { bit + length ids.old * width.bits ≤ 8 * length bytes.now }
    ensures { ids.new ≡ pieces width.bits bit (length ids.old) (bits_of 8 bytes.now) }
{
    if width.bits == 32 && bit == 0 {
        return put_words(bytes, ids);
    }
    let groups = whole_groups(bytes, width, ids.len());
    if width.bits > MOST_IN_LANE || groups < FEW_GROUPS {
        return put_rest(bytes, bit, 0, width, ids);
    }
    put_groups(bytes, bit, groups, width, ids);
    put_rest(bytes, bit, groups, width, ids);
}

/// How many groups of eight ids there are, the bytes of which are followed by enough others that
/// vectors can be read.
pub fn whole_groups(bytes: &[u8], width: Width, ids: usize) -> usize
    ensures there { 0 < result → result * width.bits + 16 ≤ length bytes.now }
    ensures ids { 8 * result ≤ ids }
{
    if bytes.len() < LANE_BYTES {
        return 0;
    }
    let most = (bytes.len() - LANE_BYTES) / width.bits as usize;
    most.min(ids / 8)
}

// Puts the ids after those of so many groups.
fn put_rest(bytes: &[u8], bit: u32, groups: usize, width: Width, ids: &mut [u32])
    requires bit { bit < 8 }
    requires held { bit + length ids.old * width.bits ≤ 8 * length bytes.now }
    requires groups { 8 * groups ≤ length ids.old }
    requires before { IsFilled bit width.bits (8 * groups) (bits_of 8 bytes.now) ids.old }
    ensures { IsFilled bit width.bits (length ids.old) (bits_of 8 bytes.now) ids.new }
{
    let mut byte = groups * width.bits as usize;
    let mut begins = bit;
    for to in 8 * groups..ids.len() {
        ids[to] = id_from(bytes, byte, begins, width);
        begins += width.bits;
        byte += begins as usize / 8;
        begins %= 8;
    }
}
