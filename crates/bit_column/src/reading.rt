//! Ids are read out of bytes.
ghost use Rattle.std.specs.Prelude.{◌≡◌, ◌≤◌, ◌<◌, ◌+◌, ◌*◌, ◌^◌, ◌++◌, All, Err, OnOk, length, take};
ghost use Rattle.bit_column.specs.Bits.{bits, bits_of, field, pieces};
ghost use Rattle.bit_column.specs.Column.{id_at};
ghost use Rattle.bit_column.specs.declared.fault.ColumnFault.TheVariants.{BadId, ReadFault};

use crate::bits::taken;
use crate::unpacking::unpack;
use crate::words::{number_in, word_at};
use crate::{ColumnFault, Width};

/// The id at an index of a section's bytes, which have all its bits.
pub fn at(bytes: &[u8], width: u32, index: u32) -> u32
    requires width { 1 ≤ width }
    requires bound { width ≤ 32 }
    requires held { (index + 1) * width ≤ 8 * length bytes.now }
    ensures { result ≡ id_at width index bytes.now }
{
    field_at(
        bytes,
        index as usize * width as usize,
        Width { bits: width },
    )
}

// The number of so many bits from one of them on.
#[inline]
fn field_at(bytes: &[u8], bit: usize, width: Width) -> u32
    requires { bit + width.bits ≤ 8 * length bytes.now }
    ensures { result ≡ field width.bits bit (bits_of 8 bytes.now) }
{
    let head = front(&bytes[bit / 8..]);
    let following = 8 * head.len() - bit % 8 - width.bits as usize;
    taken(window(head), following as u32, width)
}

/// The id that begins so many bits after a byte, from a word where the bytes have a whole one
/// there.
#[inline(always)]
pub fn id_from(bytes: &[u8], byte: usize, bit: u32, width: Width) -> u32
    requires bit { bit < 8 }
    requires held { 8 * byte + bit + width.bits ≤ 8 * length bytes.now }
    ensures { result ≡ field width.bits (8 * byte + bit) (bits_of 8 bytes.now) }
{
    if bytes.len() >= 8 && byte <= bytes.len() - 8 {
        return number_in(word_at(bytes, byte), bit, width);
    }
    field_at(&bytes[byte..], bit as usize, width)
}

/// The id from a bit of the first byte on, which so many of the bytes have. Of two bytes or of one,
/// as most ids have, the first and the last are taken apart: eight that were just written byte by
/// byte are not read at once without a wait.
#[inline(always)]
#[tactic(auto, using(crate::proofs::Fields::ends_found))]
pub fn id_of(bytes: &[u8; 8], size: usize, bit: usize, width: Width) -> u32
    requires size { size ≤ 8 }
    requires held { bit + width.bits ≤ 8 * size }
    ensures { result ≡ field width.bits bit (bits_of 8 bytes.now) }
{
    if size <= 2 {
        let ends = [bytes[0], bytes[size - 1]];
        return field_at(&ends, bit, width);
    }
    field_at(bytes, bit, width)
}

// At most eight bytes.
fn front(bytes: &[u8]) -> &[u8]
    ensures { result.now ≡ take 8 bytes.now }
{
    if bytes.len() <= 8 {
        return bytes;
    }
    &bytes[..8]
}

// The bits of at most eight bytes.
fn window(bytes: &[u8]) -> u64
    requires { length bytes.now ≤ 8 }
    ensures { bits_of 8 bytes.now ≡ bits (length bytes.now * 8) result }
{
    if bytes.len() == 8 {
        return eight(bytes);
    }
    let mut window = 0;
    for byte in bytes {
        window = window << 8 | *byte as u64;
    }
    window
}

// The bits of eight bytes.
fn eight(bytes: &[u8]) -> u64
    requires { length bytes.now ≡ 8 }
    ensures { bits_of 8 bytes.now ≡ bits 64 result }
{
    u64::from_be_bytes([
        bytes[0], bytes[1], bytes[2], bytes[3], bytes[4], bytes[5], bytes[6], bytes[7],
    ])
}

/// Appends so many ids from a bit on, each of which is to be below the count.
pub fn append_ids(
    bytes: &[u8],
    bit: usize,
    width: Width,
    count: u32,
    number: usize,
    ids: &mut Vec<u32>,
) -> Result<(), ColumnFault>
    requires bit { bit < 8 }
    requires number { number < 2 ^ 32 }
    requires held { bit + number * width.bits ≤ 8 * length bytes.now }
    ensures ids { OnOk result (ids.new.items
        ≡ ids.old.items ++ pieces width.bits bit number (bits_of 8 bytes.now)) }
    ensures below { OnOk result
        (All (λ id. id < count) (pieces width.bits bit number (bits_of 8 bytes.now))) }
    ensures bad { result ≡ Err BadId →
        ¬ All (λ id. id < count) (pieces width.bits bit number (bits_of 8 bytes.now)) }
    ensures read { ¬ (result ≡ Err ReadFault) }
{
    let start = ids.len();
    ids.resize(start + number, 0)?;
    unpack(bytes, bit, width, count, &mut ids[start..])
}
