//! A range of ids is read from a section of a file.
ghost use Rattle.std.specs.Prelude.{◌≡◌, ◌≤◌, ◌<◌, ◌+◌, ◌-◌, ◌*◌, ◌%◌, ◌++◌, ◌∷◌, [], All, Err, IfOk, IfSome, OnOk, length};
ghost use Rattle.outside.specs.Seen.{seen};
ghost use Rattle.bit_column.specs.Bits.{bits_of, pieces};
ghost use Rattle.bit_column.specs.Column.{ids_between};
ghost use Rattle.bit_column.specs.Reading.{ReadsRange};
ghost use Rattle.bit_column.specs.Sections.{section, AppendsRange, Readable};
ghost use Rattle.bit_column.specs.declared.fault.ColumnFault.TheVariants.{BadId, ReadFault};

use crate::narrow_ids::NarrowIds;
use crate::range_bytes::{read_bytes, read_short_range};
use crate::reading::{append_ids, id_of};
use crate::words::{number_in, word_at};
use crate::{ColumnFault, IdRange, Width};
use outside::{Place, Seq, Shelf};
use std::alloc::Global;

/// The ids of a section between two indexes, the second left out, in so many bits each. It reads
/// their bytes and no others, each once. A range without ids is there in any section, and reads
/// nothing.
pub fn read_range<S: Shelf>(
    alloc: Global,
    shelf: &mut S,
    place: &Place,
    width: u32,
    count: u32,
    from: u32,
    to: u32,
) -> Result<Seq<u32>, ColumnFault>
    requires width { 1 ≤ width }
    requires bound { width ≤ 32 }
    requires order { from ≤ to }
    ensures ids { IfOk result (λ ids. IfSome (S.held shelf.old) (λ files.
        Readable width count from to (section files place.now)
        × (ids ≡ ids_between width from to (section files place.now)))) }
    ensures number { IfOk result (λ ids. length ids ≡ to - from) }
    ensures below { IfOk result (λ ids. All (λ id. id < count) ids) }
    ensures reads { ReadsRange result place.now width count from to
        (seen S.Shelf shelf.old) (seen S.Shelf shelf.new) }
{
    let mut buffer = Vec::new(alloc);
    let mut ids = Vec::new(alloc);
    let range = IdRange {
        width: Width { bits: width },
        count,
        from,
        to,
    };
    match append_range(alloc, shelf, place, range, &mut buffer, &mut ids) {
        Ok(()) => Ok(Seq::from_vec(ids)),
        Err(fault) => Err(fault),
    }
}

/// Appends the ids of a range of a section. It reads their bytes and no others, each once, into a
/// buffer that is used again. A range of one takes no memory but for the id.
#[inline(always)]
pub fn append_range<S: Shelf>(
    alloc: Global,
    shelf: &mut S,
    place: &Place,
    range: IdRange,
    buffer: &mut Vec<u8>,
    ids: &mut Vec<u32>,
) -> Result<(), ColumnFault>
    ensures ids { OnOk result (AppendsRange (S.held shelf.old) place.now range.width.bits
        range.count range.from range.to ids.old.items ids.new.items) }
    ensures reads { ReadsRange result place.now range.width.bits range.count range.from range.to
        (seen S.Shelf shelf.old) (seen S.Shelf shelf.new) }
{
    if range.to - range.from != 1 {
        // A range that is lent to a call lies in memory: so it is another one, made for it.
        let some = IdRange {
            width: range.width,
            count: range.count,
            from: range.from,
            to: range.to,
        };
        return append_some(alloc, shelf, place, some, buffer, ids);
    }
    let first = range.from as u64 * range.width.bits as u64 / 8;
    let end = (range.to as u64 * range.width.bits as u64 + 7) / 8;
    let mut bytes = [0u8; 8];
    match read_short_range(alloc, shelf, place, range, &mut bytes) {
        Ok(()) => {
            let size = (end - first) as usize;
            let id = id_of(&bytes, size, first_bit(range), range.width);
            push_id(id, range.count, ids)
        }
        Err(fault) => Err(fault),
    }
}

// Appends an id, which is to be below the count.
#[inline(always)]
fn push_id(id: u32, count: u32, ids: &mut Vec<u32>) -> Result<(), ColumnFault>
    ensures ids { OnOk result (ids.new.items ≡ ids.old.items ++ id ∷ []) }
    ensures below { OnOk result (id < count) }
    ensures bad { result ≡ Err BadId → ¬ (id < count) }
    ensures read { ¬ (result ≡ Err ReadFault) }
{
    if id >= count {
        return Err(ColumnFault::BadId);
    }
    match ids.push(id) {
        Ok(()) => Ok(()),
        Err(_) => Err(ColumnFault::NoMemory),
    }
}

// Appends the ids of a range that is mostly not of one: it takes the room of its bytes.
#[inline(never)]
fn append_some<S: Shelf>(
    alloc: Global,
    shelf: &mut S,
    place: &Place,
    range: IdRange,
    buffer: &mut Vec<u8>,
    ids: &mut Vec<u32>,
) -> Result<(), ColumnFault>
    ensures ids { OnOk result (AppendsRange (S.held shelf.old) place.now range.width.bits
        range.count range.from range.to ids.old.items ids.new.items) }
    ensures reads { ReadsRange result place.now range.width.bits range.count range.from range.to
        (seen S.Shelf shelf.old) (seen S.Shelf shelf.new) }
{
    if range.from == range.to {
        return Ok(());
    }
    let bit = first_bit(range);
    let number = (range.to - range.from) as usize;
    if bit + number * range.width.bits as usize <= 64 {
        return append_short(alloc, shelf, place, range, ids);
    }
    match read_bytes(alloc, shelf, place, range, buffer) {
        Ok(()) => append_ids(
            buffer.as_slice(),
            bit,
            range.width,
            range.count,
            number,
            ids,
        ),
        Err(fault) => Err(fault),
    }
}

// Appends the ids of a range that has some, in at most eight bytes. It takes no memory but for the
// ids.
#[inline(always)]
fn append_short<S: Shelf>(
    alloc: Global,
    shelf: &mut S,
    place: &Place,
    range: IdRange,
    ids: &mut Vec<u32>,
) -> Result<(), ColumnFault>
    requires some { range.from < range.to }
    requires few { range.from * range.width.bits % 8 + (range.to - range.from) * range.width.bits
        ≤ 64 }
    ensures ids { OnOk result (AppendsRange (S.held shelf.old) place.now range.width.bits
        range.count range.from range.to ids.old.items ids.new.items) }
    ensures reads { ReadsRange result place.now range.width.bits range.count range.from range.to
        (seen S.Shelf shelf.old) (seen S.Shelf shelf.new) }
{
    let mut bytes = [0u8; 8];
    match read_short_range(alloc, shelf, place, range, &mut bytes) {
        Ok(()) => {
            let bit = first_bit(range) as u32;
            push_few(
                &bytes,
                bit,
                range.width,
                range.count,
                range.to - range.from,
                ids,
            )
        }
        Err(fault) => Err(fault),
    }
}

// Appends so many ids from a bit of eight bytes on, each of which is to be below the count.
#[inline(always)]
fn push_few(
    bytes: &[u8; 8],
    bit: u32,
    width: Width,
    count: u32,
    number: u32,
    ids: &mut Vec<u32>,
) -> Result<(), ColumnFault>
    requires { bit + number * width.bits ≤ 64 }
    ensures ids { OnOk result (ids.new.items
        ≡ ids.old.items ++ pieces width.bits bit number (bits_of 8 bytes.now)) }
    ensures below { OnOk result
        (All (λ id. id < count) (pieces width.bits bit number (bits_of 8 bytes.now))) }
    ensures bad { result ≡ Err BadId →
        ¬ All (λ id. id < count) (pieces width.bits bit number (bits_of 8 bytes.now)) }
    ensures read { ¬ (result ≡ Err ReadFault) }
{
    let word = word_at(bytes, 0);
    for i in 0..number {
        let id = number_in(word, bit + i * width.bits, width);
        match push_id(id, count, ids) {
            Ok(()) => {}
            Err(fault) => return Err(fault),
        }
    }
    Ok(())
}

/// Appends the ids of a range of a section, in two bytes each. It reads their bytes and no others,
/// each once, into a buffer that is used again.
#[inline(never)]
pub fn append_narrow<S: Shelf>(
    alloc: Global,
    shelf: &mut S,
    place: &Place,
    range: IdRange,
    buffer: &mut Vec<u8>,
    ids: &mut NarrowIds,
) -> Result<(), ColumnFault>
    requires { range.width.bits ≤ 16 }
    ensures ids { OnOk result (AppendsRange (S.held shelf.old) place.now range.width.bits
        range.count range.from range.to ids.old ids.new) }
    ensures reads { ReadsRange result place.now range.width.bits range.count range.from range.to
        (seen S.Shelf shelf.old) (seen S.Shelf shelf.new) }
{
    if range.from == range.to {
        return Ok(());
    }
    let bit = first_bit(range);
    let number = (range.to - range.from) as usize;
    match read_bytes(alloc, shelf, place, range, buffer) {
        Ok(()) => ids.append(buffer.as_slice(), bit, range.width, range.count, number),
        Err(fault) => Err(fault),
    }
}

// The bit of its first byte with which a range begins.
#[inline(always)]
fn first_bit(range: IdRange) -> usize
    ensures is { result ≡ range.from * range.width.bits % 8 }
    ensures low { result < 8 }
{
    (range.from as u64 * range.width.bits as u64 % 8) as usize
}
