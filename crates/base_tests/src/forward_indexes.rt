//! Forward indexes worked by hand.

ghost use Rattle.std.specs.Prelude.{◌≤◌, ◌<◌, ◌^◌, All, IsTrue};

use crate::device_calls::is_read;
use crate::expect::Expectations;
use crate::fixtures::{name, shelf_of};
use bit_column::{ColumnFault, at, read_range, width_for, write};
use memory_devices::MemoryShelf;
use outside::{NoMemory, Place};
use std::alloc::Global;

// Widths, ids and the bytes that they are, worked by hand.
type Spelled = (u32, &'static [u32], &'static [u8]);

const SPELLED: &[Spelled] = &[
    (1, &[1, 0, 1, 1, 0, 0, 0, 1, 1], &[0b1011_0001, 0b1000_0000]),
    (3, &[5, 0, 7, 2], &[0b1010_0011, 0b1010_0000]),
    (8, &[1, 255, 16], &[1, 255, 16]),
    (9, &[256, 1, 511], &[0x80, 0x00, 0x7f, 0xe0]),
    (17, &[65536, 3], &[0x80, 0x00, 0x00, 0x00, 0xc0]),
    (31, &[1, 2147483647], &[0, 0, 0, 3, 255, 255, 255, 0xfc]),
    (32, &[4294967295, 1], &[255, 255, 255, 255, 0, 0, 0, 1]),
    (5, &[], &[]),
];

// The ids 5, 0, 7, 2, 6, 1, 4, 3 in three bits each, after a byte of something else and before
// another.
const FILE: &[u8] = &[0xff, 0b1010_0011, 0b1010_1100, 0b0110_0011, 0xff];

// Where a section is, as offset and length, how many ids there are, the range, and what comes.
type Read = (u64, u64, u32, u32, u32, Result<&'static [u32], ColumnFault>);

const READS: &[Read] = &[
    (1, 3, 8, 0, 8, Ok(&[5, 0, 7, 2, 6, 1, 4, 3])),
    (1, 3, 8, 2, 6, Ok(&[7, 2, 6, 1])),
    (1, 3, 8, 3, 5, Ok(&[2, 6])),
    (1, 2, 8, 3, 5, Ok(&[2, 6])),
    (1, 2, 8, 4, 6, Err(ColumnFault::BadId)),
    (1, 9, 8, 7, 12, Err(ColumnFault::BadId)),
    (1, 3, 7, 3, 8, Ok(&[2, 6, 1, 4, 3])),
    (1, 3, 7, 2, 8, Err(ColumnFault::BadId)),
    (1, 0, 0, 9, 9, Ok(&[])),
    (18446744073709551615, 9, 8, 0, 8, Err(ColumnFault::BadId)),
];

fn place(alloc: Global, file: &str, offset: u64, length: u64) -> Place {
    Place {
        file: name(alloc, file),
        offset,
        length,
    }
}

// Whether each id fits so many bits.
fn fit(ids: &[u32], width: u32) -> bool
    requires { width ≤ 32 }
    ensures { IsTrue result → All (λ id. id < 2 ^ width) ids.now }
{
    for id in ids {
        if *id as u64 >= 1u64 << width {
            return false;
        }
    }
    true
}

// Whether the id at each place of the bytes is that of the list.
fn reads_each(bytes: &[u8], width: u32, ids: &[u32]) -> bool {
    for (index, id) in ids.iter().enumerate() {
        if index >= 9 || bytes.len() >= 9 || width < 1 || width > 32 {
            return false;
        }
        if (index + 1) * width as usize > 8 * bytes.len() {
            return false;
        }
        if at(bytes, width, index as u32) != *id {
            return false;
        }
    }
    true
}

// Whether the ids are written as the bytes.
fn is_written(ids: &[u32], width: u32, bytes: &[u8], out: &mut Vec<u8>) -> bool {
    if 1 <= width && width <= 32 && fit(ids, width) {
        return write(ids, width, out).is_ok() && out.as_slice() == bytes;
    }
    false
}

fn expect_spelled(alloc: Global, row: &Spelled, all: &Expectations) {
    let (width, ids, bytes) = *row;
    let mut out = Vec::new(alloc);
    let is_written = is_written(ids, width, bytes, &mut out);
    drop(out);
    all.expect(is_written, "ids are written");
    all.expect(reads_each(bytes, width, ids), "and read");
}

// How many ids there are, and how wide they are.
const WIDTHS: &[(u32, u32)] = &[
    (0, 1),
    (1, 1),
    (2, 1),
    (3, 2),
    (4, 2),
    (5, 3),
    (1048576, 20),
    (1048577, 21),
    (2147483648, 31),
    (4294967295, 32),
];

fn expect_widths(all: &Expectations) {
    for (count, width) in WIDTHS {
        let is_width = width_for(*count) == *width;
        all.expect(is_width, "the width for a number of ids");
    }
}

pub fn spelled(alloc: Global, all: &Expectations) {
    expect_widths(all);
    for row in SPELLED {
        expect_spelled(alloc, row, all);
    }
    all.end("spelled columns");
}

// Whether the range of a row is read as it says.
fn reads_row(alloc: Global, shelf: &mut MemoryShelf, row: &Read) -> bool {
    if row.3 > row.4 {
        return false;
    }
    let place = place(alloc, "f", row.0, row.1);
    let found = read_range(alloc, shelf, &place, 3, row.2, row.3, row.4);
    drop(place);
    let is_so = is_read(&found, row.5);
    drop(found);
    is_so
}

fn expect_ranges(alloc: Global, shelf: &mut MemoryShelf, all: &Expectations) {
    for row in READS {
        all.expect(reads_row(alloc, shelf, row), "the ids of a range");
    }
}

fn refusal_over(alloc: Global, shelf: &mut MemoryShelf, file: &str) -> Option<ColumnFault> {
    let section = place(alloc, file, 1, 3);
    let refused = read_range(alloc, shelf, &section, 3, 8, 0, 8).err();
    drop(section);
    refused
}

// Why no id of a range of the file of that name is read, where a call of the shelf fails.
fn refusal(alloc: Global, file: &str, failing: &[u64]) -> Result<Option<ColumnFault>, NoMemory> {
    let mut shelf = shelf_of(alloc, FILE, failing)?;
    let refused = refusal_over(alloc, &mut shelf, file);
    drop(shelf);
    Ok(refused)
}

fn expect_faults(alloc: Global, all: &Expectations) {
    let refused = refusal(alloc, "f", &[0]);
    all.equal(refused, Ok(Some(ColumnFault::ReadFault)), "call 0 fails");
    let refused = refusal(alloc, "f", &[]);
    all.equal(refused, Ok(None), "no call fails");
    let refused = refusal(alloc, "g", &[]);
    all.equal(refused, Ok(Some(ColumnFault::BadId)), "no file");
}

pub fn ranges(alloc: Global, all: &Expectations) {
    if let Ok(mut shelf) = shelf_of(alloc, FILE, &[]) {
        expect_ranges(alloc, &mut shelf, all);
        drop(shelf);
    }
    expect_faults(alloc, all);
    all.end("ranges");
}
