//! The ids of a row in the group columns, from the row or from its key.

ghost use Rattle.std.specs.Prelude.{◌≡◌, ◌≢◌, ◌<◌, ℕ, get_or, length};
ghost use Rattle.coded_columns.specs.Coded.{column_of};
ghost use Rattle.coded_columns.specs.Keys.{AreIdsAt, IsIdAt, key_at, packed_with};

use crate::coded::SegmentColumns;

/// Puts the ids of a row.
pub fn put_row(segment: &SegmentColumns<'_>, groups: &[u16], row: usize, ids: &mut [u32])
    requires same { length ids.old ≡ length groups.now }
    requires row { row < segment.now.count }
    ensures { AreIdsAt segment.now groups.now row ids.new }
{
    for i in 0..groups.len() {
        put_id(segment, groups[i], row, i, ids);
    }
}

// Puts the id of a row in one column, if it is looked at.
fn put_id(segment: &SegmentColumns<'_>, group: u16, row: usize, i: usize, ids: &mut [u32])
    requires i { i < length ids.old }
    requires row { row < segment.now.count }
    ensures own { IsIdAt (column_of segment.now group) row (get_or ids.new i 0) }
    ensures others { (j : ℕ) → j ≢ i → get_or ids.new j 0 ≡ get_or ids.old j 0 }
{
    match segment.at(group) {
        Some(column) => ids[i] = column.ids.at(row),
        None => {}
    }
}

/// Puts the ids that a key is packed from, the last one first. No id of a row is looked up.
pub fn put_digits(segment: &SegmentColumns<'_>, groups: &[u16], key: u32, ids: &mut [u32])
    requires same { length ids.old ≡ length groups.now }
    requires rows { 0 < segment.now.count }
    ensures { (row : ℕ) → row < segment.now.count → key_at segment.now groups.now row ≡ key
        → AreIdsAt segment.now groups.now row ids.new }
{
    let mut rest = key;
    let mut left = groups.len();
    while left > 1 {
        left -= 1;
        rest = put_last(segment, groups[left], rest, left, ids);
    }
    if left == 0 {
        return;
    }
    // The first id is what is left.
    ids[0] = rest;
}

// Puts the last id of a key in its place, and gives the key without it.
fn put_last(segment: &SegmentColumns<'_>, group: u16, key: u32, i: usize, ids: &mut [u32]) -> u32
    requires i { i < length ids.old }
    requires rows { 0 < segment.now.count }
    ensures own { (row before : ℕ) → row < segment.now.count
        → packed_with (column_of segment.now group) before row ≡ key
        → IsIdAt (column_of segment.now group) row (get_or ids.new i 0) }
    ensures rest { (row before : ℕ) → row < segment.now.count
        → packed_with (column_of segment.now group) before row ≡ key → result ≡ before }
    ensures others { (j : ℕ) → j ≢ i → get_or ids.new j 0 ≡ get_or ids.old j 0 }
{
    match segment.at(group) {
        Some(column) => {
            let width = column.dictionary.count();
            ids[i] = key % width;
            key / width
        }
        None => key,
    }
}
