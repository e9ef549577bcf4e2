//! The dictionary of a column of numbers is read piece by piece.

ghost use Rattle.std.specs.Prelude.{◌≡◌, ◌≢◌, ◌≤◌, ◌<◌, ◌+◌, ◌*◌, ◌^◌, [], false, true, IfOk, IfSome, IsErrOf, OnErr, OnOk, length, map, take};
ghost use Rattle.outside.specs.Reads.{LogsThrough, LogsUpTo};
ghost use Rattle.outside.specs.Seen.{OnlyReads, seen};
ghost use Rattle.bit_column.specs.Sections.{section};
ghost use Rattle.values.specs.declared.value.Value.TheVariants as value;
ghost use Rattle.dictionary.specs.Spelling.{counted};
ghost use Rattle.segment_file.specs.Rules.{IsSpelled};
ghost use Rattle.segment_head.specs.Calls.{FailsPlace, Names};
ghost use Rattle.segment_head.specs.Pieces.{FailsPieces, HasNumbers, IsPossible};

use crate::dictionaries::of_dictionary;
use data_types::FieldKind;
use dictionary::{Dictionary, MOST_VALUES, push_numbers};
use dictionary_reading::four_at;
use outside::{Place, Shelf};
use segment_file::{HeadFault, Part, fill_exactly, read_exactly};
use std::alloc::Global;

// Numbers that are read at once: 64 KB.
const MOST_NUMBERS: u32 = 8192;

/// The dictionary of numbers that the bytes of a place are, of a column in a file of so many rows:
/// how many there are is read first, and then the numbers, 64 KB at a time.
pub(crate) fn read_numbers<S: Shelf>(
    alloc: Global,
    shelf: &mut S,
    place: &Place,
    kind: FieldKind,
    rows: u32,
    column: u16,
) -> Result<Dictionary, HeadFault>
    requires numbers { kind ≢ FieldKind.Text }
    requires starts { 0 < place.now.offset }
    requires fits { place.now.offset + place.now.length < 2 ^ 64 }
    ensures ok { IfOk result (λ d. IfSome (S.held shelf.old) (λ files.
        IsSpelled kind rows (section files place.now) d)) }
    ensures part { Names (FailsPlace kind rows column (S.held shelf.old) place.now) result }
    ensures only_reads { OnlyReads (IsErrOf result HeadFault.ReadFault)
        (seen S.Shelf shelf.old) (seen S.Shelf shelf.new) }
    ensures log { LogsUpTo place.now.file place.now.offset
        (place.now.offset + place.now.length) (S.log shelf.old) (S.log shelf.new) }
{
    let count = match number_count(alloc, shelf, place, kind, rows, column) {
        Ok(count) => count,
        Err(fault) => return Err(fault),
    };
    let mut numbers = Vec::with_capacity(alloc, count as usize)?;
    match push_pieces(alloc, shelf, place, kind, column, count, &mut numbers) {
        Ok(()) => Ok(Dictionary::of_numbers(kind, numbers)),
        Err(fault) => Err(fault),
    }
}

// How many numbers the first four bytes of a place say that there are: as many as the place has
// room for. Where they say another number, the other bytes are read, since the file may end before.
fn number_count<S: Shelf>(
    alloc: Global,
    shelf: &mut S,
    place: &Place,
    kind: FieldKind,
    rows: u32,
    column: u16,
) -> Result<u32, HeadFault>
    requires numbers { kind ≢ FieldKind.Text }
    requires starts { 0 < place.now.offset }
    requires fits { place.now.offset + place.now.length < 2 ^ 64 }
    ensures ok { IfOk result (λ count. IsPossible count rows place.now.length) }
    ensures says { IfOk result (λ count. IfSome (S.held shelf.old) (λ files.
        counted count ≡ take 4 (section files place.now))) }
    ensures part { Names (FailsPlace kind rows column (S.held shelf.old) place.now) result }
    ensures only_reads { OnlyReads (IsErrOf result HeadFault.ReadFault)
        (seen S.Shelf shelf.old) (seen S.Shelf shelf.new) }
    ensures log { IfOk result (λ _. LogsThrough place.now.file place.now.offset
        (place.now.offset + 4) (S.log shelf.old) (S.log shelf.new)) }
    ensures log_of_fault { OnErr result (LogsUpTo place.now.file place.now.offset
        (place.now.offset + place.now.length) (S.log shelf.old) (S.log shelf.new)) }
{
    if place.length < 4 {
        return Err(HeadFault::NotASegment(Part::Dictionary(column)));
    }
    let file = place.file.as_str();
    let bytes = match read_exactly(alloc, shelf, file, place.offset, 4) {
        Ok(bytes) => bytes,
        Err(fault) => return Err(fault),
    };
    let count = four_at(bytes.as_slice(), 0);
    if is_possible(count, rows, place.length) {
        return Ok(count);
    }
    match read_exactly(alloc, shelf, file, place.offset + 4, place.length - 4) {
        Ok(_) => Err(HeadFault::NotASegment(Part::Dictionary(column))),
        Err(fault) => Err(fault),
    }
}

// Whether a dictionary of so many numbers may have so many bytes in a file of so many rows.
fn is_possible(count: u32, rows: u32, length: u64) -> bool
    ensures yes { result ≡ true → IsPossible count rows length }
    ensures no { result ≡ false → ¬ IsPossible count rows length }
{
    if count > rows {
        return false;
    }
    if count as usize > MOST_VALUES {
        return false;
    }
    if count == 0 && rows > 0 {
        return false;
    }
    length == 4 + 8 * u64::from(count)
}

// Appends the numbers of a place, which follow its first four bytes.
fn push_pieces<S: Shelf>(
    alloc: Global,
    shelf: &mut S,
    place: &Place,
    kind: FieldKind,
    column: u16,
    count: u32,
    numbers: &mut Vec<i64>,
) -> Result<(), HeadFault>
    requires numbers { kind ≢ FieldKind.Text }
    requires fits { place.now.offset + place.now.length < 2 ^ 64 }
    requires room { place.now.length ≡ 4 + 8 * count }
    requires none { numbers.old.items ≡ [] }
    ensures ok { OnOk result (HasNumbers kind (S.held shelf.old) place.now
        (map value.Whole numbers.new.items)) }
    ensures part { Names (FailsPieces kind column (S.held shelf.old) place.now) result }
    ensures only_reads { OnlyReads (IsErrOf result HeadFault.ReadFault)
        (seen S.Shelf shelf.old) (seen S.Shelf shelf.new) }
    ensures log { LogsUpTo place.now.file (place.now.offset + 4)
        (place.now.offset + place.now.length) (S.log shelf.old) (S.log shelf.new) }
{
    let file = place.file.as_str();
    let mut bytes = Vec::new(alloc);
    let mut done = 0;
    'pieces: while done < count {
        let many = MOST_NUMBERS.min(count - done);
        let at = place.offset + 4 + 8 * done as u64;
        match fill_exactly(alloc, shelf, file, at, 8 * many as u64, &mut bytes) {
            Ok(()) => {}
            Err(fault) => return Err(fault),
        }
        match push_numbers(kind, &bytes, numbers) {
            Ok(()) => {}
            Err(fault) => return Err(of_dictionary(fault, column)),
        }
        done += many;
    }
    Ok(())
}
