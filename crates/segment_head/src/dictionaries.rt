//! The dictionaries of a segment's file.
ghost use Rattle.std.specs.Prelude.{◌≡◌, ◌≤◌, ◌+◌, ◌++◌, ◌∷◌, [], List, length, IfOk, IfErr, OnOk, IsErrOf, ℕ};
ghost use Rattle.data_types.specs.declared.kind.FieldKind.{FieldKind};
ghost use Rattle.dictionary.specs.Reading.{Checks};
ghost use Rattle.value_ids.specs.Dictionary.{Distinct};
ghost use Rattle.segment_file.specs.Parts.{columns_of};
ghost use Rattle.segment_head.specs.Reading.{StopsAt, bytes_of_section, heads_read};
ghost use Rattle.segment_file.specs.Rules.{AreSpelled, IsSpelled};
ghost use Rattle.segment_file.specs.declared.part.Part.{Part};
ghost use Rattle.segment_file.specs.declared.part.Part.TheVariants as part;
ghost use Rattle.segment_file.specs.declared.fault.HeadFault.TheVariants.{NotASegment};

use crate::NoMemory;
use data_types::FieldKind;
use dictionary::{DictFault, Dictionary};
use segment_file::{HeadFault, Part, Section};
use std::alloc::Global;
use table_schema::Table;

/// The dictionary that the bytes are, of a column of that kind in a file of so many rows.
pub(crate) fn check_dictionary(
    alloc: Global,
    kind: FieldKind,
    rows: u32,
    bytes: &[u8],
) -> Result<Dictionary, DictFault>
    ensures ok { IfOk result (IsSpelled kind rows bytes.now) }
    ensures bad { IsErrOf result DictFault.BadDictionary →
        (d : Distinct) → ¬ IsSpelled kind rows bytes.now d }
{
    of_rows(Dictionary::check(alloc, kind, bytes), rows)
}

/// The same of bytes that are given away: a dictionary of texts keeps them.
pub(crate) fn take_dictionary(
    alloc: Global,
    kind: FieldKind,
    rows: u32,
    bytes: Vec<u8>,
) -> Result<Dictionary, DictFault>
    ensures ok { IfOk result (IsSpelled kind rows bytes.items) }
    ensures bad { IsErrOf result DictFault.BadDictionary →
        (d : Distinct) → ¬ IsSpelled kind rows bytes.items d }
{
    of_rows(Dictionary::of_bytes(alloc, kind, bytes), rows)
}

// The dictionary that was read, if a file of so many rows may have it.
fn of_rows(read: Result<Dictionary, DictFault>, rows: u32) -> Result<Dictionary, DictFault>
    ensures ok { IfOk result (λ d. (kind : FieldKind) (bytes : List ℕ) → Checks kind bytes read →
        IsSpelled kind rows bytes d) }
    ensures bad { IsErrOf result DictFault.BadDictionary →
        (kind : FieldKind) (bytes : List ℕ) → Checks kind bytes read →
        (d : Distinct) → ¬ IsSpelled kind rows bytes d }
{
    let dictionary = match read {
        Ok(dictionary) => dictionary,
        Err(fault) => return Err(fault),
    };
    let count = dictionary.count();
    if count > rows {
        return Err(DictFault::BadDictionary);
    }
    if count == 0 && rows > 0 {
        return Err(DictFault::BadDictionary);
    }
    Ok(dictionary)
}

/// The bytes of a section of the front of a file, as many as there are.
pub(crate) fn section_bytes<'a>(bytes: &'a [u8], section: &Section) -> &'a [u8]
    ensures { result.now ≡ bytes_of_section bytes.now section.now }
{
    let from = section.place.offset.min(bytes.len() as u64) as usize;
    let rest = &bytes[from..];
    let size = section.place.length.min(rest.len() as u64) as usize;
    &rest[..size]
}

/// The dictionaries of all fields, or the number of the first field whose section is none.
pub(crate) fn check_dictionaries(
    alloc: Global,
    table: &Table,
    rows: u32,
    sections: &[Section],
    bytes: &[u8],
) -> Result<Vec<Dictionary>, HeadFault>
    requires fields { length table.now.schema.fields ≤ 64 }
    requires each { length table.now.schema.fields + 1 ≤ length sections.now }
    ensures ok { IfOk result (λ ds. AreSpelled table.now rows
        (heads_read table.now sections.now bytes.now) (columns_of table.now) ds.items) }
    ensures read { ¬ IsErrOf result HeadFault.ReadFault }
    ensures bad { IfErr result (λ fault. (p : Part) → fault ≡ NotASegment p →
        (column : ℕ) × (p ≡ part.Dictionary column) × StopsAt table.now rows
        (heads_read table.now sections.now bytes.now) column) }
{
    let fields = table.schema.fields.as_slice();
    let mut dictionaries = Vec::with_capacity(alloc, fields.len())?;
    for column in 0..fields.len() {
        let bytes = section_bytes(bytes, &sections[column + 1]);
        match check_dictionary(alloc, fields[column].kind, rows, bytes) {
            Ok(dictionary) => keep(dictionary, &mut dictionaries)?,
            Err(fault) => return Err(of_dictionary(fault, column as u16)),
        }
    }
    Ok(dictionaries)
}

fn keep(dictionary: Dictionary, dictionaries: &mut Vec<Dictionary>) -> Result<(), NoMemory>
    ensures { OnOk result
        (dictionaries.new.items ≡ dictionaries.old.items ++ dictionary ∷ []) }
{
    dictionaries.push(dictionary)?;
    Ok(())
}

/// What a fault of a dictionary is for the head.
pub(crate) fn of_dictionary(fault: DictFault, column: u16) -> HeadFault
    ensures bad { fault ≡ DictFault.BadDictionary →
        result ≡ NotASegment (part.Dictionary column) }
    ensures memory { fault ≡ DictFault.NoMemory → result ≡ HeadFault.NoMemory }
    ensures read { ¬ (result ≡ HeadFault.ReadFault) }
{
    match fault {
        DictFault::BadDictionary => HeadFault::NotASegment(Part::Dictionary(column)),
        DictFault::NoMemory => HeadFault::NoMemory,
    }
}
