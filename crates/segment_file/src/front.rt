//! The front of a segment's file: the header and the directory.
ghost use Rattle.std.specs.Prelude.{◌≡◌, ◌≢◌, ◌≤◌, ◌<◌, ◌+◌, ◌*◌, ◌^◌, ◌++◌, length, sum, take, drop, MatchBool, MatchOption, IfOk, OnOk};
ghost use Rattle.std.specs.Int.{w32, from_be_bytes};
ghost use Rattle.table_schema.specs.ValidTable.{IsValidTable};
ghost use Rattle.segment_file.specs.Front as spec;
ghost use Rattle.segment_file.specs.Front.{directory, extent_bytes, extents_from, file_end, front_bytes, counts_bytes, title_bytes};
ghost use Rattle.segment_file.specs.Names.{IsSegmentName};
ghost use Rattle.segment_file.specs.Parts.{head_sections, sections_of};
ghost use Rattle.segment_file.specs.Rules.{IsFront};
ghost use Rattle.segment_file.specs.Reading.{sizes_from};

use crate::numbers::{eight_at, four_at, push_eight, push_four, push_two};
use crate::{NoMemory, Part};
use std::alloc::Global;
use std::marker::Model;
use table_schema::{Table, most_rows};

const MAGIC: &[u8] = b"STARSEG1";

const FORMAT: u32 = 1;

/// The bytes of a header beside the name.
const HEADER_SIZE: usize = 38;

/// The bytes of an entry of the directory.
const ENTRY_SIZE: usize = 19;

/// What the front of a file says: how many rows there are, and how many bytes each section has.
#[derive(Drop)]
pub struct Front {
    rows: u32,
    sizes: Vec<u64>,
}

impl Model for Front {
    ghost use Rattle.segment_file.specs.Front.{Front};

    ghost Value = { Front };

    ghost view = { λ f. record { format = 1; rows = f.rows; sizes = f.sizes.items } };
}

/// How many bytes the front has.
pub fn front_size(name: &str, sections: &[Part]) -> usize
    requires name { length name.now ≤ 64 }
    requires sections { length sections.now ≤ 512 }
    ensures { result ≡ 38 + length name.now + 19 * length sections.now }
{
    HEADER_SIZE + name.len() + ENTRY_SIZE * sections.len()
}

impl Front {
    pub fn new(rows: u32, sizes: Vec<u64>) -> Self
        ensures { result ≡ record { format = 1; rows = rows; sizes = sizes.items } }
    {
        Front { rows, sizes }
    }

    pub fn rows(&self) -> u32
        ensures { result ≡ self.now.rows }
    {
        self.rows
    }

    pub fn sizes(&self) -> &[u64]
        ensures { result.now ≡ self.now.sizes }
    {
        self.sizes.as_slice()
    }

    /// How many bytes the sections of the head have together.
    pub(crate) fn head_size(&self, table: &Table) -> u64
        requires some { length table.now.schema.fields + length table.now.settings.trees
            < length self.now.sizes }
        requires short { sum self.now.sizes < 2 ^ 64 }
        ensures { result ≡ sum (take (length (head_sections table.now)) self.now.sizes) }
    {
        total(&self.sizes[..=table.schema.fields.len() + table.settings.trees.len()])
    }

    /// The bytes of the front of a file with these sections.
    pub fn write(
        &self,
        alloc: Global,
        table: &Table,
        name: &str,
        sections: &[Part],
    ) -> Result<Vec<u8>, NoMemory>
        requires valid { IsValidTable table.now }
        requires name { IsSegmentName name.now }
        requires sections { sections.now ≡ sections_of table.now }
        requires each { length self.now.sizes ≡ length sections.now }
        requires short { file_end table.now name.now self.now < 2 ^ 64 }
        ensures { IfOk result (λ bytes. bytes.items ≡ front_bytes table.now name.now self.now) }
    {
        let fields = table.schema.fields.len();
        let start = front_size(name, sections);
        let head_end = start as u64 + self.head_size(table);
        let file_end = start as u64 + total(&self.sizes);
        let mut out = Vec::with_capacity(alloc, start)?;
        push_title(self, name, &mut out)?;
        push_counts(
            fields as u16,
            sections.len() as u16,
            (head_end, file_end),
            &mut out,
        )?;
        push_directory(sections, &self.sizes, start as u64, &mut out)?;
        Ok(out)
    }

    /// What the front says that these bytes are, if they are one, of a file of so many bytes. It is
    /// written again and compared.
    pub fn read(
        alloc: Global,
        table: &Table,
        name: &str,
        sections: &[Part],
        bytes: &[u8],
        file_size: u64,
    ) -> Result<Option<Front>, NoMemory>
        requires valid { IsValidTable table.now }
        requires name { IsSegmentName name.now }
        requires sections { sections.now ≡ sections_of table.now }
        requires size { length bytes.now ≡ spec.front_size table.now name.now }
        ensures { IfOk result (λ read. MatchOption read
            ((front : spec.Front) → ¬ IsFront table.now name.now bytes.now file_size front)
            (IsFront table.now name.now bytes.now file_size)) }
    {
        let rows = four_at(bytes, 12);
        let sizes = sizes_in(alloc, sections, &bytes[HEADER_SIZE + name.len()..])?;
        let front = Front::new(rows, sizes);
        if rows > most_rows(table.schema.fields.len()) {
            return Ok(None);
        }
        if !front.ends_at(bytes.len(), file_size) {
            return Ok(None);
        }
        let written = front.write(alloc, table, name, sections)?;
        if written.as_slice() == bytes {
            Ok(Some(front))
        } else {
            Ok(None)
        }
    }

    // Whether the sections end there, if they begin at the other place.
    fn ends_at(&self, start: usize, end: u64) -> bool
        ensures { MatchBool result (start + sum self.now.sizes ≡ end)
            (start + sum self.now.sizes ≢ end) }
    {
        let mut offset = start as u64;
        for size in &self.sizes {
            match offset.checked_add(*size) {
                Some(next) => offset = next,
                None => return false,
            }
        }
        offset == end
    }
}

fn total(sizes: &[u64]) -> u64
    requires { sum sizes.now < 2 ^ 64 }
    ensures { result ≡ sum sizes.now }
{
    sizes.iter().sum()
}

// How long each section is, as the last eight bytes of its entry say.
fn sizes_in(alloc: Global, sections: &[Part], directory: &[u8]) -> Result<Vec<u64>, NoMemory>
    requires { length directory.now ≡ 19 * length sections.now }
    ensures { IfOk result (λ sizes. sizes.items ≡ sizes_from sections.now directory.now) }
{
    let mut sizes = Vec::with_capacity(alloc, sections.len())?;
    for at in 0..sections.len() {
        sizes.push(eight_at(directory, ENTRY_SIZE * at + 11))?;
    }
    Ok(sizes)
}

// Appends what the file is, its format, rows and name.
fn push_title(front: &Front, name: &str, out: &mut Vec<u8>) -> Result<(), NoMemory>
    requires { length name.now ≤ 64 }
    ensures { OnOk result (out.new.items ≡ out.old.items ++ title_bytes front.now name.now) }
{
    out.extend_from_slice(MAGIC)?;
    push_four(FORMAT, out)?;
    push_four(front.rows, out)?;
    push_two(name.len() as u16, out)?;
    out.extend_from_slice(name.as_bytes())
}

// Appends how many fields and sections there are, and where the head and the file end.
fn push_counts(
    fields: u16,
    sections: u16,
    ends: (u64, u64),
    out: &mut Vec<u8>,
) -> Result<(), NoMemory>
    ensures { OnOk result (out.new.items ≡ out.old.items
        ++ counts_bytes fields sections ends.0 ends.1) }
{
    push_two(fields, out)?;
    push_two(sections, out)?;
    push_eight(ends.0, out)?;
    push_eight(ends.1, out)
}

// Appends the entries of sections that begin at a place, one after the other.
fn push_directory(
    sections: &[Part],
    sizes: &[u64],
    start: u64,
    out: &mut Vec<u8>,
) -> Result<(), NoMemory>
    requires each { length sizes.now ≡ length sections.now }
    requires short { start + sum sizes.now < 2 ^ 64 }
    ensures { OnOk result (out.new.items ≡ out.old.items
        ++ directory (extents_from start sections.now sizes.now)) }
{
    let mut offset = start;
    for at in 0..sections.len() {
        push_entry(sections[at], offset, sizes[at], out)?;
        offset += sizes[at];
    }
    Ok(())
}

fn push_entry(section: Part, offset: u64, size: u64, out: &mut Vec<u8>) -> Result<(), NoMemory>
    ensures { OnOk result (out.new.items ≡ out.old.items
        ++ extent_bytes (record { part = section; offset = offset; size = size })) }
{
    out.push(section.kind())?;
    push_two(section.owner(), out)?;
    push_eight(offset, out)?;
    push_eight(size, out)
}
