//! The bytes of a head are looked at.
ghost use Rattle.std.specs.Prelude.{◌≡◌, ◌≤◌, ◌<◌, ◌+◌, ◌^◌, List, ℕ, take, drop, map, length, sum, Some, IfOk, IfErr, IsErrOf, MatchBool, OnOk, ◌≢◌, ◌++◌};
ghost use Rattle.segment_file.specs.Bounds.{bounds_bytes, bounds_of, ends_of};
ghost use Rattle.segment_file.specs.Front.{extents_from, head_end};
ghost use Rattle.segment_head.specs.Calls.{MayBeFront};
ghost use Rattle.segment_head.specs.Heads.{IsHead, IsPlaced, placed};
ghost use Rattle.segment_file.specs.Rules.{FailsAt, HasFront};
ghost use Rattle.segment_file.specs.declared.part.Part.{Part};
ghost use Rattle.segment_file.specs.declared.fault.HeadFault.TheVariants.{NotASegment};

use crate::bounds::push_bounds;
use crate::dictionaries::{check_dictionaries, section_bytes};
use crate::trees::check_trees;
use crate::{Head, NoMemory};
use dictionary::Dictionary;
use outside::{Name, Place};
use segment_file::{Ends, Front, HeadFault, Part, Section, TreeNodes, check_sizes, front_size};
use std::alloc::Global;
use table_schema::Table;

/// The head of a file with this front, whose bytes up to the end of the head these are.
pub fn check_head(
    alloc: Global,
    table: &Table,
    file: &str,
    name: &str,
    front: &Front,
    parts: &[Part],
    bytes: &[u8],
) -> Result<Head, HeadFault>
    requires { MayBeFront table.now name.now front.now parts.now }
    ensures ok { IfOk result (λ head. (whole : List ℕ) →
        HasFront table.now name.now whole front.now →
        bytes.now ≡ take (head_end table.now name.now front.now) whole →
        IsHead table.now name.now file.now whole head) }
    ensures placed { IfOk result
        (IsPlaced table.now name.now file.now front.now) }
    ensures bad { IfErr result (λ fault. (p : Part) → fault ≡ NotASegment p → (whole : List ℕ) →
        HasFront table.now name.now whole front.now →
        bytes.now ≡ take (head_end table.now name.now front.now) whole →
        FailsAt table.now name.now whole p) }
    ensures read { ¬ IsErrOf result HeadFault.ReadFault }
{
    let start = front_size(name, parts) as u64;
    let sections = place_sections(alloc, file, parts, front.sizes(), start)?;
    let dictionaries = match check_dictionaries(alloc, table, front.rows(), &sections, bytes) {
        Ok(dictionaries) => dictionaries,
        Err(fault) => return Err(fault),
    };
    if !has_bounds(alloc, &dictionaries, section_bytes(bytes, &sections[0]))? {
        return Err(HeadFault::NotASegment(Part::Bounds));
    }
    let trees = match check_trees(alloc, table, front.rows(), &dictionaries, &sections, bytes) {
        Ok(trees) => trees,
        Err(fault) => return Err(fault),
    };
    let heads = table.schema.fields.len() + 1 + table.settings.trees.len();
    let tail = sections_after(&sections, heads);
    if let Err(part) = check_sizes(table, front.rows(), &dictionaries, &trees, tail) {
        return Err(HeadFault::NotASegment(part));
    }
    Ok(whole_head(alloc, front.rows(), sections, dictionaries, trees)?)
}

// The head with these sections, of which all is loaded.
fn whole_head(
    alloc: Global,
    rows: u32,
    sections: Vec<Section>,
    dictionaries: Vec<Dictionary>,
    trees: Vec<TreeNodes>,
) -> Result<Head, NoMemory>
    ensures { IfOk result (λ head. head ≡ record {
      rows = rows;
      sections = sections.items;
      bounds = bounds_of dictionaries.items;
      dictionaries = map Some dictionaries.items;
      trees = map Some trees.items;
    }) }
{
    let bounds = all_bounds(alloc, &dictionaries)?;
    let dictionaries = loaded(alloc, dictionaries)?;
    let trees = loaded(alloc, trees)?;
    Ok(Head::new(rows, sections, bounds, dictionaries, trees))
}

// The sections after the first so many.
fn sections_after(sections: &[Section], count: usize) -> &[Section]
    requires { count ≤ length sections.now }
    ensures { result.now ≡ drop count sections.now }
{
    &sections[count..]
}

/// Sections that begin at a place of a file, one after the other.
pub(crate) fn place_sections(
    alloc: Global,
    file: &str,
    parts: &[Part],
    sizes: &[u64],
    start: u64,
) -> Result<Vec<Section>, NoMemory>
    requires each { length sizes.now ≡ length parts.now }
    requires short { start + sum sizes.now < 2 ^ 64 }
    ensures { IfOk result (λ sections. sections.items
        ≡ map (placed file.now) (extents_from start parts.now sizes.now)) }
{
    let mut sections = Vec::with_capacity(alloc, parts.len())?;
    let mut offset = start;
    for at in 0..parts.len() {
        let section = placed(alloc, file, parts[at], offset, sizes[at])?;
        sections.push(section)?;
        offset += sizes[at];
    }
    Ok(sections)
}

// A section of so many bytes that begins at a place of a file.
fn placed(
    alloc: Global,
    file: &str,
    part: Part,
    offset: u64,
    length: u64,
) -> Result<Section, NoMemory>
    ensures { IfOk result (λ section. section
        ≡ placed file.now (record { part = part; offset = offset; size = length })) }
{
    let file = Name::from_text(alloc, file)?;
    let place = Place {
        file,
        offset,
        length,
    };
    Ok(Section { part, place })
}

// Whether the bytes are the bounds of columns with these dictionaries.
fn has_bounds(alloc: Global, dictionaries: &[Dictionary], bytes: &[u8]) -> Result<bool, NoMemory>
    ensures { IfOk result (λ has. MatchBool has
        (bytes.now ≡ bounds_bytes (bounds_of dictionaries.now))
        (bytes.now ≢ bounds_bytes (bounds_of dictionaries.now))) }
{
    let mut written = Vec::new(alloc);
    push_bounds(alloc, dictionaries, &mut written)?;
    Ok(written.as_slice() == bytes)
}

// The bounds of columns with these dictionaries.
fn all_bounds(alloc: Global, dictionaries: &[Dictionary]) -> Result<Vec<Ends>, NoMemory>
    ensures { IfOk result (λ bounds. bounds.items ≡ bounds_of dictionaries.now) }
{
    let mut bounds = Vec::with_capacity(alloc, dictionaries.len())?;
    for dictionary in dictionaries {
        keep_ends(alloc, dictionary, &mut bounds)?;
    }
    Ok(bounds)
}

// Adds the least and the greatest value, if there are values.
fn keep_ends(alloc: Global, dictionary: &Dictionary, bounds: &mut Vec<Ends>) -> Result<(), NoMemory>
    ensures { OnOk result (bounds.new.items ≡ bounds.old.items ++ ends_of dictionary.now.values) }
{
    let count = dictionary.count();
    if count == 0 {
        return Ok(());
    }
    let least = dictionary.value_at(alloc, 0)?;
    let greatest = dictionary.value_at(alloc, count - 1)?;
    bounds.push(Ends { least, greatest })?;
    Ok(())
}

// Things as those that were loaded.
fn loaded<T: Drop>(alloc: Global, things: Vec<T>) -> Result<Vec<Option<T>>, NoMemory>
    ensures { IfOk result (λ all. all.items ≡ map Some things.items) }
{
    things.into_iter().map(Some).collect(alloc)
}
