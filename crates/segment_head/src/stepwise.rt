//! The head of a segment's file is opened without its dictionaries.
ghost use Rattle.std.specs.Prelude.{◌≡◌, ◌<◌, ◌+◌, ◌^◌, [], List, IfOk, IfErr, IfSome, IsErrOf, None, Some, length, map, replicate, slice_index_or, sum};
ghost use Rattle.outside.specs.Files.{bytes_of};
ghost use Rattle.outside.specs.Reads.{LogsUpTo};
ghost use Rattle.outside.specs.Seen.{OnlyReads, seen};
ghost use Rattle.segment_file.specs.Bounds.{AreBounds, bounded};
ghost use Rattle.segment_file.specs.Front.{bounds_end, extents_from, front_size};
ghost use Rattle.segment_file.specs.Names.{IsSegmentOf};
ghost use Rattle.segment_head.specs.Calls.{IsOpeningPart, OpensHead};
ghost use Rattle.segment_head.specs.Heads.{placed};
ghost use Rattle.segment_file.specs.Rules.{heads_in};
ghost use Rattle.segment_file.specs.Reading.{IsFrontOf};
ghost use Rattle.segment_file.specs.declared.bounds.Ends.{Ends};
ghost use Rattle.segment_file.specs.declared.fault.HeadFault.TheVariants.{NotASegment};
ghost use Rattle.segment_file.specs.declared.part.Part.{Part};
ghost use Rattle.segment_file.specs.declared.part.Part.TheVariants as part;

use crate::bounds::read_bounds;
use crate::check::place_sections;
use crate::{Head, NoMemory};
use outside::Shelf;
use segment_file::{Ends, FrontRead, HeadFault, Part, read_exactly, read_front, sections_of};
use std::alloc::Global;
use table_schema::{Field, Table};

/// The head of a file that is to be the segment's of this name, without dictionaries and nodes.
/// Only the front and the bounds are read and looked at; each dictionary, and the nodes of each
/// tree, are looked at when they are loaded, and the other sections not at all.
pub fn open_head<S: Shelf>(
    alloc: Global,
    shelf: &mut S,
    file: &str,
    name: &str,
    table: &Table,
) -> Result<Head, HeadFault>
    requires { IsSegmentOf table.now name.now }
    ensures { OpensHead table.now name.now file.now
        (seen S.Shelf shelf.old) (seen S.Shelf shelf.new) result }
{
    let parts = sections_of(alloc, table)?;
    let read = match read_front(alloc, shelf, file, name, table, &parts) {
        Ok(read) => read,
        Err(fault) => return Err(fault),
    };
    let bounds = match bounds_section(alloc, shelf, file, name, table, &read) {
        Ok(bounds) => bounds,
        Err(fault) => return Err(fault),
    };
    Ok(bare_head(alloc, table, file, &parts, &read, bounds)?)
}

// The head of a file with this front and these bounds, of which nothing is loaded.
fn bare_head(
    alloc: Global,
    table: &Table,
    file: &str,
    parts: &[Part],
    read: &FrontRead,
    bounds: Vec<Ends>,
) -> Result<Head, NoMemory>
    requires each { length read.now.front.sizes ≡ length parts.now }
    requires short { length read.now.bytes.items + sum read.now.front.sizes < 2 ^ 64 }
    ensures { IfOk result (λ head. head ≡ record {
      rows = read.now.front.rows;
      sections = map (placed file.now)
          (extents_from (length read.now.bytes.items) parts.now read.now.front.sizes);
      bounds = bounds.items;
      dictionaries = replicate (length table.now.schema.fields) None;
      trees = replicate (length table.now.settings.trees) None;
    }) }
{
    let start = read.bytes.len() as u64;
    let sections = place_sections(alloc, file, parts, read.front.sizes(), start)?;
    let dictionaries = unloaded(alloc, table.schema.fields.len())?;
    let trees = unloaded(alloc, table.settings.trees.len())?;
    Ok(Head::new(read.front.rows(), sections, bounds, dictionaries, trees))
}

// The bounds, which are the first section of a file with this front.
fn bounds_section<S: Shelf>(
    alloc: Global,
    shelf: &mut S,
    file: &str,
    name: &str,
    table: &Table,
    read: &FrontRead,
) -> Result<Vec<Ends>, HeadFault>
    requires front { IsFrontOf table.now name.now file.now (S.held shelf.old)
        read.now.bytes.items read.now.front }
    ensures bounds { IfOk result (λ bounds. IfSome (S.held shelf.old) (λ files.
        AreBounds (bounded read.now.front.rows table.now.schema.fields)
        (slice_index_or (heads_in table.now name.now read.now.front
        (bytes_of (Some files) file.now)) 0 []) bounds.items)) }
    ensures refused { IfErr result (λ fault. (p : Part) → fault ≡ NotASegment p →
        IfSome (S.held shelf.old) (λ files. (bounds : List Ends) →
        ¬ AreBounds (bounded read.now.front.rows table.now.schema.fields)
        (slice_index_or (heads_in table.now name.now read.now.front
        (bytes_of (Some files) file.now)) 0 []) bounds)) }
    ensures part { IfErr result (λ fault. (p : Part) → fault ≡ NotASegment p →
        IsOpeningPart p × IfSome (S.held shelf.old) (λ _. p ≡ part.Bounds)) }
    ensures only_reads { OnlyReads (IsErrOf result HeadFault.ReadFault)
        (seen S.Shelf shelf.old) (seen S.Shelf shelf.new) }
    ensures log { LogsUpTo file.now (front_size table.now name.now)
        (bounds_end table.now name.now read.now.front) (S.log shelf.old) (S.log shelf.new) }
{
    let start = read.bytes.len() as u64;
    let size = read.front.sizes()[0];
    let bytes = match read_exactly(alloc, shelf, file, start, size) {
        Ok(bytes) => bytes,
        Err(fault) => return Err(fault),
    };
    let fields = bounded(read.front.rows(), table.schema.fields.as_slice());
    match read_bounds(alloc, fields, bytes.as_slice())? {
        Some(bounds) => Ok(bounds),
        None => Err(HeadFault::NotASegment(Part::Bounds)),
    }
}

// The fields that have bounds: none where there are no rows.
fn bounded(rows: u32, fields: &[Field]) -> &[Field]
    ensures { result.now ≡ bounded rows fields.now }
{
    if rows == 0 { &[] } else { fields }
}

// Room for so many things, none of which is loaded.
fn unloaded<T: Drop>(alloc: Global, count: usize) -> Result<Vec<Option<T>>, NoMemory>
    ensures { IfOk result (λ all. all.items ≡ replicate count None) }
{
    let mut all = Vec::with_capacity(alloc, count)?;
    for _ in 0..count {
        all.push(None)?;
    }
    Ok(all)
}
