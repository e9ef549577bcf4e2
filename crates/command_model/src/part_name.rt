//! The refusal of a segment's file, and the parts of files as note lines print them.
ghost use Rattle.std.specs.Prelude.{◌≡◌, ◌++◌, ◌+◌, IfOk, slice_get};
ghost use Rattle.std.specs.Fmt.{decimal};
ghost use Rattle.command_model.specs.Gives.{IsHeadStop, IsSegmentStop};
ghost use Rattle.command_model.specs.Stored.{field_name, part_text};

use command_words::{Fault, Note, Stop};
use outside::Seq;
use segment_file::{HeadFault, Part};
use std::alloc::{AllocError, Global};
use table_schema::{Field, Table};

/// The refusal of the file of a segment of the table for a part of it.
pub fn segment_stop(alloc: Global, table: &Table, name: &str, part: Part) -> Stop
    ensures { IsSegmentStop name.now table.now.schema.fields part result }
{
    match not_a_segment(alloc, table, name, part) {
        Ok(note) => Stop::Refused(note),
        Err(_) => Stop::Fault(Fault::Memory),
    }
}

/// What a fault of the file of a segment of the table is for a command.
pub fn head_stop(alloc: Global, table: &Table, name: &str, fault: HeadFault) -> Stop
    ensures { IsHeadStop name.now table.now.schema.fields fault result }
{
    match fault {
        HeadFault::NotASegment(part) => segment_stop(alloc, table, name, part),
        HeadFault::ReadFault => Stop::Fault(Fault::Read),
        HeadFault::NoMemory => Stop::Fault(Fault::Memory),
    }
}

// The note of such a refusal.
fn not_a_segment(alloc: Global, table: &Table, name: &str, part: Part) -> Result<Note, AllocError>
    ensures { IfOk result (λ note. note
        ≡ Note.NotASegment name.now (part_text table.now.schema.fields part)) }
{
    let part = part_text(alloc, table.schema.fields.as_slice(), part)?;
    let name = name.as_bytes().to_vec(alloc)?;
    Ok(Note::NotASegment(Seq::from_vec(name), Seq::from_vec(part)))
}

// The name of a part of a stored file of a table with these fields.
fn part_text(alloc: Global, fields: &[Field], part: Part) -> Result<Vec<u8>, AllocError>
    ensures { IfOk result (λ text. text.items ≡ part_text fields.now part) }
{
    match part {
        Part::Table => b"table".to_vec(alloc),
        Part::Head => b"head".to_vec(alloc),
        Part::Bounds => b"bounds".to_vec(alloc),
        Part::Dictionary(column) => of_field(alloc, b"dictionary ", fields, column),
        Part::Nodes(tree) => of_tree(alloc, b"nodes ", tree),
        Part::Forward(column) => of_field(alloc, b"forward ", fields, column),
        Part::Sorted(column) => of_field(alloc, b"sorted ", fields, column),
        Part::Inverted(column) => of_field(alloc, b"inverted ", fields, column),
        Part::Range(column) => of_field(alloc, b"range ", fields, column),
        Part::Star(tree) => of_tree(alloc, b"star ", tree),
    }
}

// The word, and the name of a field.
fn of_field(
    alloc: Global,
    word: &[u8],
    fields: &[Field],
    column: u16,
) -> Result<Vec<u8>, AllocError>
    ensures { IfOk result (λ text. text.items
        ≡ word.now ++ field_name (slice_get fields.now column)) }
{
    let mut text = word.to_vec(alloc)?;
    if let Some(field) = fields.get(column as usize) {
        text.extend_from_slice(field.name.as_slice())?;
    }
    Ok(text)
}

// The word, and the number of a tree, from 1.
fn of_tree(alloc: Global, word: &[u8], tree: u8) -> Result<Vec<u8>, AllocError>
    ensures { IfOk result (λ text. text.items ≡ word.now ++ decimal (tree + 1)) }
{
    let mut text = word.to_vec(alloc)?;
    let number = (u64::from(tree) + 1).to_string(alloc)?;
    text.extend_from_slice(number.as_bytes())?;
    Ok(text)
}
