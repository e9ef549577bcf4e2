//! Which sections a table's segments have.
ghost use Rattle.std.specs.Prelude.{◌≡◌, ◌≤◌, ◌++◌, length, map, IfOk, OnOk};
ghost use Rattle.std.specs.List.{range_with_len};
ghost use Rattle.table_schema.specs.ValidTable.{IsValidTable};
ghost use Rattle.segment_file.specs.Parts.{marked, sections_of};

use crate::{NoMemory, Part};
use std::alloc::Global;
use table_schema::Table;

/// The sections of a table's segments, in the order of the file.
pub fn sections_of(alloc: Global, table: &Table) -> Result<Vec<Part>, NoMemory>
    requires { IsValidTable table.now }
    ensures { IfOk result (λ parts. parts.items ≡ sections_of table.now) }
{
    let columns = table.schema.fields.len();
    let trees = table.settings.trees.len();
    let mut parts = Vec::with_capacity(alloc, 1 + 2 * columns + 2 * trees)?;
    parts.push(Part::Bounds)?;
    push_dictionaries(columns, &mut parts)?;
    push_nodes(trees, &mut parts)?;
    push_forwards(columns, &mut parts)?;
    if let Some(column) = table.settings.sorted {
        parts.push(Part::Sorted(column))?;
    }
    push_inverted(table.settings.inverted.as_slice(), &mut parts)?;
    push_ranges(table.settings.ranged.as_slice(), &mut parts)?;
    push_stars(trees, &mut parts)?;
    Ok(parts)
}

fn push_dictionaries(columns: usize, parts: &mut Vec<Part>) -> Result<(), NoMemory>
    requires { columns ≤ 64 }
    ensures { OnOk result
        (parts.new.items ≡ parts.old.items ++ map Part.Dictionary (range_with_len 0 columns)) }
{
    for column in 0..columns {
        parts.push(Part::Dictionary(column as u16))?;
    }
    Ok(())
}

fn push_nodes(trees: usize, parts: &mut Vec<Part>) -> Result<(), NoMemory>
    requires { trees ≤ 8 }
    ensures { OnOk result
        (parts.new.items ≡ parts.old.items ++ map Part.Nodes (range_with_len 0 trees)) }
{
    for tree in 0..trees {
        parts.push(Part::Nodes(tree as u8))?;
    }
    Ok(())
}

fn push_stars(trees: usize, parts: &mut Vec<Part>) -> Result<(), NoMemory>
    requires { trees ≤ 8 }
    ensures { OnOk result
        (parts.new.items ≡ parts.old.items ++ map Part.Star (range_with_len 0 trees)) }
{
    for tree in 0..trees {
        parts.push(Part::Star(tree as u8))?;
    }
    Ok(())
}

fn push_forwards(columns: usize, parts: &mut Vec<Part>) -> Result<(), NoMemory>
    requires { columns ≤ 64 }
    ensures { OnOk result
        (parts.new.items ≡ parts.old.items ++ map Part.Forward (range_with_len 0 columns)) }
{
    for column in 0..columns {
        parts.push(Part::Forward(column as u16))?;
    }
    Ok(())
}

fn push_inverted(marks: &[bool], parts: &mut Vec<Part>) -> Result<(), NoMemory>
    requires { length marks.now ≤ 64 }
    ensures { OnOk result
        (parts.new.items ≡ parts.old.items ++ map Part.Inverted (marked marks.now)) }
{
    for (column, mark) in marks.iter().enumerate() {
        if *mark {
            parts.push(Part::Inverted(column as u16))?;
        }
    }
    Ok(())
}

fn push_ranges(marks: &[bool], parts: &mut Vec<Part>) -> Result<(), NoMemory>
    requires { length marks.now ≤ 64 }
    ensures { OnOk result
        (parts.new.items ≡ parts.old.items ++ map Part.Range (marked marks.now)) }
{
    for (column, mark) in marks.iter().enumerate() {
        if *mark {
            parts.push(Part::Range(column as u16))?;
        }
    }
    Ok(())
}
