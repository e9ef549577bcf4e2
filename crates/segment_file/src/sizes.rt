//! How long the sections after the head are.
ghost use Rattle.std.specs.Prelude.{◌≡◌, ◌<◌, ◌≤◌, All, List, ℕ, OnOk, IfErr, length};
ghost use Rattle.table_schema.specs.ValidTable.{IsValidTable};
ghost use Rattle.segment_file.specs.Reading.{AreRead, FitsSize, IsTailPart, SizeFails};
ghost use Rattle.segment_file.specs.Rules.{size_for, size_in};

use crate::{Part, Section, TreeNodes};
use bit_column::width_for;
use dictionary::Dictionary;
use star_file::width_of;
use table_schema::Table;

/// Whether each of these sections is as long as the rows, the dictionaries and the documents say,
/// or the first that is not.
pub fn check_sizes(
    table: &Table,
    rows: u32,
    dictionaries: &[Dictionary],
    trees: &[TreeNodes],
    sections: &[Section],
) -> Result<(), Part>
    requires valid { IsValidTable table.now }
    requires rows { rows ≤ 1048576 }
    requires dictionaries { length dictionaries.now ≡ length table.now.schema.fields }
    requires trees { length trees.now ≡ length table.now.settings.trees }
    requires parts { All (λ s. IsTailPart table.now s.part) sections.now }
    ensures ok { OnOk result ((heads : List (List ℕ)) →
        AreRead table.now rows heads dictionaries.now trees.now →
        All (FitsSize table.now rows heads) sections.now) }
    ensures bad { IfErr result (λ part. (heads : List (List ℕ)) →
        AreRead table.now rows heads dictionaries.now trees.now →
        SizeFails table.now rows heads sections.now part) }
{
    for section in sections {
        if section.place.length != size_in(table, rows, dictionaries, trees, section.part) {
            return Err(section.part);
        }
    }
    Ok(())
}

// How many bytes a section of the rows has, where its column has so many values.
fn size_for(rows: u32, count: u32, part: Part) -> u64
    requires rows { rows ≤ 1048576 }
    requires count { count ≤ 1048576 }
    ensures { result ≡ size_for rows count part }
{
    let rows = u64::from(rows);
    let values = u64::from(count);
    match part {
        Part::Forward(_) => (rows * u64::from(width_for(count)) + 7) / 8,
        Part::Sorted(_) => 8 * values,
        Part::Inverted(_) => 4 * (values + 1 + rows),
        Part::Range(_) => 4 * ((values + 15) / 16 + 1 + rows),
        _ => 0,
    }
}

// How many bytes a section after the head has.
fn size_in(
    table: &Table,
    rows: u32,
    dictionaries: &[Dictionary],
    trees: &[TreeNodes],
    part: Part,
) -> u64
    requires valid { IsValidTable table.now }
    requires rows { rows ≤ 1048576 }
    requires dictionaries { length dictionaries.now ≡ length table.now.schema.fields }
    requires trees { length trees.now ≡ length table.now.settings.trees }
    requires part { IsTailPart table.now part }
    ensures { (heads : List (List ℕ)) →
        AreRead table.now rows heads dictionaries.now trees.now →
        result ≡ size_in table.now rows heads part }
{
    if let Part::Star(tree) = part {
        let shape = &table.settings.trees.at(tree as usize).shape;
        return u64::from(trees[tree as usize].documents) * width_of(shape) as u64;
    }
    size_for(rows, dictionaries[part.owner() as usize].count(), part)
}
