//! The ids of some rows in a column.
ghost use Rattle.std.specs.Prelude.{◌≤◌, length};
ghost use Rattle.value_ids.specs.Coding.{AreBelow};
ghost use Rattle.coded_columns.specs.Coded.{most_rows};

use crate::ids::Ids;

/// Some rows by their places, and the ids of a column, of which there are so many as its width.
#[derive(Clone, Copy)]
pub struct PlacedIds<'a> {
    pub places: &'a [u32],
    pub ids: &'a Ids,
    pub width: usize,
    ghost rows: { AreBelow (length ids.now) places.now },
    ghost below: { AreBelow width ids.now },
    ghost at_most: { length places.now ≤ most_rows },
    ghost few_ids: { width ≤ most_rows },
}
