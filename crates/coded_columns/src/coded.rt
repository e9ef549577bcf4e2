//! The columns of a segment by the ids of their values.
ghost use Rattle.coded_columns.specs.IdColumns.{AreCoded};

use crate::ids::Ids;
use dictionary::Dictionary;
use values::Value;

/// A column of a segment: its distinct values, and the id of each row's value.
#[derive(Clone, Copy)]
pub struct Coded<'a> {
    pub dictionary: &'a Dictionary,
    pub ids: &'a Ids,
}

/// The columns of a segment by the numbers of their fields, as far as they are looked at, and how
/// many rows there are, each with its id in each column.
#[derive(Clone, Copy)]
pub struct SegmentColumns<'a> {
    pub columns: &'a [Option<Coded<'a>>],
    pub count: usize,
    ghost coded: { AreCoded count columns.now },
}

impl<'a> SegmentColumns<'a> {
    ghost use Rattle.std.specs.Prelude.{◌≡◌, MatchOption};
    ghost use Rattle.coded_columns.specs.Coded.{IsOfField, IsUnread, column_of};

    /// The column of a field, if it is looked at.
    pub fn column(&self, field: u16) -> Option<Coded<'a>>
        ensures { MatchOption result (IsUnread self.now field) (IsOfField self.now field) }
    {
        self.at(field)
    }

    /// The same: it is the one at that number.
    pub fn at(&self, field: u16) -> Option<Coded<'a>>
        ensures { result ≡ column_of self.now field }
    {
        match self.columns.get(usize::from(field)) {
            Some(column) => *column,
            None => None,
        }
    }
}
