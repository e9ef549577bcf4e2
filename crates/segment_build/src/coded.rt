//! Columns of rows by the ids of their values.
ghost use Rattle.std.specs.Prelude.{◌≡◌};
ghost use Rattle.segment_build.specs.Coded.{dictionary_in};

use crate::ColumnIds;
use dictionary::Dictionary;

/// A dictionary that is lent, or one of the column's own.
#[derive(Drop)]
pub enum ColumnValues<'a> {
    Lent(&'a Dictionary),
    Own(Dictionary),
}

impl<'a> ColumnValues<'a> {
    /// The dictionary.
    pub fn dictionary(&self) -> &Dictionary
        ensures { result.now ≡ dictionary_in self.now }
    {
        match self {
            ColumnValues::Lent(dictionary) => dictionary,
            ColumnValues::Own(dictionary) => dictionary,
        }
    }
}

/// A column of rows: its distinct values, each of which some row has, and the id of each row's, in
/// the order in which the rows came.
#[derive(Drop)]
pub struct CodedColumn<'a> {
    pub values: ColumnValues<'a>,
    pub ids: ColumnIds,
}

/// Rows that are kept column by column, as ids.
#[derive(Drop)]
pub struct CodedColumns<'a> {
    pub columns: Vec<CodedColumn<'a>>,
    pub rows: u32,
}
