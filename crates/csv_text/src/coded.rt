//! Columns by the places of their values.

use dictionary::Dictionary;
use row_ids::RowIds;

/// A column: the dictionary of its values, and for each row the place of its own among them.
#[derive(Drop)]
pub struct CodedColumn<'a> {
    pub dictionary: &'a Dictionary,
    pub ids: RowIds,
}
