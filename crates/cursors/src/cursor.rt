//! A cursor, as it is kept from call to call.

use group_table::GroupTable;
use outside::{Name, Seq};
use table_schema::BoundQuery;

/// A cursor: a query over the segments that were live when it was opened.
#[derive(Drop)]
pub struct Cursor {
    pub name: Name,
    pub query: BoundQuery,
    /// The names of the segments, ascending.
    pub segments: Seq<Name>,
    /// How many of them are answered.
    pub answered: u32,
    /// For each the published name under which its rows still stand, if any.
    pub files: Vec<Option<Name>>,
    /// Whose slots its groups have.
    pub owner: u16,
    /// The groups of the rows that are answered.
    pub groups: GroupTable,
}
