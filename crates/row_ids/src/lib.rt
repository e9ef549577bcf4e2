//! The id of the value that each row of a column has, in as few bytes as it takes.
#![tactic(auto)]

mod copying;
mod row_ids;

pub use row_ids::RowIds;
