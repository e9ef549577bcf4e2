//! The scan of rows for a query: those that satisfy its filter are added to its groups.
#![tactic(auto)]

mod block;
mod fold;
mod holds;
mod number_block;
mod places;
mod row_by_row;
mod run;
mod selection;

pub use block::add_block;
