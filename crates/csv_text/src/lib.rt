//! The CSV text of rows, as the crate `csv` writes it: the names of the fields, and a record a row.
//! What is written of a value is made once, and a row is slices of it.
#![tactic(auto)]

mod cells;
mod coded;
mod field;
mod laws;
mod putting;
mod rows;

pub use coded::CodedColumn;
pub use laws::reads_back_law;
pub use rows::coded_text;
