//! The rows of a CSV text, or the first thing that is wrong with it.
#![tactic(auto)]

mod blocks;
mod digits;
mod first_line;
mod header;
mod kept_columns;
mod laws;
mod limits;
mod lines;
mod marks;
mod numbers;
mod part_columns;
mod parts;
mod plain;
mod records;
mod rows;
mod schema_rows;

pub use blocks::{NumberBlocks, NumberHeader, number_blocks};
pub use csv_row::{CsvFault, CsvKind};
pub use laws::{defaults_law, rows_law, unicode_law};
pub use limits::CSV_LIMIT;
pub use numbers::{read_number_columns, read_number_rows};
pub use schema_rows::{read_columns, read_rows};
