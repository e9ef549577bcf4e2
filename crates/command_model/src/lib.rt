//! The step of each command, and what commands read: the input files, and what a store has.
#![tactic(auto)]

mod image;
mod input;
mod laws;
mod new_table;
mod part_name;
mod rows;
mod store;

pub use csv_ingest::CSV_LIMIT;
pub use image::read_image;
pub use input::read_input;
pub use laws::{dump_build_law, may_write_law};
pub use new_table::{MOST_GENERATED, NewTable, own_table, read_table};
pub use part_name::{head_stop, segment_stop};
pub use rows::{csv_columns, read_rows};
pub use store::{no_segment, said_of, stored_names, stored_table, table_with_place};
