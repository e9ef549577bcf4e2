//! The scan of rows by the ids of their columns: a condition is tested once on each distinct value,
//! rows of one key come into one slot, and what a slot holds is merged into the groups of a query.
//! Conditions on rows by their ids, and marks of the rows that they let through. The slots of rows
//! are merged into the groups of a query.
#![tactic(auto)]

mod adding;
mod block;
mod block_marks;
mod coded_filter;
mod filtered_rows;
mod guesses;
mod id_run;
mod keyed_scan;
mod marked_places;
mod marking;
mod merging;
mod row_filter;
mod selection;
mod words;

pub use adding::add_coded;
