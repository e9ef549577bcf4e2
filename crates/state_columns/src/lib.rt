//! Rows and columns of the states of aggregates, the documents of a star-tree, and their
//! combinations of ids: starred, compared, packed in words and grouped.
#![tactic(auto)]

mod column_list;
mod grouping;
mod id_list;
mod lists;
mod packing;
mod star_row;
mod starred_ids;
mod state_column;
mod state_row;

pub use column_list::{
    add_values_at, merge_places, new_columns, push_copies, push_states, push_values,
    reserve_columns, tail_columns,
};
pub use grouping::{
    Groups, Parts, combinations, first_numbers, slots_of, split_words, word_key, word_place,
};
pub use id_list::{Ids, STAR};
pub use lists::{put_again, put_all, tail_of};
pub use packing::{Span, packed, places};
pub use star_row::StarRow;
pub use starred_ids::{compare_starred, compare_to};
pub use state_column::StateColumn;
pub use state_row::StateRow;
