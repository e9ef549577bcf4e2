//! The dictionary of a column: its distinct values in ascending order, whose places are their ids.
#![tactic(auto)]

mod check;
mod coded;
mod dictionary;
mod fault;
mod keyed;
mod laws;
mod listing;
mod matching;
mod number_index;
mod number_range;
mod piecewise;
mod ranking;
mod spelling;
mod text_order;
mod whole_numbers;
mod word_order;

pub use dictionary::{Dictionary, MOST_VALUES};
pub use fault::DictFault;
pub use laws::{distinct_law, spells_one_law};
pub use piecewise::push_numbers;
pub use whole_numbers::{is_in_range, number_of};
