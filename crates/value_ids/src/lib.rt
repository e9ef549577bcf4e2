//! Values of one sort in a list, ids of ascending ones by their places, cuts by a bound, and sets
//! of ids.
#![tactic(auto)]

mod cuts;
mod id_set;
mod id_sets;
mod mask;
mod ranks;
mod text_block;
mod value_list;

pub use cuts::{AscendingValues, Cut, compared, cut_at};
pub use id_set::IdSet;
pub use id_sets::{complement_of, intersection_of, range_of, set_of, union_of};
pub use ranks::rank_places;
pub use text_block::{TextBlock, TextPart};
pub use value_list::ValueList;
