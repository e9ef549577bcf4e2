//! The sections of a segment's file that tell where each id of a column is, read: the documents of
//! ids.
#![tactic(auto)]

mod buckets;
mod documents;
mod ends;
mod fault;
mod id_bounds;
mod inverted;
mod kind;
mod laws;
mod list_size;
mod marks;
mod postings;
mod ranged;
mod runs;
mod sorted;
mod word_reading;

pub use documents::docs_of_ids;
pub use fault::ListFault;
pub use kind::ListKind;
pub use laws::{none_left_law, none_twice_law, sure_within_law};
pub use ranged::docs_between;
