//! Ascending lists of documents, which are rows by their places in a segment, sets of them, and
//! what two sets have in common or apart.
#![tactic(auto)]

mod doc_list;
mod doc_set;
mod marks;
mod run;
mod sets;

pub use data_types::NoMemory;
pub use doc_list::DocList;
pub use doc_set::{DocSet, join, meet, parted, without};
pub use run::Run;
