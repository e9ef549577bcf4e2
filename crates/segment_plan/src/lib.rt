//! What is to be done with a segment for a query, by its head alone.
#![tactic(auto)]

mod choice;
mod explained;
mod laws;
mod matching;
mod named;
mod planning;
mod plans;
mod pruning;
mod serving;
mod split_factors;

pub use choice::{are_consecutive, choices};
pub use data_types::NoMemory;
pub use explained::{push_plan, push_word};
pub use laws::{
    empty_law, explained_law, factors_over_law, head_tells_law, one_factors_law, one_plan_law,
    plan_over_law, pruned_law,
};
pub use matching::{is_filtered, is_on};
pub use named::named_columns;
pub use planning::plan;
pub use plans::{IndexChoice, ScanPlan, SegmentPlan};
pub use pruning::prune;
pub use serving::{choice_at, is_served, sure_choices};
pub use split_factors::factors;
