//! A segment of a table is opened for a query: its head, and the dictionaries that the query wants;
//! what a query reads of the file of a segment.
#![tactic(auto)]

mod asked;
mod emptied;
mod found;
mod loaded;
mod loading;
mod opening;
mod small;
mod tests;
mod wanted;

pub use asked::Found;
pub use loaded::Loaded;
pub use loading::{load_detailed, load_or_look_up};
pub use opening::open_segment;
