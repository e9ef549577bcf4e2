//! The ids of the columns of a segment, read from its file: whole, or of some documents.
#![tactic(auto)]

mod column;
mod columns;
mod fault;
mod picking;
mod reading;
mod rooms;

pub use columns::read_columns;
pub use picking::pick_columns;
pub use rooms::IdRooms;
