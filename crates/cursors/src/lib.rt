//! Cursors over the segments of a store: a query over those that were live when it was opened, with
//! groups of its own in a pool, which answers one segment after the other where its rows stand, and
//! is as it was where it cannot.
#![tactic(auto)]

mod adding;
mod answering;
mod cursor;
mod opening;
mod places;

pub use answering::answer_to;
pub use cursor::Cursor;
pub use opening::{cursor_pool, new_cursor};
pub use places::{MOST_CURSOR_GROUPS, MOST_CURSORS, free_owner, place_of};
