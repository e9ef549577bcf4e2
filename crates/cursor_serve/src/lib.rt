//! Cursors over the segments of a table, interleaved with segments that are built, dropped and
//! replaced: what each of them prints is that of its own query over the segments that were live at
//! its open.
#![tactic(auto)]

mod laws;

pub use laws::{
    fetched_law, numbered_law, numbered_start_law, sound_law, sound_start_law, start_stands_law,
};
