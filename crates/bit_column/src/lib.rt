//! The forward index of a column: the ids of its rows in a fixed number of bits each, written and
//! read; and how the places of each id stand in the sections of its other indexes.
#![tactic(auto)]

mod bits;
mod eights;
mod fault;
mod file_part;
mod id_range;
mod lanes;
mod laws;
mod long_eights;
mod narrow_ids;
mod narrow_lanes;
mod narrowing;
mod part;
mod range;
mod range_bytes;
mod reading;
mod testing;
mod unpacking;
mod width;
mod words;
mod writing;

pub use fault::ColumnFault;
pub use id_range::IdRange;
pub use laws::{postings_read_back, reads_back, sorted_reads_back, widths_are_least};
pub use narrow_ids::NarrowIds;
pub use range::{append_narrow, append_range, read_range};
pub use range_bytes::read_bytes;
pub use reading::at;
pub use unpacking::{put_ids, unpack};
pub use width::{Width, width_for};
pub use writing::write;
