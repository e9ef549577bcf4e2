//! The scan of a segment for a query: by the ids of its columns, the rows that satisfy the filter
//! are added to the groups of the query.
#![tactic(auto)]

mod answered;
mod documents;
mod laws;
mod left;
mod scan;
mod scan_laws;
mod segment;
mod whole;

pub use column_reader::IdRooms;
pub use laws::{agreement_law, image_law, index_law, readable_law};
pub use scan_laws::{least_read_law, served_law};
pub use segment::scan_segment;
