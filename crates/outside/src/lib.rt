//! The outside of the program: folders of files that are read and written, and streams of bytes
//! that are written, as traits over the lists and names of values. The reading of files:
//! some bytes of one, or the whole.
#![tactic(auto)]

mod depot;
mod laws;
mod place;
mod reading;
mod shelf;
mod sink;
mod whole;

pub use data_types::{Bytes, Name, NoMemory, Seq};
pub use depot::{Depot, DepotFault};
pub use laws::{reads_add_up, rises_compose};
pub use place::Place;
pub use reading::{past_all, read_bytes, read_into};
pub use shelf::{ReadResult, Shelf, ShelfFault};
pub use sink::{Sink, SinkFault};
pub use whole::{ReadAllFault, read_all};
