//! One record of a CSV text becomes a row at the ends of columns, or a fault.
#![tactic(auto)]

mod cells;
mod fault;
mod layout;
mod row;

pub use cells::cell;
pub use fault::{CsvFault, CsvKind};
pub use layout::Layout;
pub use row::push_value;
