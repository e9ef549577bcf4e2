//! Values, which are whole numbers or texts: their order, tests on one value, and the places of
//! texts among those that are kept.
//! Columns of values and the rows that they are, and values read from texts.
#![tactic(auto)]

mod column;
mod columns;
mod places;
mod read;
mod row;
mod test;
mod texts;
mod value;

pub use column::Column;
pub use columns::Columns;
pub use data_types::NoMemory;
pub use places::{place, place_of_bytes};
pub use read::{MOST_TEXT_BYTES, ValueFault, read_value};
pub use row::{Row, Rows, copy_row};
pub use test::{CompareOp, Test, holds_value, may_hold, op_holds};
pub use texts::Texts;
pub use value::{Value, compare, push_text};
