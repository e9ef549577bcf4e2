//! The table of a store: its file, which is made of two texts, and why a call on a store is
//! refused. The segments of a store by their names, and whether there is a place for one more. The
//! state that the files of a store stand for: its table is opened, and segments are put in, looked
//! at whole, replaced and dropped. The file of a segment that is still read is kept meanwhile.
#![tactic(auto)]

mod checking;
mod create;
mod dropping;
mod fault;
mod keeping;
mod laws;
mod open;
mod publishing;
mod segments;
mod table_file;

pub use checking::{count_segment, spell_segment};
pub use create::{create_table, has_table};
pub use dropping::drop_segment;
pub use fault::StoreFault;
pub use keeping::{is_kept_name, keep_segment, remove_kept};
pub use laws::{
    create_stands_law, drop_stands_law, empty_stands_law, kept_idle_law, kept_stay_law,
    names_count_law, names_stand_law, one_state_law, replace_stands_law, segment_stands_law,
    table_stands_law,
};
pub use open::open_table;
pub use publishing::{publish_segment, replace_segment};
pub use segment_check::check_columns;
pub use segment_file::Part;
pub use segments::{MOST_SEGMENTS, find_room, holds_segment, segment_names};
pub use table_file::{FILE_LIMIT, NAME, TEXT_LIMIT, texts_of};
