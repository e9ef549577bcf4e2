//! The file of a segment: its image, its front, and what its sections are.
#![tactic(auto)]

mod bounds;
mod fault;
mod front;
mod laws;
mod name;
mod numbers;
mod opening;
mod part;
mod reading;
mod section;
mod sections;
mod sizes;
mod trees;

pub use bounds::{Ends, push_ends};
pub use fault::HeadFault;
pub use front::{Front, front_size};
pub use laws::{head_rules_law, image_keeps_law, image_spells_law, images_tell_law};
pub use name::{is_segment_name, segment_file_name};
pub use numbers::four_at;
pub use opening::{FrontRead, read_front, read_rest};
pub use outside::NoMemory;
pub use part::Part;
pub use reading::{fill_exactly, read_exactly};
pub use section::Section;
pub use sections::sections_of;
pub use sizes::check_sizes;
pub use trees::{TreeNodes, check_tree};
