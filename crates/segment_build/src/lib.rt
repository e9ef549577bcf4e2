//! A segment's file is made of the columns of its rows.
//! The columns of a segment's rows, and what is made of each: its ids in the order of the rows, its
//! sections, and the numbers of pairs. The file of all sections.
#![tactic(auto)]

mod build;
mod coded;
mod coding;
mod column_ids;
mod columns;
mod comparing;
mod docs;
mod fault;
mod file;
mod grown;
mod indexes;
mod laws;
mod lengths;
mod made;
mod numbers;
mod order;
mod packed;
mod pieces;
mod publish;
mod section;
mod sections;
mod taking;
mod trees;

pub use build::{build_columns, build_image, make_file, make_of_codes};
pub use coded::{CodedColumn, CodedColumns, ColumnValues};
pub use coding::RowOrder;
pub use column_ids::ColumnIds;
pub use columns::columns_of;
pub use comparing::Comparing;
pub use docs::TreeDocs;
pub use fault::{BuildFault, CompareFault};
pub use indexes::Indexes;
pub use laws::{columns_fit_law, trees_fit_law};
pub use lengths::section_lengths;
pub use made::MadeFile;
pub use packed::PackedIds;
pub use publish::{INCOMING, publish_file, write_columns, write_segment};
pub use section::MadeSection;
pub use sections::Sections;
pub use star_file::MOST_TREE_BYTES;
pub use taking::{PIECE, Taker};
