//! The bytes of star-trees: nodes and documents are written, nodes are checked, documents are read.
#![tactic(auto)]

mod checking;
mod children;
mod doc_reading;
mod docs_fault;
mod laws;
mod part;
mod reading;
mod rules;
mod spelled_docs;
mod tree;
mod words;
mod writing;

pub use checking::{NodesFault, check_nodes};
pub use doc_reading::width_of;
pub use docs_fault::DocsFault;
pub use laws::{docs_law, nodes_law};
pub use outside::NoMemory;
pub use reading::read_docs;
pub use rules::{MOST_TREE_BYTES, few_bytes};
pub use spelled_docs::SpelledDocs;
pub use star_tree::Node;
pub use tree::{Nodes, StarTree};
pub use writing::{doc_size, write_docs, write_docs_range, write_nodes};
