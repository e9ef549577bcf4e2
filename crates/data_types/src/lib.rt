//! What values are made of: the types of fields, whole numbers in texts, texts and lists that
//! contracts see as such, and texts in one block of bytes.
#![tactic(auto)]

mod boxed;
mod kind;
mod name;
mod seq;
mod text_index;
mod text_pool;
mod whole;

pub use boxed::Boxed;
pub use kind::FieldKind;
pub use name::Name;
pub use seq::{Bytes, NoMemory, Seq};
pub use text_index::{TextIndex, hash_of, text_of};
pub use text_pool::TextPool;
pub use whole::{WholeFault, read_whole};
