//! The devices of the real world: folders of files that are read and written, and streams of bytes.
//! They keep to the contracts of devices and tell nothing of content, since no contract can say
//! what a folder holds. What a device over a folder keeps beside its files: the lock of the folder,
//! the names that it gave, the ends of the name of the file that is open, and the counts of faults.
#![tactic(auto)]

mod fault_counts;
mod file_reader;
mod file_stamp;
mod folder_depot;
mod folder_files;
mod folder_lock;
mod folder_parts;
mod folder_shelf;
mod listed_names;
mod name_ends;
mod stream_sink;

pub use folder_depot::FolderDepot;
pub use folder_lock::LockFile;
pub use folder_shelf::FolderShelf;
pub use name_ends::NameEnds;
pub use stream_sink::StreamSink;
