//! Names, bytes and files that are made for a test. Where there is no memory they are empty, and
//! what is expected of them does not hold.

use memory_devices::MemoryShelf;
use outside::{Bytes, Name, NoMemory, Seq};
use std::alloc::Global;

pub fn string(alloc: Global, text: &str) -> String {
    String::from_str(alloc, text).unwrap_or(String::new(alloc))
}

pub fn name(alloc: Global, text: &str) -> Name {
    Name::from_text(alloc, text).unwrap_or(Name::new(alloc))
}

pub fn bytes(alloc: Global, text: &[u8]) -> Bytes {
    Seq::from_vec(text.to_vec(alloc).unwrap_or(Vec::new(alloc)))
}

/// The numbers of calls that fail.
pub fn calls(alloc: Global, numbers: &[u64]) -> Seq<u64> {
    Seq::from_vec(numbers.to_vec(alloc).unwrap_or(Vec::new(alloc)))
}

// Adds a file, and says whether there was memory for it.
fn add_file(alloc: Global, files: &mut Seq<(Name, Bytes)>, file: &str, text: &[u8]) -> bool {
    files.push((name(alloc, file), bytes(alloc, text))).is_ok()
}

/// The files of those names with those texts.
pub fn files(alloc: Global, named: &[(&str, &str)]) -> Seq<(Name, Bytes)> {
    let mut files = Seq::new(alloc);
    for (file, text) in named {
        let _added = add_file(alloc, &mut files, file, text.as_bytes());
    }
    files
}

/// A shelf with the file `f` of these bytes, some of whose calls fail.
pub fn shelf_of(alloc: Global, text: &[u8], failing: &[u64]) -> Result<MemoryShelf, NoMemory> {
    let mut files = Seq::new(alloc);
    let _added = add_file(alloc, &mut files, "f", text);
    MemoryShelf::new(alloc, files, calls(alloc, failing))
}
