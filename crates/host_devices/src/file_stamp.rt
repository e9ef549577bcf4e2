//! By what a file is known again.

use std::fs::Metadata;
use std::os::unix::fs::MetadataExt;

/// Which file of the system a file is, how long it is, when it was written last, and when anything
/// of it was changed last. Times are seconds and nanoseconds.
#[derive(Clone, Copy, PartialEq, Eq)]
pub struct FileStamp {
    device: u64,
    number: u64,
    length: u64,
    written: (i64, i64),
    changed: (i64, i64),
}

impl FileStamp {
    /// The stamp of a file by what the system tells of it.
    pub fn of(metadata: &Metadata) -> Self {
        FileStamp {
            device: metadata.dev(),
            number: metadata.ino(),
            length: metadata.len(),
            written: (metadata.mtime(), metadata.mtime_nsec()),
            changed: (metadata.ctime(), metadata.ctime_nsec()),
        }
    }

    /// How many bytes the file has.
    pub fn length(&self) -> u64 {
        self.length
    }

    /// Whether the file has the same length as another, and was written last at the same time.
    pub(crate) fn is_as_written(&self, other: &Self) -> bool {
        self.length == other.length && self.written == other.written
    }
}
