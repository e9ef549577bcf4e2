//! Shelves over real folders.
ghost use Rattle.std.specs.Prelude.{None};

use crate::fault_counts::count_read;
use crate::folder_files::FolderFiles;
use outside::{Name, ReadResult, Seq, Shelf, ShelfFault};
use std::alloc::Global;
use std::rt::Files;

/// A shelf over a folder. A name may be a path: a relative one begins at the folder, and an
/// absolute one stands for itself. What is no plain file, as a folder, fails; a name that no file
/// can have is missing. It tells nothing of content, and keeps the file that was read last open,
/// with some bytes that were read ahead: `length` opens it anew. A file that is written while it is
/// read fails where its end is read.
#[derive(Drop)]
pub struct FolderShelf<R: Files + AllocGlobal + Clone + Drop> {
    files: FolderFiles<R>,
    faults: u64,
}

impl<R: Files + AllocGlobal + Clone + Drop> FolderShelf<R> {
    /// A shelf over the folder at this path.
    pub fn new(rt: R, folder: String) -> Self {
        FolderShelf {
            files: FolderFiles::new(rt, folder),
            faults: 0,
        }
    }
}

impl<R: Files + AllocGlobal + Clone + Drop> Shelf for FolderShelf<R> {
    ghost held = { λ _. None };

    ghost parts = { λ _. None };

    ghost log = { λ _. None };

    ghost read_faults = { λ shelf. shelf.faults };

    ghost write_faults = { λ _. 0 };

    fn names(&mut self, alloc: Global) -> Result<Seq<Name>, ShelfFault> {
        let answer = self.files.names(alloc);
        Ok(Seq::from_vec(count_read(&mut self.faults, answer)?))
    }

    fn length(&mut self, alloc: Global, name: &str) -> Result<u64, ShelfFault> {
        let answer = self.files.length(alloc, name);
        count_read(&mut self.faults, answer)
    }

    fn read_at(&mut self, alloc: Global, name: &str, offset: u64, into: &mut [u8]) -> ReadResult {
        let answer = self.files.read_unwritten(alloc, name, offset, into);
        count_read(&mut self.faults, answer)
    }
}
