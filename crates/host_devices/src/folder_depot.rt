//! Depots over real folders.
ghost use Rattle.std.specs.Prelude.{◌≡◌, ◌≤◌, None, IfOk, IsErrOf, length};
ghost use Rattle.host_devices.specs.Faults.{Counts};

use crate::fault_counts::{count_read, count_write};
use crate::folder_lock::LockFile;
use crate::folder_parts::{FolderParts, is_published_name};
use outside::{Depot, DepotFault, Name, ReadResult, Seq, Shelf, ShelfFault};
use std::alloc::Global;
use std::rt::Files;

/// A depot over a folder. A published file is a plain file of the folder, and part `P` is the file
/// `P.part` there; what is published goes to its name by one rename. What ends in `.part` and names
/// that are not UTF-8 are no published files; what is no plain file, as a folder, a pipe or a link
/// to nothing, fails as it is read. Names are not paths: one that is empty, `.` or `..`, or has a
/// `/` or a NUL, has no file and cannot be written. The depot tells nothing of content, and keeps
/// the file that was read last, with some bytes that were read ahead, and the part that was written
/// last open.
///
/// At its first call it tries to lock the folder against other programs that would write there, and
/// keeps the lock to its end; without it, what writes fails. Where others write all the same, or it
/// only reads, each name that the folder gave last has a file, and always the same: else a call
/// fails.
#[derive(Drop)]
pub struct FolderDepot<R: Files + AllocGlobal + Clone + Drop> {
    parts: FolderParts<R>,
    read_faults: u64,
    write_faults: u64,
}

impl<R: Files + AllocGlobal + Clone + Drop> FolderDepot<R> {
    /// A depot over the folder at this path, which must be there.
    pub fn new(rt: R, folder: String) -> Self {
        FolderDepot {
            parts: FolderParts::new(rt, folder),
            read_faults: 0,
            write_faults: 0,
        }
    }

    /// A depot that only reads: it tries no lock, and what writes fails.
    pub fn read_only(rt: R, folder: String) -> Self {
        FolderDepot {
            parts: FolderParts::read_only(rt, folder),
            read_faults: 0,
            write_faults: 0,
        }
    }
}

impl<R: Files + AllocGlobal + Clone + Drop> FolderDepot<R>
where
    R::File: LockFile,
{
    // The fault of a call that reads, for one that found no file of a name perhaps another.
    fn settled(&self, alloc: Global, name: &str, fault: ShelfFault) -> ShelfFault {
        match fault {
            ShelfFault::Missing => self.parts.files.none_of(alloc, name),
            _ => fault,
        }
    }

    // Reads bytes of a file that were not read ahead.
    #[cold]
    #[inline(never)]
    fn read_other(&mut self, alloc: Global, name: &str, offset: u64, into: &mut [u8]) -> ReadResult
        ensures read { IfOk result (λ n. n ≤ length into.old) }
        ensures counts { Counts (IsErrOf result ShelfFault.Failed)
            self.old.read_faults self.new.read_faults }
        ensures writes { self.new.write_faults ≡ self.old.write_faults }
    {
        if !is_published_name(name) {
            return Err(ShelfFault::Missing);
        }
        self.parts.lock();
        let answer = match self.parts.files.read_at(alloc, name, offset, into) {
            Ok(n) => Ok(n),
            Err(fault) => Err(self.settled(alloc, name, fault)),
        };
        count_read(&mut self.read_faults, answer)
    }
}

impl<R: Files + AllocGlobal + Clone + Drop> Shelf for FolderDepot<R>
where
    R::File: LockFile,
{
    ghost held = { λ _. None };

    ghost parts = { λ _. None };

    ghost log = { λ _. None };

    ghost read_faults = { λ depot. depot.read_faults };

    ghost write_faults = { λ depot. depot.write_faults };

    fn names(&mut self, alloc: Global) -> Result<Seq<Name>, ShelfFault> {
        self.parts.lock();
        let answer = self.parts.files.names(alloc);
        let mut names = count_read(&mut self.read_faults, answer)?;
        names.retain(|name| is_published_name(name.as_str()));
        self.parts.files.keep_names(alloc, &names)?;
        Ok(Seq::from_vec(names))
    }

    fn length(&mut self, alloc: Global, name: &str) -> Result<u64, ShelfFault> {
        if !is_published_name(name) {
            return Err(ShelfFault::Missing);
        }
        self.parts.lock();
        let answer = match self.parts.files.length(alloc, name) {
            Ok(length) => Ok(length),
            Err(fault) => Err(self.settled(alloc, name, fault)),
        };
        count_read(&mut self.read_faults, answer)
    }

    #[inline(always)]
    fn read_at(&mut self, alloc: Global, name: &str, offset: u64, into: &mut [u8]) -> ReadResult {
        match self.parts.files.copy_ahead(name, offset, into) {
            Some(n) => Ok(n),
            None => self.read_other(alloc, name, offset, into),
        }
    }
}

impl<R: Files + AllocGlobal + Clone + Drop> Depot for FolderDepot<R>
where
    R::File: LockFile,
{
    ghost use Rattle.outside.specs.Told.{tells_neither};

    ghost tells_both = { λ _. tells_neither };

    fn begin(&mut self, alloc: Global, part: &str) -> Result<(), DepotFault> {
        self.parts.lock();
        let answer = self.parts.begin(alloc, part);
        count_write(&mut self.write_faults, answer)
    }

    fn append(&mut self, alloc: Global, part: &str, bytes: &[u8]) -> Result<(), DepotFault> {
        self.parts.lock();
        let answer = self.parts.append(alloc, part, bytes);
        count_write(&mut self.write_faults, answer)
    }

    fn publish(&mut self, alloc: Global, part: &str, name: &str) -> Result<(), DepotFault> {
        self.parts.lock();
        let answer = self.parts.publish(alloc, part, name);
        count_write(&mut self.write_faults, answer)
    }

    fn remove(&mut self, alloc: Global, name: &str) -> Result<(), DepotFault> {
        self.parts.lock();
        let answer = self.parts.remove(alloc, name);
        count_write(&mut self.write_faults, answer)
    }
}
