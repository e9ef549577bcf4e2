//! The parts of a real folder, and what becomes of them.
ghost use Rattle.std.specs.Prelude.{◌≡◌, ◌≢◌, IsErrOf};
ghost use Rattle.host_devices.specs.Locks.{IsHeld, KeepsLock};

use crate::folder_files::{FolderFiles, is_free, path_of, require_plain};
use crate::folder_lock::{FolderLock, LockFile, lock_folder};
use outside::DepotFault;
use std::alloc::Global;
use std::fs::{File, OpenFile};
use std::io::{ErrorKind, Write};
use std::rt::Files;
use std::{fs, io};

const PART: &str = ".part";

/// By this part a file is taken away.
const INCOMING: &str = "incoming";

// The file of a part, which is open under its path.
#[derive(Drop)]
struct OpenPart<F: Drop> {
    part: String,
    path: String,
    file: F,
}

/// The files of a folder, the lock by which this program may write there, and the part that was
/// written last, which is kept open. Part `P` is the file `P.part`.
#[derive(Drop)]
pub struct FolderParts<R: Files + AllocGlobal + Clone + Drop> {
    pub files: FolderFiles<R>,
    lock: FolderLock<R::File>,
    part: Option<OpenPart<R::File>>,
}

impl<R: Files + AllocGlobal + Clone + Drop> FolderParts<R> {
    /// The parts of the folder at this path, which are written if it may be locked.
    pub fn new(rt: R, folder: String) -> Self {
        FolderParts {
            files: FolderFiles::new(rt, folder),
            lock: FolderLock::Unasked,
            part: None,
        }
    }

    /// The files of the folder at this path, in which nothing is written.
    pub fn read_only(rt: R, folder: String) -> Self {
        FolderParts {
            files: FolderFiles::new(rt, folder),
            lock: FolderLock::Refused,
            part: None,
        }
    }

    /// Tries to lock the folder, once. The lock is kept to the end.
    pub(crate) fn lock(&mut self)
    where
        R::File: LockFile,
        ensures { IsHeld self.old.lock → self.new.lock ≡ self.old.lock }
    {
        if let FolderLock::Unasked = self.lock {
            let files = &self.files;
            self.lock = lock_folder(&files.rt, files.folder.as_str());
        }
    }

    // The path of a part's file.
    fn part_path(&self, alloc: Global, part: &str) -> Result<String, DepotFault>
        ensures { ¬ IsErrOf result DepotFault.Missing }
    {
        if !is_file_name(part) {
            return Err(DepotFault::Failed);
        }
        let mut path = path_of(alloc, self.files.folder.as_str(), part)?;
        path.push_str(PART)?;
        Ok(path)
    }

    /// Makes the file of a part anew.
    pub fn begin(&mut self, alloc: Global, part: &str) -> Result<(), DepotFault>
        ensures { KeepsLock (IsErrOf result DepotFault.Missing) self.old.lock self.new.lock }
    {
        self.part = None;
        self.require_lock()?;
        let path = self.part_path(alloc, part)?;
        let part = String::from_str(alloc, part)?;
        match make_anew(&self.files.rt, path.as_str()) {
            Ok(file) => {
                self.part = Some(OpenPart { part, path, file });
                Ok(())
            }
            Err(e) => Err(write_fault(&e)),
        }
    }

    // The file of a part: the one that is kept open, or else one that is opened at its end.
    fn take_part(&mut self, alloc: Global, part: &str) -> Result<OpenPart<R::File>, DepotFault>
        ensures { KeepsLock (IsErrOf result DepotFault.Missing) self.old.lock self.new.lock }
    {
        if let Some(kept) = self.part.take() {
            if kept.part.as_str() == part {
                return Ok(kept);
            }
        }
        self.require_lock()?;
        let path = self.part_path(alloc, part)?;
        let part = String::from_str(alloc, part)?;
        match open_end(&self.files.rt, path.as_str()) {
            Ok(file) => Ok(OpenPart { part, path, file }),
            Err(e) => Err(write_fault(&e)),
        }
    }

    // Refuses to write without the lock.
    fn require_lock(&self) -> Result<(), DepotFault>
        ensures { ¬ IsErrOf result DepotFault.Missing }
    {
        match self.lock {
            FolderLock::Held(_) => Ok(()),
            _ => Err(DepotFault::Failed),
        }
    }

    /// Writes at the end of the file of a part. Where that fails, the file is taken away.
    pub fn append(&mut self, alloc: Global, part: &str, bytes: &[u8]) -> Result<(), DepotFault>
        ensures { KeepsLock (IsErrOf result DepotFault.Missing) self.old.lock self.new.lock }
    {
        let mut open = self.take_part(alloc, part)?;
        match open.file.write_all(bytes) {
            Ok(()) => {
                self.part = Some(open);
                Ok(())
            }
            Err(e) => {
                let _ = fs::remove_file(&self.files.rt, open.path.as_str());
                Err(write_fault(&e))
            }
        }
    }

    /// Gives the file of a part its name, once its bytes are on the disk. One that is not there is
    /// made first. Where that fails, the file is taken away.
    pub fn publish(&mut self, alloc: Global, part: &str, name: &str) -> Result<(), DepotFault>
        ensures { KeepsLock (IsErrOf result DepotFault.Missing) self.old.lock self.new.lock }
    {
        self.files.forget();
        if !is_published_name(name) {
            return Err(DepotFault::Failed);
        }
        let to = path_of(alloc, self.files.folder.as_str(), name)?;
        let open = self.take_part(alloc, part)?;
        let FolderLock::Held(folder) = &self.lock else {
            return Err(DepotFault::Failed);
        };
        match replace(&self.files.rt, folder, &open, to.as_str()) {
            Ok(()) => {
                self.files.listed().renew(name);
                Ok(())
            }
            Err(e) => {
                let _ = fs::remove_file(&self.files.rt, open.path.as_str());
                Err(write_fault(&e))
            }
        }
    }

    /// Takes a published file away, by way of a part. None may be begun.
    pub fn remove(&mut self, alloc: Global, name: &str) -> Result<(), DepotFault>
        ensures lock { self.new.lock ≡ self.old.lock }
    {
        self.files.forget();
        if !is_published_name(name) {
            return Err(DepotFault::Missing);
        }
        let path = path_of(alloc, self.files.folder.as_str(), name)?;
        let part = self.part_path(alloc, INCOMING)?;
        self.erase_named(name, path.as_str(), part.as_str())
    }

    // What a call answers that found no file of a name: that it is missing, unless it is one that
    // the folder gave.
    fn fault_of_none(&mut self, name: &str) -> DepotFault
        ensures { self.new.lock ≡ self.old.lock }
    {
        if self.files.listed().has(name) || !self.files.is_there() {
            DepotFault::Failed
        } else {
            DepotFault::Missing
        }
    }

    // Takes a file away, if it is there.
    fn erase_named(&mut self, name: &str, path: &str, part: &str) -> Result<(), DepotFault>
        ensures lock { self.new.lock ≡ self.old.lock }
    {
        let (FolderLock::Held(folder), None) = (&self.lock, &self.part) else {
            return Err(DepotFault::Failed);
        };
        if is_free(&self.files.rt, path) {
            return Err(self.fault_of_none(name));
        }
        match erase(&self.files.rt, folder, path, part) {
            Ok(()) => {
                self.files.listed().leave_out(name);
                Ok(())
            }
            Err(e) => Err(write_fault(&e)),
        }
    }
}

// Makes a file anew. What has its name is taken away first, be it a link, which is not followed.
fn make_anew<R: Files>(rt: &R, path: &str) -> io::Result<R::File> {
    if let Err(e) = fs::remove_file(rt, path) {
        if e.kind() != ErrorKind::NotFound {
            return Err(e);
        }
    }
    let mut options = File::options();
    options.write(true).create_new(true);
    options.open(rt, path)
}

// Opens a plain file at its end, or makes it. A link is not followed.
fn open_end<R: Files>(rt: &R, path: &str) -> io::Result<R::File> {
    if is_free(rt, path) {
        return make_anew(rt, path);
    }
    require_plain(&fs::symlink_metadata(rt, path)?)?;
    let mut options = File::options();
    options.append(true);
    options.open(rt, path)
}

// Puts the bytes of a part on the disk, renames it, and puts its folder, which is locked, on the
// disk. Where this last step fails, a name that is new is taken back. Where the name had a file,
// the new one stays: on the disk there is one of the two.
fn replace<R: Files>(
    rt: &R,
    folder: &R::File,
    open: &OpenPart<R::File>,
    to: &str,
) -> io::Result<()> {
    open.file.sync_all()?;
    let is_new = is_free(rt, to);
    fs::rename(rt, open.path.as_str(), to)?;
    match sync_folder(folder) {
        Err(e) if is_new => {
            fs::rename(rt, to, open.path.as_str())?;
            Err(e)
        }
        _ => Ok(()),
    }
}

// Takes a file away: it has the name of a part when its folder, which is locked, is put on the
// disk. Where a step fails it has its own name again.
fn erase<R: Files>(rt: &R, folder: &R::File, path: &str, part: &str) -> io::Result<()> {
    fs::rename(rt, path, part)?;
    match end_part(rt, folder, part) {
        Ok(()) => Ok(()),
        Err(e) => {
            fs::rename(rt, part, path)?;
            Err(e)
        }
    }
}

// Takes a part away whose name is on the disk first.
fn end_part<R: Files>(rt: &R, folder: &R::File, part: &str) -> io::Result<()> {
    sync_folder(folder)?;
    fs::remove_file(rt, part)
}

// Puts the names of a folder on the disk. A file system that has no such call does so by itself.
fn sync_folder<F: OpenFile>(folder: &F) -> io::Result<()> {
    match folder.sync_all() {
        Err(e) if matches!(e.kind(), ErrorKind::Unsupported | ErrorKind::InvalidInput) => Ok(()),
        answer => answer,
    }
}

// Whether a text can name a file right in a folder.
fn is_file_name(name: &str) -> bool {
    !name.is_empty() && name != "." && name != ".." && !name.contains('/') && !name.contains('\0')
}

/// Whether a text can name a published file.
pub(crate) fn is_published_name(name: &str) -> bool {
    is_file_name(name) && !name.ends_with(PART)
}

// What an error of the system is for a call that writes.
fn write_fault(e: &io::Error) -> DepotFault
    ensures { result ≢ DepotFault.Missing }
{
    match e.kind() {
        ErrorKind::OutOfMemory => DepotFault::NoMemory,
        _ => DepotFault::Failed,
    }
}
