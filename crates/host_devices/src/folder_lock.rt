//! The lock of a folder, by which one program at a time writes there.
ghost use Rattle.std.specs.Prelude.{◌≡◌};

use std::fs;
use std::fs::File;
use std::rt::Files;

/// Open files and folders that a program may have locked for itself, as long as they are open. The
/// system lets the lock go with the program, however that ends.
pub trait LockFile {
    /// Locks the file, unless another program has locked it or no lock is to be had. It does not
    /// wait.
    fn is_locked_now(&self) -> bool;
}

impl LockFile for File {
    fn is_locked_now(&self) -> bool {
        self.try_lock().is_ok()
    }
}

/// Whether this program may write in a folder.
#[derive(Drop)]
pub enum FolderLock<F: Drop> {
    /// It did not ask yet.
    Unasked,
    /// It alone may, as long as the folder is open.
    Held(F),
    /// Another program has the lock, no lock is to be had, or none is wanted.
    Refused,
}

/// The lock of the folder at this path.
pub(crate) fn lock_folder<R: Files>(rt: &R, folder: &str) -> FolderLock<R::File>
where
    R::File: LockFile,
{
    if !is_folder(rt, folder) {
        return FolderLock::Refused;
    }
    match fs::open(rt, folder) {
        Ok(open) if open.is_locked_now() => FolderLock::Held(open),
        _ => FolderLock::Refused,
    }
}

/// Whether there is a folder at a path.
pub(crate) fn is_folder<R: Files>(rt: &R, path: &str) -> bool {
    match fs::metadata(rt, path) {
        Ok(metadata) => metadata.is_dir(),
        Err(_) => false,
    }
}
