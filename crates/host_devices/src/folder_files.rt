//! The files of a real folder.
ghost use Rattle.std.specs.Prelude.{◌≡◌, ◌≢◌, ◌≤◌, true, IfOk, IfSome, IsErrOf, IsSome, MatchOption, None, Some, length, string_bytes};
ghost use Rattle.std.specs.Option.{ForSome};
ghost use Rattle.host_devices.specs.Names.{AreEnds};
ghost use Rattle.outside.specs.declared.shelf.ShelfFault.TheVariants.{Missing};

use crate::NameEnds;
use crate::file_reader::FileReader;
use crate::file_stamp::FileStamp;
use crate::folder_lock::is_folder;
use crate::listed_names::ListedNames;
use outside::{Name, ReadResult, ShelfFault};
use std::alloc::{AllocError, Global};
use std::fs::{Metadata, OpenFile};
use std::io::ErrorKind;
use std::rt::Files;
use std::{fs, io};

/// A file that is open under its name.
#[derive(Drop)]
pub struct NamedFile<F: Drop> {
    pub name: String,
    pub file: F,
}

/// The files of a folder. The one that was read last is kept open, and the names that the folder
/// gave last are kept where they are to be.
#[derive(Drop)]
pub struct FolderFiles<R: Files + AllocGlobal + Clone + Drop> {
    pub rt: R,
    pub folder: String,
    kept: Option<NamedFile<FileReader<R::File>>>,
    ends: NameEnds,
    listed: ListedNames,
    ghost kept_ends: { ends.size ≤ 16 → ForSome kept
        (λ kept. AreEnds (string_bytes kept.name) ends.size ends.first ends.last) },
    ghost ends_of_some: { ends.size ≤ 16 → kept ≢ None },
}

impl<R: Files + AllocGlobal + Clone + Drop> FolderFiles<R> {
    /// The files of the folder at this path.
    pub fn new(rt: R, folder: String) -> Self {
        let listed = ListedNames::new(rt.alloc());
        FolderFiles {
            rt,
            folder,
            kept: None,
            ends: NameEnds::none(),
            listed,
        }
    }

    /// The names in the folder, ascending by bytes, without those that are not UTF-8. What has a
    /// name is not looked at.
    pub fn names(&self, alloc: Global) -> Result<Vec<Name>, ShelfFault>
        ensures { ¬ IsErrOf result Missing }
    {
        match list_names(&self.rt, alloc, self.folder.as_str()) {
            Ok(names) => Ok(names),
            Err(e) => Err(read_fault(&e)),
        }
    }

    /// Keeps the names that the folder gave. From now on each of them has a file, and always the
    /// same, or else a call fails.
    pub(crate) fn keep_names(&mut self, alloc: Global, names: &[Name]) -> Result<(), AllocError> {
        self.listed = ListedNames::of(alloc, names)?;
        Ok(())
    }

    /// The names that the folder gave, where they are kept.
    pub fn listed(&mut self) -> &mut ListedNames {
        &mut self.listed
    }

    /// The length of a file, which is opened anew.
    pub fn length(&mut self, alloc: Global, name: &str) -> Result<u64, ShelfFault> {
        Ok(self.open(alloc, name)?.length())
    }

    /// Reads bytes of a file from an offset on.
    pub fn read_at(&mut self, alloc: Global, name: &str, offset: u64, into: &mut [u8]) -> ReadResult
        ensures { IfOk result (λ n. n ≤ length into.old) }
    {
        if !self.is_kept(name) {
            self.open(alloc, name)?;
        }
        self.read_kept(offset, into)
    }

    /// Reads bytes of a file from an offset on. Where its end is read, or nothing, the call fails
    /// if the file was written since it was opened.
    pub(crate) fn read_unwritten(
        &mut self,
        alloc: Global,
        name: &str,
        offset: u64,
        into: &mut [u8],
    ) -> Result<usize, ShelfFault>
        ensures { IfOk result (λ n. n ≤ length into.old) }
    {
        let n = self.read_at(alloc, name, offset, into)?;
        if self.is_written_at_end(offset, n) {
            self.forget();
            return Err(ShelfFault::Failed);
        }
        Ok(n)
    }

    // Whether so many bytes from an offset on reach the end of the file that is kept open, or are
    // none, and it was written since it was opened.
    fn is_written_at_end(&self, offset: u64, n: usize) -> bool {
        let Some(kept) = &self.kept else {
            return false;
        };
        let end = offset.saturating_add(n as u64);
        if n > 0 && end < kept.file.opened().length() {
            return false;
        }
        kept.file.was_written().unwrap_or(true)
    }

    /// Copies bytes from an offset on, if the file that is kept open has this name and they were
    /// read ahead.
    #[inline(always)]
    pub(crate) fn copy_ahead(&self, name: &str, offset: u64, into: &mut [u8]) -> Option<usize>
        ensures { IfSome result (λ n. n ≤ length into.old) }
    {
        if !self.is_kept(name) {
            return None;
        }
        match &self.kept {
            Some(open) => open.file.copy_ahead(offset, into),
            None => unreachable!(),
        }
    }

    // Reads bytes of the file that is kept open from an offset on.
    fn read_kept(&mut self, offset: u64, into: &mut [u8]) -> Result<usize, ShelfFault>
        requires { IsSome self.old.kept }
        ensures read { IfOk result (λ n. n ≤ length into.old) }
        ensures there { ¬ IsErrOf result Missing }
    {
        let answer = match &mut self.kept {
            Some(open) => open.file.read_at(offset, into),
            None => unreachable!(),
        };
        match answer {
            Ok(n) => Ok(n),
            Err(e) => {
                self.forget();
                Err(read_fault(&e))
            }
        }
    }

    /// Closes the file that is kept open, since another may now stand under its name.
    pub(crate) fn forget(&mut self)
        ensures { self.new.kept ≡ None }
    {
        self.ends = NameEnds::none();
        self.kept = None;
    }

    // Keeps a file open.
    fn keep(&mut self, file: NamedFile<FileReader<R::File>>)
        ensures { self.new.kept ≡ Some file }
    {
        let ends = NameEnds::of(file.name.as_str().as_bytes());
        self.ends = NameEnds::none();
        self.kept = Some(file);
        self.ends = ends;
    }

    // Whether the file that is kept open has this name.
    #[inline(always)]
    fn is_kept(&self, name: &str) -> bool
        ensures { result ≡ true →
            MatchOption self.now.kept ⊥ (λ kept. string_bytes kept.name ≡ name.now) }
    {
        let name = name.as_bytes();
        if self.ends.fit(name) {
            return true;
        }
        match &self.kept {
            Some(kept) => kept.name.as_str().as_bytes() == name,
            None => false,
        }
    }

    // Opens a plain file, keeps it open, and says what it is.
    fn open(&mut self, alloc: Global, name: &str) -> Result<FileStamp, ShelfFault>
        ensures { IfOk result (λ _. MatchOption self.new.kept ⊥
            (λ kept. string_bytes kept.name ≡ name.now)) }
    {
        self.forget();
        let open = self.open_named(alloc, name)?;
        let opened = open.file.opened();
        if !self.listed.admits(name, opened) {
            return Err(ShelfFault::Failed);
        }
        self.keep(open);
        Ok(opened)
    }

    // Opens a plain file.
    fn open_named(
        &self,
        alloc: Global,
        name: &str,
    ) -> Result<NamedFile<FileReader<R::File>>, ShelfFault>
        ensures { IfOk result (λ found. string_bytes found.name ≡ name.now) }
    {
        if name.is_empty() {
            return Err(ShelfFault::Missing);
        }
        let path = path_of(alloc, self.folder.as_str(), name)?;
        let name = String::from_str(alloc, name)?;
        match open_plain(&self.rt, alloc, path.as_str()) {
            Ok(file) => Ok(NamedFile { name, file }),
            Err(e) if names_nothing(&e) && self.is_there() => Err(ShelfFault::Missing),
            Err(e) => Err(read_fault(&e)),
        }
    }

    /// What a call answers that found no file of a name that a file can have: that it is missing,
    /// unless something has the name, as a link to nothing, the name is kept, or its path is too
    /// long.
    #[cold]
    pub(crate) fn none_of(&self, alloc: Global, name: &str) -> ShelfFault {
        if self.listed.has(name) {
            return ShelfFault::Failed;
        }
        let Ok(path) = path_of(alloc, self.folder.as_str(), name) else {
            return ShelfFault::NoMemory;
        };
        if is_free(&self.rt, path.as_str()) {
            ShelfFault::Missing
        } else {
            ShelfFault::Failed
        }
    }

    /// Whether the folder is there. Where it is not, a call that needs it fails.
    pub(crate) fn is_there(&self) -> bool {
        is_folder(&self.rt, self.folder.as_str())
    }
}

/// Whether nothing has the name that a path ends in, no link to nothing either.
pub(crate) fn is_free<R: Files>(rt: &R, path: &str) -> bool {
    match fs::symlink_metadata(rt, path) {
        Ok(_) => false,
        Err(e) => e.kind() == ErrorKind::NotFound,
    }
}

/// The path of a name, which may be a path of its own: an absolute one stands for itself.
pub(crate) fn path_of(alloc: Global, folder: &str, name: &str) -> Result<String, AllocError> {
    let mut path = String::new(alloc);
    if !name.starts_with('/') {
        path.push_str(folder)?;
        path.push_str("/")?;
    }
    path.push_str(name)?;
    Ok(path)
}

/// Whether an error of opening or removing a file says that nothing has its name, or can have it.
pub(crate) fn names_nothing(e: &io::Error) -> bool {
    matches!(
        e.kind(),
        ErrorKind::NotFound
            | ErrorKind::NotADirectory
            | ErrorKind::InvalidFilename
            | ErrorKind::InvalidInput
    )
}

// What an error of the system is for a call that reads.
fn read_fault(e: &io::Error) -> ShelfFault
    ensures { result ≢ Missing }
{
    match e.kind() {
        ErrorKind::OutOfMemory => ShelfFault::NoMemory,
        _ => ShelfFault::Failed,
    }
}

// Opens a plain file. What is no plain file, as a folder, a device or a pipe, is not opened, since
// opening a pipe may wait for another program.
fn open_plain<R: Files>(rt: &R, alloc: Global, path: &str) -> io::Result<FileReader<R::File>> {
    require_plain(&fs::metadata(rt, path)?)?;
    let file = fs::open(rt, path)?;
    let metadata = file.metadata()?;
    require_plain(&metadata)?;
    FileReader::new(alloc, file, FileStamp::of(&metadata))
}

/// Refuses what is no plain file.
pub(crate) fn require_plain(metadata: &Metadata) -> io::Result<()> {
    if metadata.is_file() {
        Ok(())
    } else {
        Err(io::Error::from(ErrorKind::IsADirectory))
    }
}

// The names in a folder. One that is given twice, since it was taken away and put back meanwhile,
// is there once.
fn list_names<R: Files + AllocGlobal + Clone + Drop>(
    rt: &R,
    alloc: Global,
    folder: &str,
) -> io::Result<Vec<Name>> {
    let mut names = Vec::new(alloc);
    for entry in fs::read_dir(rt, folder)? {
        match entry {
            Ok(entry) => {
                names.push(Name::from_text(alloc, entry.file_name())?)?;
            }
            Err(e) if e.kind() == ErrorKind::InvalidFilename => {}
            Err(e) => return Err(e),
        }
    }
    names.sort()?;
    names.dedup();
    Ok(names)
}
