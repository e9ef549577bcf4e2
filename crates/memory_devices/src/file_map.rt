//! Files in memory, by name.
ghost use Rattle.std.specs.Prelude.{◌≡◌, ◌≤◌, OnOk, OnErr, IfOk, option_map, length, map as list_map, MatchOption, None, Some, IfNone, true, ◌++◌};
ghost use Rattle.std.specs.FinMap as map;
ghost use Rattle.std.specs.FinMap.{find, put, is_sorted};
ghost use Rattle.outside.specs.Files.{name_order, files_of, bytes_of, SameBut};
ghost use Rattle.memory_devices.specs.FileMap.{PutsAt, StopsAt, FoundAt, others};

use outside::{Bytes, Name, NoMemory, Seq};
use std::alloc::Global;
use std::cmp::Ordering;
use std::marker::Model;

/// Files by name, in the order of their names.
#[derive(Drop)]
pub struct FileMap {
    files: Vec<(Name, Bytes)>,
}

impl Model for FileMap {
    ghost use Rattle.std.specs.Prelude.{◌≡◌, true};
    ghost use Rattle.std.specs.FinMap as map;
    ghost use Rattle.std.specs.FinMap.{is_sorted};
    ghost use Rattle.outside.specs.Files.{Files, name_order};
    ghost use Rattle.memory_devices.specs.Memory.{files_code};

    ghost Value = { Files };

    ghost coded = { files_code };

    ghost view = { λ f. map.from_sorted f.files.items };

    ghost invariant = { λ f. is_sorted name_order f.files.items ≡ true };
}

impl FileMap {
    pub fn new(alloc: Global) -> Self
        ensures { result ≡ map.empty }
    {
        FileMap {
            files: Vec::new(alloc),
        }
    }

    /// These files; of two with one name the last.
    pub(crate) fn from_files(alloc: Global, files: Seq<(Name, Bytes)>) -> Result<Self, NoMemory>
        ensures { IfOk result (λ made. made ≡ files_of files) }
    {
        let mut made = FileMap::new(alloc);
        'files: for (name, bytes) in files.into_vec() {
            made.put(name, bytes)?;
        }
        Ok(made)
    }

    pub fn get(&self, name: &str) -> Option<&Bytes>
        ensures { option_map (λ bytes. bytes.now) result ≡ map.get self.now name.now }
    {
        find_file(self.files.as_slice(), name)
    }

    /// Puts a file under its name, in place of what was there.
    pub fn put(&mut self, name: Name, bytes: Bytes) -> Result<(), NoMemory>
        ensures ok { OnOk result (self.new ≡ map.insert self.old name bytes) }
        ensures err { OnErr result (self.new ≡ self.old) }
    {
        put_file(&mut self.files, name, bytes)
    }

    /// Takes a file away.
    pub fn take(&mut self, name: &str) -> Option<Bytes>
        ensures taken { result ≡ map.get self.old name.now }
        ensures rest { self.new ≡ map.remove self.old name.now }
        ensures others { SameBut name.now (Some self.old) (Some self.new) }
        ensures absent { IfNone result (self.new ≡ self.old) }
    {
        let _ = &self.files;
        take_file(&mut self.files, name)
    }

    /// Adds bytes at the end of a file; one that is not there counts as empty. Where it wants
    /// memory, the file is gone.
    pub fn append(&mut self, alloc: Global, name: &str, more: &[u8]) -> Result<(), NoMemory>
        ensures ok { OnOk result
            (self.new
            ≡ map.insert self.old name.now (bytes_of (Some self.old) name.now ++ more.now)) }
        ensures err { OnErr result (self.new ≡ map.remove self.old name.now) }
        ensures others { SameBut name.now (Some self.old) (Some self.new) }
    {
        let bytes = self.take(name).unwrap_or(Seq::new(alloc));
        self.put(Name::from_text(alloc, name)?, extended(bytes, more)?)?;
        Ok(())
    }

    /// The files with their names, in the order of these.
    pub(crate) fn entries(&self, alloc: Global) -> Result<Seq<(Name, Bytes)>, NoMemory>
        ensures { IfOk result (λ files. files ≡ map.entries self.now) }
    {
        copy_files(alloc, self.files.as_slice())
    }

    /// The names, in their order.
    pub fn names(&self, alloc: Global) -> Result<Seq<Name>, NoMemory>
        ensures { IfOk result (λ names. names ≡ map.keys self.now) }
    {
        copy_names(alloc, self.files.as_slice())
    }
}

// Some bytes, with more after them.
fn extended(bytes: Bytes, more: &[u8]) -> Result<Bytes, NoMemory>
    ensures { IfOk result (λ all. all ≡ bytes ++ more.now) }
{
    let mut all = bytes.into_vec();
    all.extend_from_slice(more)?;
    Ok(Seq::from_vec(all))
}

// Where a name belongs among files that ascend by name: at it, or before the first that is greater.
fn place_of(files: &[(Name, Bytes)], name: &str) -> usize
    ensures within { result ≤ length files.now }
    ensures before { PutsAt files.now name.now result }
    ensures stops { StopsAt files.now name.now result }
{
    let mut at = 0;
    'less: while at < files.len() {
        if name.cmp(files[at].0.as_str()) != Ordering::Greater {
            return at;
        }
        at += 1;
    }
    at
}

// Puts a file among those that ascend by name, in place of one of its name.
fn put_file(files: &mut Vec<(Name, Bytes)>, name: Name, bytes: Bytes) -> Result<(), NoMemory>
    ensures ok { OnOk result (files.new.items ≡ put name_order name bytes files.old.items) }
    ensures err { OnErr result (files.new.items ≡ files.old.items) }
{
    let at = place_of(files, name.as_str());
    if at < files.len() {
        let file = &mut files[at];
        if let Ordering::Equal = name.as_str().cmp(file.0.as_str()) {
            file.1 = bytes;
            return Ok(());
        }
    }
    files.insert(at, (name, bytes))?;
    Ok(())
}

fn find_file<'a>(files: &'a [(Name, Bytes)], name: &str) -> Option<&'a Bytes>
    ensures { option_map (λ bytes. bytes.now) result ≡ find name_order name.now files.now }
{
    for file in files {
        if name.cmp(file.0.as_str()) == Ordering::Equal {
            return Some(&file.1);
        }
    }
    None
}

// Where the first file of this name is.
fn index_of(files: &[(Name, Bytes)], name: &str) -> Option<usize>
    ensures { MatchOption result
        (find name_order name.now files.now ≡ None)
        (FoundAt files.now name.now) }
{
    for (at, file) in files.iter().enumerate() {
        if name.cmp(file.0.as_str()) == Ordering::Equal {
            return Some(at);
        }
    }
    None
}

// Takes a file away from those that ascend by name.
fn take_file(files: &mut Vec<(Name, Bytes)>, name: &str) -> Option<Bytes>
    requires { is_sorted name_order files.old.items ≡ true }
    ensures taken { result ≡ find name_order name.now files.old.items }
    ensures rest { files.new.items ≡ others name.now files.old.items }
{
    match index_of(files, name) {
        Some(at) => {
            let (_, bytes) = files.remove(at);
            Some(bytes)
        }
        None => None,
    }
}

fn copy_names(alloc: Global, files: &[(Name, Bytes)]) -> Result<Seq<Name>, NoMemory>
    ensures { IfOk result (λ names. names ≡ list_map (λ file. file.0) files.now) }
{
    let mut names = Seq::new(alloc);
    for file in files {
        names.push(Name::from_text(alloc, file.0.as_str())?)?;
    }
    Ok(names)
}

fn copy_files(alloc: Global, files: &[(Name, Bytes)]) -> Result<Seq<(Name, Bytes)>, NoMemory>
    ensures { IfOk result (λ copies. copies ≡ files.now) }
{
    let mut copies = Seq::new(alloc);
    for file in files {
        let name = Name::from_text(alloc, file.0.as_str())?;
        copies.push((name, file.1.copy(alloc)?))?;
    }
    Ok(copies)
}
