//! A segment goes while cursors are open that were opened over it: its file is kept where one of
//! them has still to answer it, and from then on they have its rows there.
ghost use Rattle.std.specs.Prelude.{◌≡◌, ◌≢◌, ◌⊎◌, true, false, ◌++◌, ◌∷◌, [], IfOk, IfSome, IsErrOf, OnErr, OnOk, drop, length, map};
ghost use Rattle.std.specs.List.{AllByRecursion};
ghost use Rattle.outside.specs.Seen.{seen};
ghost use Rattle.segment_file.specs.Names.{file_of};
ghost use Rattle.table_store.specs.Calls.{CopiesFile, OnlyRemoves};
ghost use Rattle.table_store.specs.Kept.{IsKeptName};
ghost use Rattle.table_store.specs.Segments.{HasSegment, LacksSegment};
ghost use Rattle.serving.specs.Aside as aside;
ghost use Rattle.serving.specs.Aside.{HasAnsweredFiles, IsAside, MayHaveCopy, files_aside, is_awaited_in, kept_if, stands_aside, with_copy, without_name};
ghost use Rattle.serving.specs.Closed.{has_file};

use crate::closing::{holds_file, is_file};
use cursors::Cursor;
use outside::{Depot, Name, NoMemory};
use segment_file::segment_file_name;
use std::alloc::Global;
use table_store::{StoreFault, keep_segment, remove_kept};

/// What is made before a segment goes.
#[derive(Drop)]
pub struct Aside {
    /// The name that its file is kept under, if it is kept.
    pub kept: Option<Name>,
    /// For each cursor the files of its segments once it is gone.
    pub files: Vec<Vec<Option<Name>>>,
}

/// Keeps the file of a segment where a cursor has still to answer it, and makes the names of the
/// files that cursors have once the segment is gone. Cursors stay as they are.
pub(crate) fn set_aside<D: Depot>(
    alloc: Global,
    depot: &mut D,
    cursors: &[Cursor],
    name: &str,
    line: u32,
) -> Result<Aside, StoreFault>
    requires { AllByRecursion HasAnsweredFiles cursors.now }
    ensures aside { IfOk result (IsAside name.now line cursors.now) }
    ensures copied { IfOk result (λ made. D.held depot.new
        ≡ with_copy made.kept (file_of name.now) (D.held depot.old)) }
    ensures may_copy { MayHaveCopy name.now line (D.held depot.old) (D.held depot.new) }
    ensures missing { IsErrOf result StoreFault.NoSegment →
        LacksSegment (D.held depot.old) name.now × (D.held depot.new ≡ D.held depot.old) }
    ensures only { OnErr result
        (IsErrOf result StoreFault.NoSegment ⊎ IsErrOf result StoreFault.ReadFault
        ⊎ IsErrOf result StoreFault.WriteFault ⊎ IsErrOf result StoreFault.NoMemory) }
    ensures copies { CopiesFile (file_of name.now) (IsErrOf result StoreFault.ReadFault)
        (IsErrOf result StoreFault.WriteFault) (seen D.Shelf depot.old) (seen D.Shelf depot.new) }
{
    let file = Name::from_string(alloc, segment_file_name(alloc, name)?)?;
    let kept = match keep_awaited(alloc, depot, cursors, name, &file, line) {
        Ok(kept) => kept,
        Err(fault) => return Err(fault),
    };
    let files = all_aside(alloc, cursors, &file, &kept)?;
    Ok(Aside { kept, files })
}

/// Whether rows are refused since a star-tree of them is too large.
pub(crate) fn is_too_large(fault: StoreFault) -> bool
    ensures yes { result ≡ true → fault ≡ StoreFault.TooLarge }
    ensures no { result ≡ false → fault ≢ StoreFault.TooLarge }
{
    match fault {
        StoreFault::TooLarge => true,
        _ => false,
    }
}

/// Takes the kept file away again, if there is one.
pub(crate) fn let_go<D: Depot>(
    alloc: Global,
    depot: &mut D,
    kept: &Option<Name>,
) -> Result<(), StoreFault>
    requires { IfSome kept.now IsKeptName }
    ensures gone { OnOk result (D.held depot.new ≡ without_name kept.now (D.held depot.old)) }
    ensures unchanged { OnErr result (D.held depot.new ≡ D.held depot.old) }
    ensures only { OnErr result
        (IsErrOf result StoreFault.WriteFault ⊎ IsErrOf result StoreFault.NoMemory) }
    ensures only_removes { OnlyRemoves ⊥ (IsErrOf result StoreFault.WriteFault)
        (seen D.Shelf depot.old) (seen D.Shelf depot.new) }
{
    match kept {
        Some(kept) => remove_kept(alloc, depot, kept.as_str()),
        None => Ok(()),
    }
}

/// The files of cursors are these from now on.
pub(crate) fn put_files(cursors: &mut Vec<Cursor>, mut files: Vec<Vec<Option<Name>>>)
    requires { length files.items ≡ length cursors.old.items }
    ensures { cursors.new.items ≡ aside.with_files files.items cursors.old.items }
{
    'cursors: while let Some(own) = files.pop() {
        cursors[files.len()].files = own;
    }
}

// Keeps the file of a segment, if a cursor has still to answer it: the name that it is kept under.
fn keep_awaited<D: Depot>(
    alloc: Global,
    depot: &mut D,
    cursors: &[Cursor],
    name: &str,
    file: &Name,
    line: u32,
) -> Result<Option<Name>, StoreFault>
    requires within { AllByRecursion HasAnsweredFiles cursors.now }
    requires file { file.now ≡ file_of name.now }
    ensures kept { IfOk result (λ kept.
        kept ≡ kept_if (is_awaited_in file.now cursors.now) name.now line) }
    ensures copied { IfOk result (λ kept. D.held depot.new
        ≡ with_copy kept file.now (D.held depot.old)) }
    ensures unchanged { OnErr result (D.held depot.new ≡ D.held depot.old) }
    ensures missing { IsErrOf result StoreFault.NoSegment →
        LacksSegment (D.held depot.old) name.now }
    ensures only { OnErr result
        (IsErrOf result StoreFault.NoSegment ⊎ IsErrOf result StoreFault.ReadFault
        ⊎ IsErrOf result StoreFault.WriteFault ⊎ IsErrOf result StoreFault.NoMemory) }
    ensures copies { CopiesFile (file_of name.now) (IsErrOf result StoreFault.ReadFault)
        (IsErrOf result StoreFault.WriteFault) (seen D.Shelf depot.old) (seen D.Shelf depot.new) }
{
    if !is_awaited(cursors, file) {
        return Ok(None);
    }
    match keep_segment(alloc, depot, name, line) {
        Ok(kept) => Ok(Some(kept)),
        Err(fault) => Err(fault),
    }
}

// Whether a cursor has still to answer a segment whose rows stand in this file.
fn is_awaited(cursors: &[Cursor], file: &Name) -> bool
    requires { AllByRecursion HasAnsweredFiles cursors.now }
    ensures { result ≡ is_awaited_in file.now cursors.now }
{
    'cursors: for at in 0..cursors.len() {
        if awaits(&cursors[at], file) {
            return true;
        }
    }
    false
}

// Whether this cursor has still to answer a segment whose rows stand in this file.
fn awaits(cursor: &Cursor, file: &Name) -> bool
    requires { HasAnsweredFiles cursor.now }
    ensures { result ≡ has_file file.now (drop cursor.now.answered cursor.now.files.items) }
{
    holds_file(&cursor.files.as_slice()[cursor.answered as usize..], file)
}

// The files of cursors once a file is gone, whose rows stand in the kept one then.
fn all_aside(
    alloc: Global,
    cursors: &[Cursor],
    file: &Name,
    kept: &Option<Name>,
) -> Result<Vec<Vec<Option<Name>>>, NoMemory>
    ensures { IfOk result (λ all. map (λ files. files.items) all.items
        ≡ files_aside file.now kept.now cursors.now) }
{
    let mut all = Vec::with_capacity(alloc, cursors.len())?;
    'cursors: for at in 0..cursors.len() {
        all.push(each_aside(alloc, cursors[at].files.as_slice(), file, kept)?)?;
    }
    Ok(all)
}

// The files of a cursor once a file is gone, whose rows stand in the kept one then.
fn each_aside(
    alloc: Global,
    files: &[Option<Name>],
    file: &Name,
    kept: &Option<Name>,
) -> Result<Vec<Option<Name>>, NoMemory>
    ensures { IfOk result (λ own. own.items ≡ map (stands_aside file.now kept.now) files.now) }
{
    let mut own = Vec::with_capacity(alloc, files.len())?;
    'files: for at in 0..files.len() {
        own.push(copy_aside(&files[at], file, kept)?)?;
    }
    Ok(own)
}

// Where rows stand once a file is gone: those that stood in it in the kept one, if there is one.
fn copy_aside(
    stands: &Option<Name>,
    file: &Name,
    kept: &Option<Name>,
) -> Result<Option<Name>, NoMemory>
    ensures { IfOk result (λ copy. copy ≡ stands_aside file.now kept.now stands.now) }
{
    if is_file(stands, file) {
        copy_of(kept)
    } else {
        copy_of(stands)
    }
}

// A copy of a name, if there is one.
fn copy_of(name: &Option<Name>) -> Result<Option<Name>, NoMemory>
    ensures { IfOk result (λ copy. copy ≡ name.now) }
{
    match name {
        Some(name) => Ok(Some(name.copy()?)),
        None => Ok(None),
    }
}
