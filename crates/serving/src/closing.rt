//! The kept files of a cursor that no other cursor has are taken away.
ghost use Rattle.std.specs.Prelude.{◌≡◌, ◌≢◌, ◌⊎◌, ◌<◌, List, ℕ, Some, true, false, IsErrOf, OnErr, OnOk, length, slice_get};
ghost use Rattle.std.specs.List.{AllByRecursion};
ghost use Rattle.outside.specs.Files.{without_file};
ghost use Rattle.outside.specs.Seen.{seen};
ghost use Rattle.table_store.specs.Calls.{OnlyRemoves};
ghost use Rattle.table_store.specs.Kept.{IsKeptName};
ghost use Rattle.serving.specs.Closed as closed;
ghost use Rattle.serving.specs.Closed.{AreGone, HasNoOther, IsGone, IsReleased, has_file, without_files};

use cursors::Cursor;
use outside::{Depot, Name};
use std::alloc::Global;
use table_store::{StoreFault, is_kept_name, remove_kept};

/// Takes away the kept files of the cursor at a place that no other cursor has. After a fault some
/// of them may be gone.
pub(crate) fn release<D: Depot>(
    alloc: Global,
    depot: &mut D,
    cursors: &[Cursor],
    at: usize,
) -> Result<(), StoreFault>
    requires { at < length cursors.now }
    ensures gone { OnOk result ((names : List (List ℕ)) × AreGone at cursors.now names
        × (D.held depot.new ≡ without_files names (D.held depot.old))) }
    ensures some_gone { OnErr result ((names : List (List ℕ)) × AllByRecursion IsKeptName names
        × (D.held depot.new ≡ without_files names (D.held depot.old))) }
    ensures only { OnErr result
        (IsErrOf result StoreFault.WriteFault ⊎ IsErrOf result StoreFault.NoMemory) }
    ensures only_removes { OnlyRemoves ⊥ (IsErrOf result StoreFault.WriteFault)
        (seen D.Shelf depot.old) (seen D.Shelf depot.new) }
{
    let files = cursors[at].files.as_slice();
    'files: for k in 0..files.len() {
        match release_file(alloc, depot, cursors, at, &files[k]) {
            Ok(()) => {}
            Err(fault) => return Err(fault),
        }
    }
    Ok(())
}

// Takes away one file of the cursor at a place, if it is a kept one that no other cursor has.
fn release_file<D: Depot>(
    alloc: Global,
    depot: &mut D,
    cursors: &[Cursor],
    at: usize,
    file: &Option<Name>,
) -> Result<(), StoreFault>
    ensures released { OnOk result (IsReleased at cursors.now file.now (D.held depot.old)
        (D.held depot.new)) }
    ensures unchanged { OnErr result (D.held depot.new ≡ D.held depot.old) }
    ensures only { OnErr result
        (IsErrOf result StoreFault.WriteFault ⊎ IsErrOf result StoreFault.NoMemory) }
    ensures only_removes { OnlyRemoves ⊥ (IsErrOf result StoreFault.WriteFault)
        (seen D.Shelf depot.old) (seen D.Shelf depot.new) }
{
    let Some(name) = file else {
        return Ok(());
    };
    if !is_kept_name(name.as_str()) || has_other(cursors, at, name) {
        return Ok(());
    }
    remove_kept(alloc, depot, name.as_str())
}

// Whether a cursor has a file beside the one at a place.
fn has_other(cursors: &[Cursor], at: usize, name: &Name) -> bool
    ensures yes { result ≡ true → ¬ HasNoOther at cursors.now name.now }
    ensures no { result ≡ false → HasNoOther at cursors.now name.now }
{
    'cursors: for other in 0..cursors.len() {
        if other != at && holds_file(cursors[other].files.as_slice(), name) {
            return true;
        }
    }
    false
}

/// Whether a name is one of some files'.
pub(crate) fn holds_file(files: &[Option<Name>], name: &Name) -> bool
    ensures { result ≡ has_file name.now files.now }
{
    files.iter().any(|file| is_file(file, name))
}

/// Whether this is the name of a file.
pub(crate) fn is_file(file: &Option<Name>, name: &Name) -> bool
    ensures { result ≡ closed.is_file name.now file.now }
{
    match file {
        Some(file) => name.as_str() == file.as_str(),
        None => false,
    }
}
