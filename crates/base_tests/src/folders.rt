//! The devices over real folders.

use crate::depots::CALLS;
use crate::device_calls::{DepotCall, ShelfCall, reads, run_depot, run_shelf};
use crate::expect::Expectations;
use crate::fixtures::string;
use host_devices::{FolderDepot, FolderShelf};
use outside::{Depot, DepotFault, ReadAllFault, Shelf, ShelfFault};
use std::alloc::{AllocError, Global};
use std::{fs, process};

// The path of what is in a folder.
fn path(alloc: Global, folder: &str, name: &str) -> String {
    format!(in alloc; "{folder}/{name}").unwrap_or(String::new(alloc))
}

// The path of the folder of a test.
fn folder_of(rt: &HostRuntime, test: &str) -> String {
    let id = process::id(rt.process());
    format!(in rt.alloc(); "/tmp/base_tests_{test}_{id}").unwrap_or(String::new(rt.alloc()))
}

fn is_written(rt: &HostRuntime, folder: &str, file: &str) -> bool {
    let path = path(rt.alloc(), folder, file);
    let written = fs::write(rt, path.as_str(), b"12345".as_slice()).ok();
    drop(path);
    written.is_some()
}

fn is_made(rt: &HostRuntime, folder: &str) -> bool {
    fs::create_dir_all(rt, folder).ok().is_some()
}

fn is_removed(rt: &HostRuntime, folder: &str) -> bool {
    fs::remove_dir_all(rt, folder).ok().is_some()
}

// Makes a folder anew with the file `a` and the file `z.part`.
fn fill(rt: &HostRuntime, folder: &str, all: &Expectations) {
    let _was_there = is_removed(rt, folder);
    all.expect(is_made(rt, folder), "a folder is made");
    all.expect(is_written(rt, folder, "a"), "a file is written");
    all.expect(is_written(rt, folder, "z.part"), "a part is written");
}

// Makes a folder `sub` in it that has the file `c`.
fn fill_sub(rt: &HostRuntime, folder: &str, all: &Expectations) {
    let sub = path(rt.alloc(), folder, "sub");
    all.expect(is_made(rt, sub.as_str()), "a folder in the folder");
    drop(sub);
    all.expect(is_written(rt, folder, "sub/c"), "a file in a folder");
}

// Calls of a shelf over such a folder.
const SHELF_NAMES: &[(ShelfCall, &str)] = &[
    (
        ShelfCall::Names(&["a", "sub", "z.part"]),
        "names are listed",
    ),
    (ShelfCall::Whole("a", 5, Ok(b"12345")), "a name is read"),
    (ShelfCall::Whole("sub/c", 5, Ok(b"12345")), "a path is read"),
    (
        ShelfCall::Whole("./sub/../a", 5, Ok(b"12345")),
        "a path up is read",
    ),
    (ShelfCall::Length("b", Err(ShelfFault::Missing)), "no file"),
    (ShelfCall::Length("", Err(ShelfFault::Missing)), "no name"),
    (
        ShelfCall::Length("a/b", Err(ShelfFault::Missing)),
        "no folder",
    ),
    (
        ShelfCall::Length("a\0", Err(ShelfFault::Missing)),
        "no path",
    ),
    (
        ShelfCall::Length("sub", Err(ShelfFault::Failed)),
        "a folder is no file",
    ),
    (
        ShelfCall::Length(".", Err(ShelfFault::Failed)),
        "nor is the folder",
    ),
    (
        ShelfCall::Length("..", Err(ShelfFault::Failed)),
        "nor the one above",
    ),
];

const SHELF_READS: &[(ShelfCall, &str)] = &[
    (ShelfCall::Part(3, 2, b"45"), "a read within"),
    (ShelfCall::Part(u64::MAX, 0, b"\0\0"), "a read past the end"),
    (
        ShelfCall::Whole("a", 4, Err(ReadAllFault::TooLong)),
        "a file over the limit",
    ),
];

// Whether the file `a` is read by the path of its folder.
fn reads_absolute<S: Shelf>(alloc: Global, shelf: &mut S, folder: &str) -> bool {
    let absolute = path(alloc, folder, "a");
    let is_read = reads(alloc, shelf, absolute.as_str(), 5, Ok(b"12345"));
    drop(absolute);
    is_read
}

fn shelf_over(rt: &HostRuntime, folder: &str) -> Result<FolderShelf<HostRuntime>, AllocError> {
    Ok(FolderShelf::new(rt.clone()?, string(rt.alloc(), folder)))
}

fn expect_shelf<S: Shelf + Drop>(alloc: Global, mut shelf: S, folder: &str, all: &Expectations) {
    run_shelf(alloc, &mut shelf, SHELF_NAMES, all);
    let is_read = reads_absolute(alloc, &mut shelf, folder);
    all.expect(is_read, "an absolute path");
    run_shelf(alloc, &mut shelf, SHELF_READS, all);
}

fn expect_shelf_over(rt: &HostRuntime, folder: &str, all: &Expectations) {
    if let Ok(shelf) = shelf_over(rt, folder) {
        expect_shelf(rt.alloc(), shelf, folder, all);
    }
}

pub fn shelf_over_a_folder(rt: &HostRuntime, all: &Expectations) {
    let folder = folder_of(rt, "shelf");
    fill(rt, folder.as_str(), all);
    fill_sub(rt, folder.as_str(), all);
    expect_shelf_over(rt, folder.as_str(), all);
    all.expect(is_removed(rt, folder.as_str()), "the folder is removed");
    drop(folder);
    all.end("shelf over a folder");
}

fn expect_bad_name<D: Depot>(alloc: Global, depot: &mut D, name: &str, all: &Expectations) {
    let length = depot.length(alloc, name);
    all.equal(length, Err(ShelfFault::Missing), "no published name");
    let published = depot.publish(alloc, "q", name);
    all.equal(published, Err(DepotFault::Failed), "it is not published");
    let removed = depot.remove(alloc, name);
    all.equal(removed, Err(DepotFault::Missing), "it is not removed");
}

// Names of no published file.
const BAD_NAMES: &[&str] = &["", ".", "..", "../x", "sub/c", "z.part", "a\0"];

fn expect_bad_names<D: Depot>(alloc: Global, depot: &mut D, all: &Expectations) {
    for name in BAD_NAMES {
        expect_bad_name(alloc, depot, name, all);
    }
}

const BEGUN: &[(DepotCall, &str)] = &[(DepotCall::Begin("p", Ok(())), "a part is begun")];

const BAD_PARTS: &[(DepotCall, &str)] = &[
    (
        DepotCall::Begin("", Err(DepotFault::Failed)),
        "no name of a part",
    ),
    (
        DepotCall::Begin("..", Err(DepotFault::Failed)),
        "nor a way up",
    ),
    (
        DepotCall::Begin("sub/x", Err(DepotFault::Failed)),
        "nor a path",
    ),
    (
        DepotCall::Begin("a\0", Err(DepotFault::Failed)),
        "nor a NUL",
    ),
    (
        DepotCall::Shelf(ShelfCall::Length("sub", Err(ShelfFault::Failed))),
        "a folder is no file",
    ),
    (
        DepotCall::Shelf(ShelfCall::Names(&["b", "sub"])),
        "its name is listed",
    ),
];

// Whether the file at a path has these bytes.
fn has(rt: &HostRuntime, path: &str, bytes: &[u8]) -> bool {
    let Ok(found) = fs::read(rt, path) else {
        return false;
    };
    let are_these = found.as_slice() == bytes;
    drop(found);
    are_these
}

fn expect_part(rt: &HostRuntime, folder: &str, all: &Expectations) {
    let path = path(rt.alloc(), folder, "q.part");
    let is_file = has(rt, path.as_str(), b"never begun");
    all.expect(is_file, "a part is a file");
    drop(path);
}

fn depot_over(rt: &HostRuntime, folder: &str) -> Result<FolderDepot<HostRuntime>, AllocError> {
    Ok(FolderDepot::new(rt.clone()?, string(rt.alloc(), folder)))
}

fn expect_calls<D: Depot>(alloc: Global, depot: &mut D, all: &Expectations) {
    run_depot(alloc, depot, BEGUN, all);
    run_depot(alloc, depot, CALLS, all);
}

fn expect_refusals<D: Depot>(alloc: Global, depot: &mut D, all: &Expectations) {
    expect_bad_names(alloc, depot, all);
    run_depot(alloc, depot, BAD_PARTS, all);
}

// What a depot over a folder does; the part is there while the depot is still open.
fn expect_depot<D: Depot + Drop>(rt: &HostRuntime, mut depot: D, folder: &str, all: &Expectations) {
    expect_calls(rt.alloc(), &mut depot, all);
    fill_sub(rt, folder, all);
    expect_refusals(rt.alloc(), &mut depot, all);
    expect_part(rt, folder, all);
    drop(depot);
}

fn expect_depot_over(rt: &HostRuntime, folder: &str, all: &Expectations) {
    if let Ok(depot) = depot_over(rt, folder) {
        expect_depot(rt, depot, folder, all);
    }
}

pub fn depot_over_a_folder(rt: &HostRuntime, all: &Expectations) {
    let folder = folder_of(rt, "depot");
    fill(rt, folder.as_str(), all);
    expect_depot_over(rt, folder.as_str(), all);
    all.expect(is_removed(rt, folder.as_str()), "the folder is removed");
    drop(folder);
    all.end("depot over a folder");
}
