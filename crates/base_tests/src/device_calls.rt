//! Calls of shelves, depots and sinks with what has to come of each, in tables that are run in
//! their order.

use crate::expect::Expectations;
use outside::{
    Depot, DepotFault, Name, ReadAllFault, Seq, Shelf, ShelfFault, Sink, SinkFault, read_all,
    read_bytes,
};
use std::alloc::Global;

/// A call of a shelf, and what comes of it.
pub enum ShelfCall {
    /// The names of the files are these.
    Names(&'static [&'static str]),
    /// The names are not told.
    NoNames(ShelfFault),
    /// The length of a file.
    Length(&'static str, Result<u64, ShelfFault>),
    /// The whole of a file, up to a limit.
    Whole(&'static str, u64, Result<&'static [u8], ReadAllFault>),
    /// The bytes of a file from an offset on, that many at most.
    Bytes(&'static str, u64, u64, Result<&'static [u8], ShelfFault>),
    /// From an offset of the file `a` on, so many bytes are read, and the buffer has these bytes
    /// then.
    Part(u64, usize, &'static [u8]),
}

/// A call of a depot, and what comes of it.
pub enum DepotCall {
    /// A part is begun.
    Begin(&'static str, Result<(), DepotFault>),
    /// Bytes are added to a part.
    Append(&'static str, &'static [u8], Result<(), DepotFault>),
    /// A part is published under a name.
    Publish(&'static str, &'static str, Result<(), DepotFault>),
    /// A file is removed.
    Remove(&'static str, Result<(), DepotFault>),
    /// A call of the depot as a shelf.
    Shelf(ShelfCall),
}

/// What a sink is given, what comes of it, and what that says.
pub type Put = (&'static [u8], Result<(), SinkFault>, &'static str);

/// Makes calls of a shelf.
pub fn run_shelf<S: Shelf>(
    alloc: Global,
    shelf: &mut S,
    calls: &[(ShelfCall, &str)],
    all: &Expectations,
) {
    for (call, what) in calls {
        all.expect(shelf_does(alloc, shelf, call), what);
    }
}

/// Makes calls of a depot.
pub fn run_depot<D: Depot>(
    alloc: Global,
    depot: &mut D,
    calls: &[(DepotCall, &str)],
    all: &Expectations,
) {
    for (call, what) in calls {
        all.expect(depot_does(alloc, depot, call), what);
    }
}

/// Gives a sink bytes.
pub fn run_sink<S: Sink>(sink: &mut S, puts: &[Put], all: &Expectations) {
    for (bytes, outcome, what) in puts {
        all.equal(sink.put(bytes), *outcome, what);
    }
}

fn shelf_does<S: Shelf>(alloc: Global, shelf: &mut S, call: &ShelfCall) -> bool {
    match call {
        ShelfCall::Names(names) => lists(alloc, shelf, names),
        ShelfCall::NoNames(fault) => shelf.names(alloc).err() == Some(*fault),
        ShelfCall::Length(name, length) => shelf.length(alloc, name) == *length,
        ShelfCall::Whole(name, limit, bytes) => reads(alloc, shelf, name, *limit, *bytes),
        ShelfCall::Bytes(name, offset, count, bytes) => {
            gives(alloc, shelf, name, (*offset, *count), *bytes)
        }
        ShelfCall::Part(offset, count, bytes) => reads_at(alloc, shelf, *offset, *count, bytes),
    }
}

fn depot_does<D: Depot>(alloc: Global, depot: &mut D, call: &DepotCall) -> bool {
    match call {
        DepotCall::Begin(part, outcome) => depot.begin(alloc, part) == *outcome,
        DepotCall::Append(part, bytes, outcome) => depot.append(alloc, part, bytes) == *outcome,
        DepotCall::Publish(part, name, outcome) => depot.publish(alloc, part, name) == *outcome,
        DepotCall::Remove(name, outcome) => depot.remove(alloc, name) == *outcome,
        DepotCall::Shelf(call) => shelf_does(alloc, depot, call),
    }
}

// Whether the names are these.
fn are_names(found: &[Name], wanted: &[&str]) -> bool {
    for (index, name) in found.iter().enumerate() {
        if index >= wanted.len() || name.as_str() != wanted[index] {
            return false;
        }
    }
    found.len() == wanted.len()
}

fn lists<S: Shelf>(alloc: Global, shelf: &mut S, names: &[&str]) -> bool {
    let Ok(found) = shelf.names(alloc) else {
        return false;
    };
    let are_these = are_names(found.as_slice(), names);
    drop(found);
    are_these
}

/// Whether a list that was read, or why none was, is this.
pub fn is_read<T: PartialEq, F: PartialEq + Copy>(
    found: &Result<Seq<T>, F>,
    wanted: Result<&[T], F>,
) -> bool {
    match found {
        Ok(items) => wanted == Ok(items.as_slice()),
        Err(fault) => wanted == Err(*fault),
    }
}

/// Whether this comes of reading the whole of a file.
pub fn reads<S: Shelf>(
    alloc: Global,
    shelf: &mut S,
    name: &str,
    limit: u64,
    wanted: Result<&[u8], ReadAllFault>,
) -> bool {
    let found = read_all(alloc, shelf, name, limit);
    let is_so = is_read(&found, wanted);
    drop(found);
    is_so
}

fn gives<S: Shelf>(
    alloc: Global,
    shelf: &mut S,
    name: &str,
    (offset, count): (u64, u64),
    wanted: Result<&[u8], ShelfFault>,
) -> bool {
    if count > u64::MAX - offset {
        return false;
    }
    let found = read_bytes(alloc, shelf, name, offset, count);
    let is_so = is_read(&found, wanted);
    drop(found);
    is_so
}

fn reads_at<S: Shelf>(
    alloc: Global,
    shelf: &mut S,
    offset: u64,
    count: usize,
    wanted: &[u8],
) -> bool {
    let mut into = [0u8; 4];
    if wanted.len() > 4 {
        return false;
    }
    let into = &mut into[..wanted.len()];
    shelf.read_at(alloc, "a", offset, into) == Ok(count) && *into == *wanted
}
