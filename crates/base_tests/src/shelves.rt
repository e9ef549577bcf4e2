//! Lists, names and the shelf in memory.

use crate::device_calls::{ShelfCall, run_shelf};
use crate::expect::Expectations;
use crate::fixtures::{bytes, calls, files, name};
use memory_devices::MemoryShelf;
use outside::{Bytes, Name, NoMemory, ReadAllFault, Seq, ShelfFault};
use std::alloc::Global;
use std::cmp::Ordering;

// What is expected of the name `ab` beside the same name, the name `b` and an empty one.
fn expect_order(ab: &Name, same: &Name, b: &Name, empty: &Name, all: &Expectations) {
    all.expect(ab.eq(same), "equal names");
    all.expect(ab.lt(b), "a lesser name");
    all.equal(ab.cmp(empty), Ordering::Greater, "a greater name");
}

fn expect_name(ab: &Name, all: &Expectations) {
    all.expect(ab.len() == 2 && !ab.is_empty(), "a name's length");
    all.equal(ab.as_str(), "ab", "a name");
    all.equal(ab.as_slice(), b"ab".as_slice(), "its bytes");
    all.expect(ab.len() > 1 && ab.at(1) == b'b', "a byte of a name");
}

// What is expected of the list of `x` and `y` beside that of `x`.
fn expect_list(xy: &Bytes, x: &Bytes, all: &Expectations) {
    all.expect(xy.ne(x), "unequal lists");
    all.expect(xy.gt(x), "a greater list");
    all.equal(xy.as_slice(), b"xy".as_slice(), "a list");
    let is_second = xy.len() == 2 && *xy.at(1) == b'y';
    all.expect(is_second, "its length and an item of it");
}

fn expect_lists(alloc: Global, all: &Expectations) {
    let xy = bytes(alloc, b"xy");
    let x = bytes(alloc, b"x");
    expect_list(&xy, &x, all);
    drop(xy);
    drop(x);
}

fn expect_names(alloc: Global, ab: &Name, all: &Expectations) {
    expect_name(ab, all);
    let same = name(alloc, "ab");
    let b = name(alloc, "b");
    let empty = Name::new(alloc);
    expect_order(ab, &same, &b, &empty, all);
    drop(same);
    drop(b);
    drop(empty);
}

pub fn lists_and_names(alloc: Global, all: &Expectations) {
    let ab = name(alloc, "ab");
    expect_names(alloc, &ab, all);
    drop(ab);
    expect_lists(alloc, all);
    all.end("lists and names");
}

// Calls of a shelf of the files `a` and `b`, of which those of the numbers 5 and 7 fail.
const CALLS: &[(ShelfCall, &str)] = &[
    (ShelfCall::Names(&["a", "b"]), "names once, ascending"),
    (
        ShelfCall::Whole("b", 3, Ok(b"new")),
        "the last file of a name",
    ),
    (
        ShelfCall::Whole("c", 9, Err(ReadAllFault::Missing)),
        "no file",
    ),
    (
        ShelfCall::Whole("a", 4, Err(ReadAllFault::TooLong)),
        "a file over the limit",
    ),
    (
        ShelfCall::Length("a", Err(ShelfFault::Failed)),
        "call 5 fails",
    ),
    (ShelfCall::Part(3, 2, b"45\0\0"), "a read at the end"),
    (ShelfCall::NoNames(ShelfFault::Failed), "call 7 fails"),
];

fn two_files(alloc: Global) -> Result<MemoryShelf, NoMemory> {
    let held = files(alloc, &[("b", "old"), ("a", "12345"), ("b", "new")]);
    MemoryShelf::new(alloc, held, calls(alloc, &[5, 7]))
}

// Runs calls over a shelf in memory, where there is memory for it.
fn run(
    alloc: Global,
    shelf: Result<MemoryShelf, NoMemory>,
    calls: &[(ShelfCall, &str)],
    all: &Expectations,
) {
    if let Ok(mut shelf) = shelf {
        run_shelf(alloc, &mut shelf, calls, all);
        drop(shelf);
    }
}

pub fn shelf_in_memory(alloc: Global, all: &Expectations) {
    run(alloc, two_files(alloc), CALLS, all);
    all.end("shelf in memory");
}

// Bytes of the file `a` from an offset on, that many at most.
const PARTS: &[(ShelfCall, &str)] = &[
    (ShelfCall::Bytes("a", 0, 5, Ok(b"12345")), "all bytes"),
    (ShelfCall::Bytes("a", 1, 3, Ok(b"234")), "bytes within"),
    (ShelfCall::Bytes("a", 3, 9, Ok(b"45")), "bytes at the end"),
    (ShelfCall::Bytes("a", 5, 1, Ok(b"")), "none at the end"),
    (ShelfCall::Bytes("a", u64::MAX, 0, Ok(b"")), "none past it"),
    (
        ShelfCall::Bytes("b", 0, 1, Err(ShelfFault::Missing)),
        "no file",
    ),
];

fn one_file(alloc: Global) -> Result<MemoryShelf, NoMemory> {
    MemoryShelf::new(alloc, files(alloc, &[("a", "12345")]), Seq::new(alloc))
}

pub fn bytes_of_a_file(alloc: Global, all: &Expectations) {
    run(alloc, one_file(alloc), PARTS, all);
    all.end("bytes of a file");
}
