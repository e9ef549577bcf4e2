//! The depot in memory, and what each depot does.

use crate::device_calls::{DepotCall, ShelfCall, run_depot};
use crate::expect::Expectations;
use crate::fixtures::{calls, files};
use memory_devices::MemoryDepot;
use outside::{DepotFault, NoMemory, ShelfFault};
use std::alloc::Global;

/// Calls of a depot that has the file `a` and an empty part `p`.
pub const CALLS: &[(DepotCall, &str)] = &[
    (DepotCall::Append("p", b"12", Ok(())), "more of a part"),
    (
        DepotCall::Append("q", b"never begun", Ok(())),
        "a part that was not begun",
    ),
    (DepotCall::Append("p", b"3", Ok(())), "still more"),
    (
        DepotCall::Shelf(ShelfCall::Names(&["a"])),
        "parts are not listed",
    ),
    (DepotCall::Publish("p", "b", Ok(())), "a part is published"),
    (
        DepotCall::Shelf(ShelfCall::Whole("b", 9, Ok(b"123"))),
        "its bytes",
    ),
    (DepotCall::Publish("p", "b", Ok(())), "no part is published"),
    (
        DepotCall::Shelf(ShelfCall::Length("b", Ok(0))),
        "as an empty file",
    ),
    (DepotCall::Remove("a", Ok(())), "a file is removed"),
    (
        DepotCall::Remove("a", Err(DepotFault::Missing)),
        "and not again",
    ),
    (
        DepotCall::Shelf(ShelfCall::Length("a", Err(ShelfFault::Missing))),
        "it is gone",
    ),
];

// Calls of a depot of which that of the number 1 fails.
const FAILING: &[(DepotCall, &str)] = &[
    (DepotCall::Begin("p", Ok(())), "a part is begun"),
    (
        DepotCall::Append("p", b"x", Err(DepotFault::Failed)),
        "call 1 fails",
    ),
];

fn one_file(alloc: Global) -> Result<MemoryDepot, NoMemory> {
    MemoryDepot::new(alloc, files(alloc, &[("a", "1")]), calls(alloc, &[1]))
}

pub fn depot_in_memory(alloc: Global, all: &Expectations) {
    if let Ok(mut depot) = one_file(alloc) {
        run_depot(alloc, &mut depot, FAILING, all);
        run_depot(alloc, &mut depot, CALLS, all);
        drop(depot);
    }
    all.end("depot in memory");
}
