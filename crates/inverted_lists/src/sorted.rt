//! The section of a sorted column is written.
ghost use Rattle.std.specs.Prelude.{◌≡◌, ◌≤◌, ◌<◌, ◌+◌, ◌++◌, All, length, OnOk, OnErr, IfOk};
ghost use Rattle.std.specs.List.Sorted.{IsNonDecreasing};
ghost use Rattle.bit_column.specs.SortedRuns.{runs, sorted_runs};
ghost use Rattle.inverted_lists.specs.Cuts.{Cut};

use crate::words::write_words;
use outside::NoMemory;
use std::alloc::Global;

/// Appends, for each id below the count, its first place in ascending ids and the place after its
/// last one.
pub fn write_sorted(ids: &[u32], count: u32, out: &mut Vec<u8>) -> Result<(), NoMemory>
    requires at_most { length ids.now ≤ 1048576 }
    requires below { All (λ id. id < count) ids.now }
    requires ascend { IsNonDecreasing ids.now }
    ensures ok { OnOk result (out.new.items ≡ out.old.items ++ sorted_runs count ids.now) }
    ensures err { OnErr result (out.new.items ≡ out.old.items) }
{
    let ends = run_ends(*out.allocator(), ids, count)?;
    write_words(ends.as_slice(), out)
}

// The first place of each id below the count, and the place after its last one.
fn run_ends(alloc: Global, ids: &[u32], count: u32) -> Result<Vec<u32>, NoMemory>
    requires at_most { length ids.now ≤ 1048576 }
    requires ascend { IsNonDecreasing ids.now }
    ensures { IfOk result (λ ends. ends.items ≡ runs count ids.now) }
{
    let mut ends = Vec::with_capacity(alloc, 2 * count as usize)?;
    let mut first = 0;
    for id in 0..count {
        let end = end_of_run(ids, first, id);
        ends.push(first as u32)?;
        ends.push(end as u32)?;
        first = end;
    }
    Ok(ends)
}

// The place after the last one of an id, whose places begin at `first`.
fn end_of_run(ids: &[u32], first: usize, id: u32) -> usize
    requires ascend { IsNonDecreasing ids.now }
    requires cut { Cut ids.now id first }
    ensures { Cut ids.now (id + 1) result }
{
    let mut end = first;
    while end < ids.len() && ids[end] == id {
        end += 1;
    }
    end
}
