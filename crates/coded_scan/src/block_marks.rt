//! The marks of the rows of a block that conditions let through.

ghost use Rattle.std.specs.Prelude.{◌≡◌, ◌+◌, ◌<◌, ◌≤◌, ◌&&◌, ℕ, Bool, OnOk, length, true};
ghost use Rattle.coded_scan.specs.Marks.{AreMarks, HasWords};
ghost use Rattle.coded_scan.specs.RowFilters.{AllCover, all_let, covers, lets};

use crate::block::Block;
use crate::marking::{mark_ids, mark_same};
use crate::row_filter::RowFilter;
use crate::words::{has_mark, keep_both, keep_either};
use std::alloc::Global;
use values::NoMemory;

/// Marks the rows of a block that all conditions let through, of which there are some, with room
/// for the marks of one.
pub fn mark_block(
    alloc: Global,
    row_filters: &[RowFilter<'_>],
    count: usize,
    block: Block,
    words: &mut [u64],
    others: &mut [u64],
) -> Result<(), NoMemory>
    requires some { 0 < length row_filters.now }
    requires covers { AllCover count row_filters.now }
    requires within { block.from + block.length ≤ count }
    requires words { HasWords block.length words.old }
    requires same { length others.old ≡ length words.old }
    ensures marks { OnOk result (AreMarks block.length
        (λ at. all_let (block.from + at) row_filters.now) words.new) }
{
    mark_rows(alloc, count, block, &row_filters[0], words)?;
    for at in 1..row_filters.len() {
        keep(alloc, count, block, &row_filters[at], words, others)?;
    }
    Ok(())
}

// Leaves the marks of the rows that a condition lets through. Where none is left there is nothing
// to do.
fn keep(
    alloc: Global,
    count: usize,
    block: Block,
    row_filter: &RowFilter<'_>,
    words: &mut [u64],
    others: &mut [u64],
) -> Result<(), NoMemory>
    requires covers { covers count row_filter.now ≡ true }
    requires within { block.from + block.length ≤ count }
    requires words { HasWords block.length words.old }
    requires same { length others.old ≡ length words.old }
    ensures { OnOk result ((holds : ℕ → Bool) → AreMarks block.length holds words.old
        → AreMarks block.length (λ at. holds at && lets (block.from + at) row_filter.now)
        words.new) }
{
    if !has_mark(words) {
        return Ok(());
    }
    mark_rows(alloc, count, block, row_filter, others)?;
    keep_both(words, others);
    Ok(())
}

// The marks of those rows of a block that a condition lets through.
fn mark_rows(
    alloc: Global,
    count: usize,
    block: Block,
    row_filter: &RowFilter<'_>,
    words: &mut [u64],
) -> Result<(), NoMemory>
    requires covers { covers count row_filter.now ≡ true }
    requires within { block.from + block.length ≤ count }
    requires words { HasWords block.length words.old }
    ensures { OnOk result (AreMarks block.length (λ at. lets (block.from + at) row_filter.now)
        words.new) }
{
    match row_filter {
        RowFilter::Ids(ids, matching) => {
            mark_ids(ids.between(block.from, block.length), matching, words);
            Ok(())
        }
        RowFilter::Fixed(holds) => {
            mark_same(block.length, *holds, words);
            Ok(())
        }
        RowFilter::All(inner) => {
            mark_same(block.length, true, words);
            let mut room = vec![in alloc; 0u64; words.len()]?;
            let others = room.as_mut_slice();
            for member in inner.as_slice() {
                mark_rows(alloc, count, block, member, others)?;
                keep_both(words, others);
            }
            Ok(())
        }
        RowFilter::Any(inner) => {
            mark_same(block.length, false, words);
            let mut room = vec![in alloc; 0u64; words.len()]?;
            let others = room.as_mut_slice();
            for member in inner.as_slice() {
                mark_rows(alloc, count, block, member, others)?;
                keep_either(words, others);
            }
            Ok(())
        }
    }
}
