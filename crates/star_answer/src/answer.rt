//! The answer of a segment from a star-tree.

ghost use Rattle.std.specs.Prelude.{◌≡◌, ◌<◌, ◌≤◌, Err, IfOk, IsErrOf, MatchOption};
ghost use Rattle.std.specs.Prelude.{OnErr, OnOk};
ghost use Rattle.outside.specs.Seen.{OnlyReads, seen};
ghost use Rattle.group_table.specs.Kept.{FillsUp};
ghost use Rattle.group_table.specs.Pooled.{IsTableIn, StaysIn, in_pool};
ghost use Rattle.star_walk.specs.Images.{read_of};
ghost use Rattle.star_reader.specs.declared.fault.AnswerFault.TheVariants.{BadDocs, ReadFault};
ghost use Rattle.star_reader.specs.declared.fault.AnswerFault.TheVariants.{TooManyGroups};
ghost use Rattle.star_reader.specs.Answers.{Answers, CanAnswer, IsBad, IsOverfull, LogsPicks};
ghost use Rattle.star_reader.specs.Answers.{LogsSome, picks_of, reads_of};

use crate::merging::merge_documents;
use group_table::{GroupTable, SlotPool, TableFault};
use outside::Shelf;
use star_reader::{AnswerFault, Asked, TreePart, take_picks};
use star_walk::{Pick, Task, coalesced, coalesced_law, walk, walkable_law};
use std::alloc::Global;

/// Merges the states of the documents that a query reads of a star-tree, of those that pass their
/// remaining tests, into the groups of their keys, and answers how many documents were read. Of the
/// section of documents just these are read, each pick once, with one read for neighbours.
pub(crate) fn answer_tree<S: Shelf>(
    alloc: Global,
    shelf: &mut S,
    tree: &TreePart<'_>,
    task: &Task,
    asked: &Asked<'_>,
    rows: u32,
    groups: &mut GroupTable,
    pool: &mut SlotPool,
) -> Result<u32, AnswerFault>
    requires pooled { IsTableIn groups.old pool.old }
    requires room { CanAnswer tree.now task.now asked.now rows (in_pool groups.old pool.old) }
    ensures count { IfOk result (λ n. n ≡ read_of (picks_of tree.now task.now)) }
    ensures ok { OnOk result (Answers tree.now task.now asked.now rows (S.held shelf.old)
        (in_pool groups.old pool.old) (in_pool groups.new pool.new)) }
    ensures full { result ≡ Err TooManyGroups → FillsUp
        (IsOverfull tree.now task.now asked.now (S.held shelf.old) (in_pool groups.old pool.old))
        groups.old.most (in_pool groups.new pool.new) }
    ensures bad { IsErrOf result BadDocs
        → IsBad tree.now task.now asked.now rows (S.held shelf.old) }
    ensures only_reads { OnlyReads (IsErrOf result ReadFault)
        (seen S.Shelf shelf.old) (seen S.Shelf shelf.new) }
    ensures log { IfOk result (λ _. LogsPicks tree.now (reads_of tree.now task.now)
        (S.log shelf.old) (S.log shelf.new)) }
    ensures log_of_fault { OnErr result (LogsSome tree.now (reads_of tree.now task.now)
        (S.log shelf.old) (S.log shelf.new)) }
    ensures stays { StaysIn groups.old pool.old groups.new pool.new }
{
    walkable_law();
    coalesced_law();
    let picks = walk(alloc, tree.nodes, task)?;
    let picks = coalesced(alloc, &picks)?;
    let Some(count) = count_within(picks.as_slice(), rows) else {
        return Err(AnswerFault::BadDocs);
    };
    let selected = match take_picks(alloc, shelf, tree, task, asked, rows, picks.as_slice()) {
        Ok(selected) => selected,
        Err(fault) => return Err(fault),
    };
    match merge_documents(alloc, asked.columns, selected, groups, pool) {
        Ok(()) => Ok(count),
        Err(TableFault::TooManyGroups) => Err(AnswerFault::TooManyGroups),
        Err(TableFault::NoMemory) => Err(AnswerFault::NoMemory),
    }
}

// How many documents picks have, if they are at most so many.
fn count_within(picks: &[Pick], most: u32) -> Option<u32>
    ensures { MatchOption result (most < read_of picks.now)
        (λ n. (n ≡ read_of picks.now) × (n ≤ most)) }
{
    let mut count: u64 = 0;
    for pick in picks {
        count += pick.end.saturating_sub(pick.start) as u64;
        if count > most as u64 {
            return None;
        }
    }
    Some(count as u32)
}
