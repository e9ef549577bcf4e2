//! The documents of picks are read, pick by pick, and those that pass their remaining tests are
//! selected.

ghost use Rattle.std.specs.Prelude.{◌≡◌, ◌<◌, ◌≤◌, IfOk, IfSome, IsErrOf, List, OnErr, length};
ghost use Rattle.outside.specs.Seen.{OnlyReads, seen};
ghost use Rattle.state_columns.specs.Docs.{Doc};
ghost use Rattle.star_file.specs.Reading.{section};
ghost use Rattle.star_reader.specs.declared.fault.AnswerFault.TheVariants.{BadDocs, ReadFault};
ghost use Rattle.star_reader.specs.declared.fault.AnswerFault.TheVariants.{TooManyGroups};
ghost use Rattle.star_reader.specs.Answers.{AreRead, CanTake, LogsPicks, LogsSome, asked_of, passed};
ghost use Rattle.star_reader.specs.Selected.{ArePicked, MayBeSelected, fault_of, selected_docs};
ghost use Rattle.star_reader.specs.Taken.{CanTakePart, LogsPart, LogsPartUpTo, RefusesPart};
ghost use Rattle.star_reader.specs.Taken.{TakesPart};

use crate::asked::Asked;
use crate::fault::AnswerFault;
use crate::selection::Selected;
use crate::tree_part::TreePart;
use outside::Shelf;
use star_file::{DocsFault, read_docs};
use star_table::StarTable;
use star_walk::{Pick, Task};
use std::alloc::Global;

/// Reads the documents of picks, and takes those that pass their remaining tests.
pub fn take_picks<S: Shelf>(
    alloc: Global,
    shelf: &mut S,
    tree: &TreePart<'_>,
    task: &Task,
    asked: &Asked<'_>,
    rows: u32,
    picks: &[Pick],
) -> Result<StarTable, AnswerFault>
    requires { CanTake tree.now task.now asked.now rows picks.now }
    ensures selected { IfOk result
        (ArePicked tree.now task.now asked.now rows (S.held shelf.old) picks.now) }
    ensures bad { IsErrOf result BadDocs → IfSome (S.held shelf.old) (λ files.
        (read : List (List Doc)) → AreRead tree.now.shape.now tree.now.counts.now
        (section files tree.now.documents.now) picks.now read
        → ¬ MayBeSelected asked.now.columns.now
        rows (selected_docs asked.now (passed (asked_of task.now) (length task.now.matched)
        picks.now
        read))) }
    ensures never { IsErrOf result TooManyGroups → ⊥ }
    ensures only_reads { OnlyReads (IsErrOf result ReadFault)
        (seen S.Shelf shelf.old) (seen S.Shelf shelf.new) }
    ensures log { IfOk result (λ _. LogsPicks tree.now picks.now
        (S.log shelf.old) (S.log shelf.new)) }
    ensures log_of_fault { OnErr result (LogsSome tree.now picks.now
        (S.log shelf.old) (S.log shelf.new)) }
{
    let mut selected = Selected::new(alloc, asked, tree.shape)?;
    for pick in picks {
        if let Err(fault) = take_pick(alloc, shelf, tree, task, asked, rows, pick, &mut selected) {
            return Err(fault);
        }
    }
    Ok(selected.table)
}

// Takes those documents of a pick that pass their remaining tests. Some are read at once, so that
// their bytes are still near when they are looked at.
fn take_pick<S: Shelf>(
    alloc: Global,
    shelf: &mut S,
    tree: &TreePart<'_>,
    task: &Task,
    asked: &Asked<'_>,
    rows: u32,
    pick: &Pick,
    selected: &mut Selected,
) -> Result<(), AnswerFault>
    requires { CanTakePart tree.now task.now asked.now rows pick.now selected.old.table }
    ensures taken { IfOk result (λ _. TakesPart tree.now task.now asked.now rows
        (S.held shelf.old) pick.now selected.old.table selected.new.table) }
    ensures bad { IsErrOf result BadDocs → RefusesPart tree.now task.now asked.now rows
        (S.held shelf.old) pick.now selected.old.table }
    ensures never { IsErrOf result TooManyGroups → ⊥ }
    ensures only_reads { OnlyReads (IsErrOf result ReadFault)
        (seen S.Shelf shelf.old) (seen S.Shelf shelf.new) }
    ensures log { IfOk result (λ _. LogsPart tree.now pick.now
        (S.log shelf.old) (S.log shelf.new)) }
    ensures log_of_fault { OnErr result (LogsPartUpTo tree.now pick.now
        (S.log shelf.old) (S.log shelf.new)) }
{
    let mut start = pick.start;
    'parts: while start < pick.end {
        let part = part_from(pick, start);
        if let Err(fault) = take_part(alloc, shelf, tree, task, asked, rows, &part, selected) {
            return Err(fault);
        }
        start = part.end;
    }
    Ok(())
}

// The documents of a pick from a number on, as many as are read at once.
fn part_from(pick: &Pick, start: u32) -> Pick
    requires { start < pick.now.end }
    ensures start { result.start ≡ start }
    ensures more { start < result.end }
    ensures within { result.end ≤ pick.now.end }
    ensures level { result.level ≡ pick.now.level }
{
    Pick {
        start,
        end: start + (pick.end - start).min(2048),
        level: pick.level,
    }
}

// Reads the documents of a pick, and takes those that pass their remaining tests.
fn take_part<S: Shelf>(
    alloc: Global,
    shelf: &mut S,
    tree: &TreePart<'_>,
    task: &Task,
    asked: &Asked<'_>,
    rows: u32,
    pick: &Pick,
    selected: &mut Selected,
) -> Result<(), AnswerFault>
    requires { CanTakePart tree.now task.now asked.now rows pick.now selected.old.table }
    ensures taken { IfOk result (λ _. TakesPart tree.now task.now asked.now rows
        (S.held shelf.old) pick.now selected.old.table selected.new.table) }
    ensures bad { IsErrOf result BadDocs → RefusesPart tree.now task.now asked.now rows
        (S.held shelf.old) pick.now selected.old.table }
    ensures never { IsErrOf result TooManyGroups → ⊥ }
    ensures only_reads { OnlyReads (IsErrOf result ReadFault)
        (seen S.Shelf shelf.old) (seen S.Shelf shelf.new) }
    ensures log { IfOk result (λ _. LogsPart tree.now pick.now
        (S.log shelf.old) (S.log shelf.new)) }
    ensures log_of_fault { OnErr result (LogsPartUpTo tree.now pick.now
        (S.log shelf.old) (S.log shelf.new)) }
{
    let table = match read_docs(
        alloc,
        shelf,
        tree.documents,
        tree.shape,
        tree.counts,
        pick.start,
        pick.end,
    ) {
        Ok(table) => table,
        Err(fault) => return Err(of_docs(fault)),
    };
    let level = pick.level as usize;
    if !selected.take_passing(task, &table, level, asked, tree.shape, rows)? {
        return Err(AnswerFault::BadDocs);
    }
    Ok(())
}

// What the fault of documents is for an answer.
fn of_docs(fault: DocsFault) -> AnswerFault
    ensures { result ≡ fault_of fault }
{
    match fault {
        DocsFault::ReadFault => AnswerFault::ReadFault,
        DocsFault::BadDocs => AnswerFault::BadDocs,
        DocsFault::NoMemory => AnswerFault::NoMemory,
    }
}
