//! A segment is answered from a star-tree of its file.

ghost use Rattle.std.specs.Prelude.{◌≡◌, ◌<◌, Err, IfOk, IsErrOf, OnErr, OnOk, Some, length};
ghost use Rattle.std.specs.FinMap as finite;
ghost use Rattle.outside.specs.Seen.{OnlyReads, seen};
ghost use Rattle.group_table.specs.Kept.{groups_in};
ghost use Rattle.group_table.specs.Pooled.{IsTableIn, StaysIn, in_pool};
ghost use Rattle.segment_file.specs.declared.part.Part.{Part};
ghost use Rattle.segment_file.specs.declared.part.Part.TheVariants as parts;
ghost use Rattle.segment_head.specs.Heads.{IsHeadOf, place_in};
ghost use Rattle.segment_head.specs.declared.fault.EngineFault.TheVariants.{NotASegment, ReadFault, TooManyGroups};
ghost use Rattle.star_answer.specs.Segments.{AddsAnswer, AreDocsRead, IsAnswerOverfull, IsBadTree, IsServable, LogsAnswer, LogsAnswerPartly};

use crate::answer::answer_tree;
use crate::asking::{group_columns, pair_numbers};
use crate::doc_laws::docs_read_law;
use crate::laws::served_law;
use crate::tasks::tree_task;
use crate::tree_fault::of_tree;
use group_table::{GroupTable, SlotPool};
use outside::{Place, Shelf};
use segment_file::Part;
use segment_head::{EngineFault, Head, engine_fault};
use segment_plan::head_tells_law;
use star_reader::{Asked, TreePart};
use star_walk::walkable_law;
use std::alloc::Global;
use table_schema::{BoundQuery, Table};

/// Merges what a query reads of a star-tree of a segment into its groups, and answers how many
/// documents were read. The nodes of the tree are read, and of its documents just those of the
/// walk, each once; no row.
pub fn answer_segment<S: Shelf>(
    alloc: Global,
    shelf: &mut S,
    head: &Head,
    table: &Table,
    tree: u8,
    query: &BoundQuery,
    groups: &mut GroupTable,
    pool: &mut SlotPool,
) -> Result<u32, EngineFault>
    requires pooled { IsTableIn groups.old pool.old }
    requires room { IsServable query.now table.now head.now tree (in_pool groups.old pool.old) }
    ensures count { IfOk result
        (AreDocsRead query.now table.now (S.held shelf.old) head.now tree) }
    ensures ok { OnOk result (AddsAnswer query.now table.now (S.held shelf.old) head.now
        (in_pool groups.old pool.old) (in_pool groups.new pool.new)) }
    ensures full { result ≡ Err TooManyGroups →
        IsAnswerOverfull query.now table.now (S.held shelf.old) head.now (in_pool groups.old
        pool.old) }
    ensures filled { result ≡ Err TooManyGroups →
        finite.len (groups_in (in_pool groups.new pool.new)) ≡ groups.old.most }
    ensures bad { (part : Part) → result ≡ Err (NotASegment part) →
        IsBadTree query.now table.now (S.held shelf.old) head.now tree part }
    ensures only_reads { OnlyReads (IsErrOf result ReadFault)
        (seen S.Shelf shelf.old) (seen S.Shelf shelf.new) }
    ensures log { IfOk result (λ count. LogsAnswer query.now table.now (S.held shelf.old) head.now
        tree count (S.log shelf.old) (S.log shelf.new)) }
    ensures log_of_fault { OnErr result (LogsAnswerPartly query.now table.now (S.held shelf.old)
        head.now tree (S.log shelf.old) (S.log shelf.new)) }
    ensures stays { StaysIn groups.old pool.old groups.new pool.new }
{
    served_law();
    docs_read_law();
    walkable_law();
    head_tells_law();
    let opened = match head.read_tree(alloc, shelf, table, tree) {
        Ok(opened) => opened,
        Err(fault) => return Err(engine_fault(fault)),
    };
    let setting = table.settings.trees.at(tree as usize);
    let task = tree_task(alloc, query, setting, head)?;
    let columns = group_columns(alloc, query, setting, head)?;
    let pairs = pair_numbers(alloc, query, setting)?;
    let part = TreePart::of_file(setting, &opened, documents_of(head, table, tree));
    let asked = Asked {
        columns: columns.as_slice(),
        pairs: pairs.as_slice(),
    };
    match answer_tree(
        alloc,
        shelf,
        &part,
        &task,
        &asked,
        head.rows(),
        groups,
        pool,
    ) {
        Ok(count) => Ok(count),
        Err(fault) => Err(of_tree(fault, tree)),
    }
}

// Where the documents of a tree are.
fn documents_of<'a>(head: &'a Head, table: &Table, tree: u8) -> &'a Place
    requires of_table { IsHeadOf table.now head.now }
    requires tree { tree < length table.now.settings.trees }
    ensures { place_in head.now.sections (parts.Star tree) ≡ Some result.now }
{
    match head.place(Part::Star(tree)) {
        Some(place) => place,
        None => unreachable!(),
    }
}
