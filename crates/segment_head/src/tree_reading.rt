//! The nodes of a tree of a head that is open are read.
ghost use Rattle.std.specs.Prelude.{◌≡◌, ◌<◌, ◌≤◌, ◌+◌, ◌++◌, ◌∷◌, [], IfOk, IfSome, OnOk, Some, length, slice_get};
ghost use Rattle.outside.specs.Seen.{seen};
ghost use Rattle.segment_head.specs.Calls.{IsNodesPart, IsSplitPart, IsTreeOf, Names, ReadsPart};
ghost use Rattle.segment_head.specs.Heads.{AreKept, HaveCounts, LogsCounts, LogsTree, OfWhole, nodes_section, split_of};

use crate::trees::of_nodes;
use crate::{Head, NoMemory};
use outside::Shelf;
use segment_file::{HeadFault, Part, Section, TreeNodes, check_tree, read_exactly};
use std::alloc::Global;
use table_schema::Table;

/// What is read of a star-tree where its documents are not: how many values each split dimension
/// has, and the nodes.
#[derive(Drop)]
pub struct OpenTree {
    pub counts: Vec<u32>,
    pub nodes: TreeNodes,
}

impl Head {
    /// The nodes of a tree: its section alone is read, after how many values there are of the split
    /// dimensions whose dictionaries are not loaded.
    pub fn read_tree<S: Shelf>(
        &self,
        alloc: Global,
        shelf: &mut S,
        table: &Table,
        tree: u8,
    ) -> Result<OpenTree, HeadFault>
        requires { IsTreeOf table.now self.now tree }
        ensures reads { ReadsPart (λ t whole. slice_get whole.trees tree ≡ Some (Some t.nodes))
            table.now self.now (seen S.Shelf shelf.old) (seen S.Shelf shelf.new) result }
        ensures counts { IfOk result (λ t. OfWhole table.now (S.held shelf.old) self.now
            (HaveCounts (split_of table.now tree) t.counts.items)) }
        ensures keeps { IfOk result (λ t. IfSome (slice_get table.now.settings.trees tree)
            (λ setting. AreKept setting.shape t.counts.items t.nodes)) }
        ensures part { Names (IsNodesPart table.now tree) result }
        ensures log { LogsTree table.now self.now tree (S.log shelf.old) (S.log shelf.new) }
    {
        let counts = match self.split_counts(alloc, shelf, table, tree) {
            Ok(counts) => counts,
            Err(fault) => return Err(fault),
        };
        let place = &self.nodes_section(table, tree).place;
        let file = place.file.as_str();
        let bytes = match read_exactly(alloc, shelf, file, place.offset, place.length) {
            Ok(bytes) => bytes,
            Err(fault) => return Err(fault),
        };
        let shape = &table.settings.trees.at(tree as usize).shape;
        match check_tree(alloc, shape, &counts, self.rows, bytes.as_slice()) {
            Ok(nodes) => Ok(OpenTree { counts, nodes }),
            Err(fault) => Err(of_nodes(fault, tree)),
        }
    }

    // How many values each split dimension of a tree has.
    fn split_counts<S: Shelf>(
        &self,
        alloc: Global,
        shelf: &mut S,
        table: &Table,
        tree: u8,
    ) -> Result<Vec<u32>, HeadFault>
        requires { IsTreeOf table.now self.now tree }
        ensures reads { ReadsPart (λ counts. HaveCounts (split_of table.now tree) counts.items)
            table.now self.now (seen S.Shelf shelf.old) (seen S.Shelf shelf.new) result }
        ensures each { IfOk result (λ counts. length counts.items
            ≡ length (split_of table.now tree)) }
        ensures part { Names (IsSplitPart (split_of table.now tree)) result }
        ensures log { LogsCounts self.now (split_of table.now tree)
            (S.log shelf.old) (S.log shelf.new) }
    {
        let split = table.settings.trees.at(tree as usize).split.as_slice();
        let mut counts = Vec::with_capacity(alloc, split.len())?;
        for column in split {
            match self.count(alloc, shelf, table, *column) {
                Ok(count) => keep(count, &mut counts)?,
                Err(fault) => return Err(fault),
            }
        }
        Ok(counts)
    }

    // The section of the nodes of a tree.
    fn nodes_section(&self, table: &Table, tree: u8) -> &Section
        requires fields { length table.now.schema.fields ≤ 64 }
        requires within { length table.now.schema.fields + 1 + tree < length self.now.sections }
        ensures { nodes_section table.now self.now tree ≡ Some result.now }
    {
        &self.sections[table.schema.fields.len() + 1 + tree as usize]
    }
}

fn keep(count: u32, counts: &mut Vec<u32>) -> Result<(), NoMemory>
    ensures { OnOk result (counts.new.items ≡ counts.old.items ++ count ∷ []) }
{
    counts.push(count)?;
    Ok(())
}
