//! The nodes of the star-trees of a segment's file.
ghost use Rattle.std.specs.Prelude.{◌≡◌, ◌≤◌, ◌<◌, ◌+◌, ◌++◌, ◌∷◌, [], ℕ, length, map, IfOk, IfErr, OnOk, IsErrOf};
ghost use Rattle.std.specs.List.{All};
ghost use Rattle.table_schema.specs.ValidTable.{IsValidTable};
ghost use Rattle.segment_file.specs.Reading.{trees_said, count_at};
ghost use Rattle.segment_file.specs.Parts.{columns_of};
ghost use Rattle.segment_head.specs.Reading.{NodesStop, heads_read};
ghost use Rattle.segment_file.specs.Rules.{AreSpelled, HaveNodes};
ghost use Rattle.segment_file.specs.declared.part.Part.{Part};
ghost use Rattle.segment_file.specs.declared.part.Part.TheVariants as part;
ghost use Rattle.segment_file.specs.declared.fault.HeadFault.TheVariants.{NotASegment};

use crate::NoMemory;
use crate::dictionaries::section_bytes;
use dictionary::Dictionary;
use segment_file::{HeadFault, Part, Section, TreeNodes, check_tree};
use star_file::NodesFault;
use std::alloc::Global;
use table_schema::Table;

/// The nodes of all trees, or the number of the first tree whose section has none.
pub(crate) fn check_trees(
    alloc: Global,
    table: &Table,
    rows: u32,
    dictionaries: &[Dictionary],
    sections: &[Section],
    bytes: &[u8],
) -> Result<Vec<TreeNodes>, HeadFault>
    requires valid { IsValidTable table.now }
    requires each { length table.now.schema.fields + 1 + length table.now.settings.trees
        ≤ length sections.now }
    requires spelled { AreSpelled table.now rows (heads_read table.now sections.now bytes.now)
        (columns_of table.now) dictionaries.now }
    ensures said { IfOk result (λ trees. trees.items
        ≡ trees_said table.now (heads_read table.now sections.now bytes.now)) }
    ensures ok { OnOk result (HaveNodes table.now rows
        (heads_read table.now sections.now bytes.now) (length table.now.settings.trees)) }
    ensures read { ¬ IsErrOf result HeadFault.ReadFault }
    ensures bad { IfErr result (λ fault. (p : Part) → fault ≡ NotASegment p →
        (tree : ℕ) × (p ≡ part.Nodes tree)
        × NodesStop table.now rows (heads_read table.now sections.now bytes.now) tree) }
{
    let settings = table.settings.trees.as_slice();
    let first = table.schema.fields.len() + 1;
    let mut trees = Vec::with_capacity(alloc, settings.len())?;
    for tree in 0..settings.len() {
        let setting = &settings[tree];
        let bytes = section_bytes(bytes, &sections[first + tree]);
        let counts = counts_of(alloc, dictionaries, setting.split.as_slice())?;
        match check_tree(alloc, &setting.shape, &counts, rows, bytes) {
            Ok(nodes) => keep(nodes, &mut trees)?,
            Err(fault) => return Err(of_nodes(fault, tree as u8)),
        }
    }
    Ok(trees)
}

fn keep(nodes: TreeNodes, trees: &mut Vec<TreeNodes>) -> Result<(), NoMemory>
    ensures { OnOk result (trees.new.items ≡ trees.old.items ++ nodes ∷ []) }
{
    trees.push(nodes)?;
    Ok(())
}

// How many values each of these columns has.
fn counts_of(
    alloc: Global,
    dictionaries: &[Dictionary],
    columns: &[u16],
) -> Result<Vec<u32>, NoMemory>
    requires { All (λ column. column < length dictionaries.now) columns.now }
    ensures { IfOk result (λ counts. counts.items ≡ map (count_at dictionaries.now) columns.now) }
{
    let mut counts = Vec::with_capacity(alloc, columns.len())?;
    for column in columns {
        counts.push(dictionaries[*column as usize].count())?;
    }
    Ok(counts)
}

/// What a fault of the nodes of a tree is for the head.
pub(crate) fn of_nodes(fault: NodesFault, tree: u8) -> HeadFault
    ensures bad { fault ≡ NodesFault.BadNodes → result ≡ NotASegment (part.Nodes tree) }
    ensures memory { fault ≡ NodesFault.NoMemory → result ≡ HeadFault.NoMemory }
    ensures read { ¬ (result ≡ HeadFault.ReadFault) }
{
    match fault {
        NodesFault::BadNodes => HeadFault::NotASegment(Part::Nodes(tree)),
        NodesFault::NoMemory => HeadFault::NoMemory,
    }
}
