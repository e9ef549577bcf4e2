//! The sections of a segment's file are made, a column after the other.
ghost use Rattle.std.specs.Prelude.{◌≡◌, ◌<◌, ◌≤◌, ◌++◌, true, [], length, IfErr, IfOk, OnOk};
ghost use Rattle.std.specs.List.Sorted.{IsNonDecreasing};
ghost use Rattle.value_ids.specs.Coding.{AreBelow};
ghost use Rattle.dictionary.specs.Spelling.{spelling};
ghost use Rattle.bit_column.specs.Column.{spelled, width_of};
ghost use Rattle.bit_column.specs.Postings.{inverted, ranged};
ghost use Rattle.bit_column.specs.SortedRuns.{sorted_runs};
ghost use Rattle.segment_build.specs.Made.{each_bytes, section_bytes};
ghost use Rattle.segment_build.specs.Sections.{HasNone, in_order, made_of, only, with_column, with_plain};
ghost use Rattle.values.specs.Columns.{rows_of};
ghost use Rattle.segment_file.specs.Ordered.{ordered};
ghost use Rattle.segment_build.specs.Arranging.{Orders, arranged, places_in};
ghost use Rattle.segment_build.specs.Coded.{AreCoded, MayPush, columns_in, dictionary_of_ids};

use crate::ColumnIds;
use crate::coded::{CodedColumn, CodedColumns};
use crate::coding::RowOrder;
use crate::grown::Grown;
use crate::indexes::{Indexes, indexes_at};
use crate::section::MadeSection;
use bit_column::width_for;
use dictionary::Dictionary;
use inverted_lists::{write_inverted, write_ranged, write_sorted};
use outside::{NoMemory, Seq};
use segment_file::push_ends;
use std::alloc::Global;
use std::marker::Model;
use std::mem::replace;
use table_schema::Table;

/// The sections of the columns that were taken so far. The bounds are of all columns, and each
/// column has a dictionary and a forward index; the sorted one has runs of places, inverted ones
/// have lists of places, and ones with a range index have those of buckets.
#[derive(Drop)]
pub struct Sections {
    bounds: Vec<u8>,
    dictionaries: Vec<MadeSection>,
    forwards: Vec<MadeSection>,
    runs: Vec<MadeSection>,
    lists: Vec<MadeSection>,
    ranges: Vec<MadeSection>,
}

impl Model for Sections {
    ghost use Rattle.segment_build.specs.Made.{each_bytes};
    ghost use Rattle.segment_build.specs.Sections.{Made};

    ghost Value = { Made };

    ghost view = { λ s. record {
      bounds = s.bounds.items;
      dictionaries = each_bytes s.dictionaries.items;
      forwards = each_bytes s.forwards.items;
      runs = each_bytes s.runs.items;
      lists = each_bytes s.lists.items;
      ranges = each_bytes s.ranges.items;
    } };
}

impl Sections {
    /// The sections of no column yet, with room for those of so many.
    pub fn with_capacity(alloc: Global, columns: usize) -> Result<Self, NoMemory>
        ensures { IfOk result (λ s. s ≡ record {
          bounds = [];
          dictionaries = [];
          forwards = [];
          runs = [];
          lists = [];
          ranges = [];
        }) }
    {
        Ok(Sections {
            bounds: Vec::new(alloc),
            dictionaries: Vec::with_capacity(alloc, columns)?,
            forwards: Vec::with_capacity(alloc, columns)?,
            runs: Vec::new(alloc),
            lists: Vec::new(alloc),
            ranges: Vec::new(alloc),
        })
    }

    /// Adds those of a column that has this dictionary, these ids and these indexes.
    pub fn push(
        &mut self,
        alloc: Global,
        dictionary: &Dictionary,
        ids: &[u32],
        indexes: Indexes,
    ) -> Result<(), NoMemory>
        requires at_most { length ids.now ≤ 1048576 }
        requires below { AreBelow (length dictionary.now.values) ids.now }
        requires ascend { indexes.sorted ≡ true → IsNonDecreasing ids.now }
        ensures { OnOk result (self.new ≡ with_column dictionary.now ids.now indexes self.old) }
    {
        let count = dictionary.count();
        let coded = CodedIds { ids, count };
        push_ends(alloc, dictionary, &mut self.bounds)?;
        self.dictionaries
            .push(dictionary_section(alloc, dictionary)?)?;
        self.forwards.push(forward_section(alloc, coded)?)?;
        push_runs(alloc, indexes.sorted, coded, &mut self.runs)?;
        push_lists(alloc, indexes.inverted, coded, &mut self.lists)?;
        push_ranges(alloc, indexes.ranged, coded, &mut self.ranges)?;
        Ok(())
    }

    // Adds those that each column has: its bounds, its dictionary and its forward index.
    fn push_plain(
        &mut self,
        alloc: Global,
        dictionary: &Dictionary,
        forward: Vec<u8>,
    ) -> Result<(), NoMemory>
        ensures { OnOk result (self.new ≡ with_plain dictionary.now forward.items self.old) }
    {
        push_ends(alloc, dictionary, &mut self.bounds)?;
        self.dictionaries
            .push(dictionary_section(alloc, dictionary)?)?;
        self.forwards
            .push(MadeSection::Stands(Seq::from_vec(forward)))?;
        Ok(())
    }

    /// All of them with those of the star-trees, in the order of the file.
    pub(crate) fn into_list(self, alloc: Global, trees: Grown) -> Result<Vec<MadeSection>, NoMemory>
        ensures { IfOk result (λ all. each_bytes all.items
            ≡ in_order self (each_bytes trees.nodes.items) (each_bytes trees.stars.items)) }
    {
        let mut sections = self;
        let mut trees = trees;
        let room = 1 + 2 * sections.dictionaries.len();
        let mut all = Vec::with_capacity(alloc, room)?;
        sections.move_to(alloc, &mut trees, &mut all)?;
        Ok(all)
    }

    // Moves all of them, with those of the star-trees, to the end of a list.
    fn move_to(
        &mut self,
        alloc: Global,
        trees: &mut Grown,
        all: &mut Vec<MadeSection>,
    ) -> Result<(), NoMemory>
        ensures { OnOk result (each_bytes all.new.items ≡ each_bytes all.old.items ++ in_order
            self.old (each_bytes trees.old.nodes.items) (each_bytes trees.old.stars.items)) }
    {
        let bounds = replace(&mut self.bounds, Vec::new(alloc));
        all.push(MadeSection::Stands(Seq::from_vec(bounds)))?;
        all.append(&mut self.dictionaries)?;
        all.append(&mut trees.nodes)?;
        all.append(&mut self.forwards)?;
        all.append(&mut self.runs)?;
        all.append(&mut self.lists)?;
        all.append(&mut self.ranges)?;
        all.append(&mut trees.stars)?;
        Ok(())
    }
}

/// The sections of the columns, by their kinds. Each column is let go when its sections are made.
pub(crate) fn column_sections(
    alloc: Global,
    table: &Table,
    coded: CodedColumns<'_>,
    order: &RowOrder,
) -> Result<Sections, NoMemory>
    requires rows { AreCoded table.now coded }
    requires order { Orders table.now.settings.sorted (rows_of (columns_in coded)) order.now }
    ensures { IfOk result (λ made. made ≡ made_of table.now
        (ordered table.now.settings.sorted (rows_of (columns_in coded.entry)))
        (length table.now.schema.fields)) }
{
    let count = table.schema.fields.len();
    let mut sections = Sections::with_capacity(alloc, count)?;
    let mut ids = Vec::new(alloc);
    let mut left = coded.columns.into_iter();
    'columns: for at in 0..count {
        let Some(column) = left.next() else {
            unreachable!()
        };
        let indexes = indexes_at(&table.settings, at);
        push_column(alloc, column, order, indexes, &mut ids, &mut sections)?;
    }
    Ok(sections)
}

// Adds the sections of a column. Where its ids are not packed as its forward index has them, they
// are put in the order of the rows into a list that is used again.
fn push_column(
    alloc: Global,
    column: CodedColumn<'_>,
    order: &RowOrder,
    indexes: Indexes,
    list: &mut Vec<u32>,
    sections: &mut Sections,
) -> Result<(), NoMemory>
    requires { MayPush column order.now indexes }
    ensures { OnOk result (sections.new ≡ with_column (dictionary_of_ids column.entry)
        (arranged 0 order.now column.entry.ids) indexes sections.old) }
{
    let CodedColumn { values, ids } = column;
    let dictionary = values.dictionary();
    match plain_section(ids, dictionary.count(), order, indexes) {
        Ok(forward) => sections.push_plain(alloc, dictionary, forward),
        Err(ids) => {
            put_ordered(alloc, &ids, order, list)?;
            sections.push(alloc, dictionary, list.as_slice(), indexes)
        }
    }
}

// The forward index of ids that are packed as it has them, where a column of so many values has no
// other index; else the ids again.
fn plain_section(
    ids: ColumnIds,
    count: u32,
    order: &RowOrder,
    indexes: Indexes,
) -> Result<Vec<u8>, ColumnIds>
    ensures section { IfOk result (λ bytes. bytes.items
        ≡ spelled (width_of count) (arranged 0 order.now ids)) }
    ensures plain { IfOk result (λ _. HasNone indexes) }
    ensures same { IfErr result (λ same. same ≡ ids) }
{
    match order {
        RowOrder::AsGiven => {
            if indexes.sorted || indexes.inverted || indexes.ranged {
                return Err(ids);
            }
            match ids.into_section(width_for(count)) {
                Ok(bytes) => Ok(bytes),
                Err(ids) => Err(ids),
            }
        }
        RowOrder::ByPlaces(_) => Err(ids),
    }
}

// Puts the ids of a column in the order of the rows into a list, in place of what it has.
fn put_ordered(
    alloc: Global,
    column: &ColumnIds,
    order: &RowOrder,
    list: &mut Vec<u32>,
) -> Result<(), NoMemory>
    requires { AreBelow (length column.now) (places_in order.now) }
    ensures { OnOk result (list.new.items ≡ arranged 0 order.now column.now) }
{
    match order {
        RowOrder::AsGiven => column.put_all(list),
        RowOrder::ByPlaces(places) => column.put_at(alloc, places.as_slice(), list),
    }
}

// The ids of the rows of a column, which has so many values.
#[derive(Clone, Copy)]
struct CodedIds<'a> {
    ids: &'a [u32],
    count: u32,
    ghost at_most: { length ids.now ≤ 1048576 },
    ghost below: { AreBelow count ids.now },
}

fn dictionary_section(alloc: Global, dictionary: &Dictionary) -> Result<MadeSection, NoMemory>
    ensures { IfOk result (λ section. section_bytes section ≡ spelling dictionary.now) }
{
    let mut out = Vec::new(alloc);
    dictionary.write(&mut out)?;
    Ok(MadeSection::Stands(Seq::from_vec(out)))
}

// The forward index of these ids.
fn forward_section(alloc: Global, coded: CodedIds<'_>) -> Result<MadeSection, NoMemory>
    ensures { IfOk result (λ section. section_bytes section
        ≡ spelled (width_of coded.entry.count) coded.entry.ids.now) }
{
    let mut out = Vec::new(alloc);
    bit_column::write(coded.ids, width_for(coded.count), &mut out)?;
    Ok(MadeSection::Stands(Seq::from_vec(out)))
}

// Adds the section of the sorted column, where the ids are its.
fn push_runs(
    alloc: Global,
    is_sorted: bool,
    coded: CodedIds<'_>,
    out: &mut Vec<MadeSection>,
) -> Result<(), NoMemory>
    requires { is_sorted ≡ true → IsNonDecreasing coded.ids.now }
    ensures { OnOk result (each_bytes out.new.items ≡ each_bytes out.old.items
        ++ only is_sorted (sorted_runs coded.entry.count coded.entry.ids.now)) }
{
    if !is_sorted {
        return Ok(());
    }
    let mut bytes = Vec::new(alloc);
    write_sorted(coded.ids, coded.count, &mut bytes)?;
    out.push(MadeSection::Stands(Seq::from_vec(bytes)))?;
    Ok(())
}

// Adds the section of an inverted column, where the ids are those of one.
fn push_lists(
    alloc: Global,
    is_inverted: bool,
    coded: CodedIds<'_>,
    out: &mut Vec<MadeSection>,
) -> Result<(), NoMemory>
    ensures { OnOk result (each_bytes out.new.items ≡ each_bytes out.old.items
        ++ only is_inverted (inverted coded.entry.count coded.entry.ids.now)) }
{
    if !is_inverted {
        return Ok(());
    }
    let mut bytes = Vec::new(alloc);
    write_inverted(coded.ids, coded.count, &mut bytes)?;
    out.push(MadeSection::Stands(Seq::from_vec(bytes)))?;
    Ok(())
}

// Adds the section of a column with a range index, where the ids are those of one.
fn push_ranges(
    alloc: Global,
    is_ranged: bool,
    coded: CodedIds<'_>,
    out: &mut Vec<MadeSection>,
) -> Result<(), NoMemory>
    ensures { OnOk result (each_bytes out.new.items ≡ each_bytes out.old.items
        ++ only is_ranged (ranged coded.entry.count coded.entry.ids.now)) }
{
    if !is_ranged {
        return Ok(());
    }
    let mut bytes = Vec::new(alloc);
    write_ranged(coded.ids, coded.count, &mut bytes)?;
    out.push(MadeSection::Stands(Seq::from_vec(bytes)))?;
    Ok(())
}
