//! The head of a segment's file.
ghost use Rattle.std.specs.Prelude.{◌≡◌, IfSome, MatchOption, None, Some, slice_get};
ghost use Rattle.std.specs.Option.{option_copied};
ghost use Rattle.segment_head.specs.Heads.{AreNodesLoaded, IsLoaded, place_in};

use dictionary::Dictionary;
use outside::Place;
use segment_file::{Ends, Part, Section, TreeNodes};
use star_file::Nodes;
use std::marker::Model;
use values::Value;

/// What a segment's file says of its rows where they are not read: how many there are, where the
/// sections are, the bounds of each column where there are rows, the dictionaries, and the nodes of
/// the trees.
#[derive(Drop)]
pub struct Head {
    pub(crate) rows: u32,
    pub(crate) sections: Vec<Section>,
    bounds: Vec<Ends>,
    pub(crate) dictionaries: Vec<Option<Dictionary>>,
    pub(crate) trees: Vec<Option<TreeNodes>>,
}

impl Model for Head {
    ghost use Rattle.segment_head.specs.Heads.{Seen};

    ghost Value = { Seen };

    ghost view = { λ h. record {
      rows = h.rows;
      sections = h.sections.items;
      bounds = h.bounds.items;
      dictionaries = h.dictionaries.items;
      trees = h.trees.items;
    } };
}

impl Head {
    pub fn new(
        rows: u32,
        sections: Vec<Section>,
        bounds: Vec<Ends>,
        dictionaries: Vec<Option<Dictionary>>,
        trees: Vec<Option<TreeNodes>>,
    ) -> Self
        ensures { result ≡ record {
          rows = rows;
          sections = sections.items;
          bounds = bounds.items;
          dictionaries = dictionaries.items;
          trees = trees.items;
        } }
    {
        Head {
            rows,
            sections,
            bounds,
            dictionaries,
            trees,
        }
    }

    /// How many rows there are.
    pub fn rows(&self) -> u32
        ensures { result ≡ self.now.rows }
    {
        self.rows
    }

    /// The dictionary of a column, which was loaded.
    pub fn dictionary(&self, column: u16) -> &Dictionary
        requires { IsLoaded self.now column }
        ensures { slice_get self.now.dictionaries column ≡ Some (Some result.now) }
    {
        match &self.dictionaries[column as usize] {
            Some(dictionary) => dictionary,
            None => unreachable!(),
        }
    }

    /// The nodes of a tree, which were loaded.
    pub fn nodes(&self, tree: u8) -> &Nodes
        requires { AreNodesLoaded self.now tree }
        ensures { IfSome (slice_get self.now.trees tree)
            (λ loaded. IfSome loaded (λ t. result.now ≡ t.nodes)) }
    {
        match &self.trees[tree as usize] {
            Some(tree) => &tree.nodes,
            None => unreachable!(),
        }
    }

    /// How many documents a tree has, whose nodes were loaded.
    pub fn documents(&self, tree: u8) -> u32
        requires { AreNodesLoaded self.now tree }
        ensures { IfSome (slice_get self.now.trees tree)
            (λ loaded. IfSome loaded (λ t. result ≡ t.documents)) }
    {
        match &self.trees[tree as usize] {
            Some(tree) => tree.documents,
            None => unreachable!(),
        }
    }

    /// The least and the greatest value of a column, where there are rows.
    pub fn bounds(&self, column: u16) -> Option<(&Value, &Value)>
        ensures { MatchOption result
            (slice_get self.now.bounds column ≡ None)
            (λ p. slice_get self.now.bounds column
            ≡ Some (record { least = p.0.now; greatest = p.1.now })) }
    {
        let ends = self.bounds.get(column as usize)?;
        Some((&ends.least, &ends.greatest))
    }

    /// Where a section is, if the table's segments have it.
    pub fn place(&self, part: Part) -> Option<&Place>
        ensures { option_copied result ≡ place_in self.now.sections part }
    {
        for section in &self.sections {
            if section.part.is_same(part) {
                return Some(&section.place);
            }
        }
        None
    }
}
