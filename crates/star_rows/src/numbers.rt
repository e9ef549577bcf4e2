//! The numbers of pairs, column by column.

ghost use Rattle.std.specs.Prelude.{◌≡◌, ◌<◌, ◌++◌, ◌∷◌, [], length, map, slice_index_or};
ghost use Rattle.std.specs.Prelude.{slice_get, All, OnOk, Some};
ghost use Rattle.star_rows.specs.Numbers.{numbers_of};

use crate::NoMemory;
use std::alloc::Global;
use std::marker::Model;

/// The numbers of a pair, one for each row: those of a column, which stay where they are, or zeros,
/// which take no memory.
#[derive(Clone, Copy)]
pub enum PairNumbers<'a> {
    Stored(&'a [i64]),
    Zeros(usize),
}

impl<'a> PairNumbers<'a> {
    // The number of a row.
    pub(crate) fn at(self, row: usize) -> i64
        requires { row < length (numbers_of self) }
        ensures { slice_get (numbers_of self.entry) row ≡ Some result }
    {
        match self {
            PairNumbers::Stored(numbers) => numbers[row],
            PairNumbers::Zeros(_) => 0,
        }
    }
}

/// The numbers of each pair, which contracts see as lists of numbers. Several pairs may have the
/// same column.
#[derive(Drop)]
pub struct NumberColumns<'a> {
    columns: Vec<PairNumbers<'a>>,
}

impl<'a> Model for NumberColumns<'a> {
    ghost use Rattle.std.specs.Prelude.{List, ℤ, map};
    ghost use Rattle.star_rows.specs.Numbers.{numbers_of};

    ghost Value = { List (List ℤ) };

    ghost view = { λ t. map numbers_of t.columns.items };
}

impl<'a> NumberColumns<'a> {
    /// No columns.
    pub fn new(alloc: Global) -> Self
        ensures { result ≡ [] }
    {
        NumberColumns {
            columns: Vec::new(alloc),
        }
    }

    /// Adds the numbers of one more pair.
    pub fn push(&mut self, numbers: PairNumbers<'a>) -> Result<(), NoMemory>
        ensures { OnOk result (self.new ≡ self.old ++ numbers_of numbers.entry ∷ []) }
    {
        self.columns.push(numbers)?;
        Ok(())
    }

    /// How many there are.
    pub fn len(&self) -> usize
        ensures { result ≡ length self.now }
    {
        self.columns.len()
    }

    /// The numbers of a pair.
    pub fn at(&self, pair: usize) -> PairNumbers<'a>
        requires { pair < length self.now }
        ensures { numbers_of result ≡ slice_index_or self.now pair (numbers_of result) }
    {
        self.columns[pair]
    }

    /// What the columns have in a row, in place of what a list has.
    pub(crate) fn read_row(&self, row: usize, out: &mut Vec<i64>) -> Result<(), NoMemory>
        requires { All (λ c. row < length c) self.now }
        ensures items { OnOk result (map Some out.new.items ≡ map (λ c. slice_get c row) self.now) }
        ensures length { OnOk result (length out.new.items ≡ length self.now) }
    {
        out.clear();
        for pair in 0..self.len() {
            let column = self.at(pair);
            out.push(column.at(row))?;
        }
        Ok(())
    }
}
