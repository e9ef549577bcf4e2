//! One column.
ghost use Rattle.std.specs.Prelude.{◌≡◌, ◌<◌, ◌++◌, MatchBool, MatchOption, map, true, false, [], length, OnOk, OnErr, IfOk, Some, slice_get};
ghost use Rattle.values.specs.declared.value.Value.TheVariants as value;
ghost use Rattle.std.specs.Str.{is_utf8};
ghost use Rattle.values.specs.Columns.{is_text, pushed};

use crate::{NoMemory, Texts, Value};
use data_types::Name;
use std::alloc::{AllocError, Global};
use std::marker::Model;

// The values by their sort.
#[derive(Drop)]
enum Cells {
    Numbers(Vec<i64>),
    Texts(Texts),
}

/// The values of a column, which are all numbers or all texts.
#[derive(Drop)]
pub struct Column {
    cells: Cells,
}

impl Model for Column {
    ghost use Rattle.values.specs.Columns.{Listed};
    ghost use Rattle.values.specs.Cells.{listed};

    ghost Value = { Listed };

    ghost view = { λ c. listed c.cells };
}

impl Column {
    /// A column of numbers without any yet.
    pub fn numbers(alloc: Global) -> Self
        ensures { result ≡ record { are_texts = false; values = [] } }
    {
        Column {
            cells: Cells::Numbers(Vec::new(alloc)),
        }
    }

    /// A column of texts without any yet.
    pub fn texts(alloc: Global) -> Self
        ensures { result ≡ record { are_texts = true; values = [] } }
    {
        Column {
            cells: Cells::Texts(Texts::new(alloc)),
        }
    }

    /// Makes room for so many more rows.
    pub fn reserve(&mut self, rows: usize) -> Result<(), NoMemory>
        ensures { self.new ≡ self.old }
    {
        match &mut self.cells {
            Cells::Numbers(numbers) => numbers.reserve(rows),
            Cells::Texts(texts) => texts.reserve(rows),
        }
    }

    /// Adds a number at the end.
    #[inline(always)]
    pub fn push_whole(&mut self, number: i64) -> Result<(), NoMemory>
        requires { self.old.are_texts ≡ false }
        ensures { OnOk result (self.new ≡ pushed self.old (value.Whole number)) }
    {
        match &mut self.cells {
            Cells::Numbers(numbers) => {
                numbers.push(number)?;
                Ok(())
            }
            Cells::Texts(_) => unreachable!(),
        }
    }

    /// Adds numbers at the end, all at once.
    pub fn push_wholes(&mut self, added: &[i64]) -> Result<(), NoMemory>
        requires { self.old.are_texts ≡ false }
        ensures { OnOk result (self.new ≡ record {
          are_texts = false;
          values = self.old.values ++ map value.Whole added.now;
        }) }
    {
        match &mut self.cells {
            Cells::Numbers(numbers) => numbers.extend_from_slice(added),
            Cells::Texts(_) => unreachable!(),
        }
    }

    /// Adds a text at the end.
    #[inline(always)]
    pub fn push_text(&mut self, text: &str) -> Result<(), NoMemory>
        requires { self.old.are_texts ≡ true }
        ensures { OnOk result (self.new ≡ pushed self.old (value.Text text.now)) }
    {
        match &mut self.cells {
            Cells::Numbers(_) => unreachable!(),
            Cells::Texts(texts) => texts.push(text),
        }
    }

    /// Adds some bytes at the end, if they are a text.
    #[inline(always)]
    pub fn push_bytes(&mut self, bytes: &[u8]) -> Result<bool, NoMemory>
        requires { self.old.are_texts ≡ true }
        ensures { IfOk result (λ added. MatchBool added
            ((self.new ≡ pushed self.old (value.Text bytes.now)) × (is_utf8 bytes.now ≡ true))
            ((self.new ≡ self.old) × (is_utf8 bytes.now ≡ false))) }
    {
        match &mut self.cells {
            Cells::Numbers(_) => unreachable!(),
            Cells::Texts(texts) => texts.push_bytes(bytes),
        }
    }

    /// Adds a value at the end.
    pub fn push(&mut self, value: &Value) -> Result<(), NoMemory>
        requires { self.old.are_texts ≡ is_text value.now }
        ensures { OnOk result (self.new ≡ pushed self.old value.now) }
    {
        match value {
            Value::Whole(number) => self.push_whole(*number),
            Value::Text(text) => self.push_text(text.as_str()),
        }
    }

    /// The numbers, in a column of numbers.
    pub fn as_numbers(&self) -> Option<&[i64]>
        ensures { MatchOption result
            (self.now.are_texts ≡ true)
            (λ numbers. self.now ≡ record {
              are_texts = false;
              values = map value.Whole numbers.now;
            }) }
    {
        match &self.cells {
            Cells::Numbers(numbers) => Some(numbers.as_slice()),
            Cells::Texts(_) => None,
        }
    }

    /// The texts, in a column of texts.
    pub fn as_texts(&self) -> Option<&Texts>
        ensures { MatchOption result
            (self.now.are_texts ≡ false)
            (λ texts. self.now ≡ record { are_texts = true; values = map value.Text texts.now }) }
    {
        match &self.cells {
            Cells::Numbers(_) => None,
            Cells::Texts(texts) => Some(texts),
        }
    }

    /// The value of a row.
    pub fn value(&self, alloc: Global, row: usize) -> Result<Value, NoMemory>
        requires { row < length self.now.values }
        ensures { IfOk result (λ value. slice_get self.now.values row ≡ Some value) }
    {
        match &self.cells {
            Cells::Numbers(numbers) => Ok(Value::Whole(numbers[row])),
            Cells::Texts(texts) => Ok(Value::Text(Name::from_text(alloc, texts.at(row))?)),
        }
    }
}
