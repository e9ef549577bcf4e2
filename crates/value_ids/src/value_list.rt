//! Values that are all numbers, or all texts in one block of bytes.
ghost use Rattle.std.specs.Prelude.{◌≡◌, ◌<◌, IfOk, IfSome, MatchOption, Some, get_or, length, map, slice_get, true};
ghost use Rattle.std.specs.Str.{is_utf8};
ghost use Rattle.values.specs.Order.{value_order};
ghost use Rattle.values.specs.declared.value.Value as spec;
ghost use Rattle.values.specs.declared.value.Value.TheVariants as value;
ghost use Rattle.value_ids.specs.Lists.{AreNumbers, AreTexts};

use crate::TextBlock;
use data_types::{Name, TextPool};
use std::alloc::Global;
use std::cmp::Ordering;
use std::marker::Model;
use values::{NoMemory, Value};

// The values by their sort.
#[derive(Drop)]
enum Cells {
    Numbers(Vec<i64>),
    Texts(TextPool),
    Block(TextBlock),
}

/// A list of values, which are all numbers, or all texts in one block of bytes.
#[derive(Drop)]
pub struct ValueList {
    cells: Cells,
}

impl Model for ValueList {
    ghost use Rattle.std.specs.Prelude.{List};
    ghost use Rattle.values.specs.declared.value.Value as declared;
    ghost use Rattle.value_ids.specs.Lists.Cells.{listed};

    ghost Value = { List declared.Value };

    ghost view = { λ l. listed l.cells };
}

impl ValueList {
    /// These numbers.
    pub fn of_numbers(numbers: Vec<i64>) -> Self
        ensures { result ≡ map value.Whole numbers.items }
    {
        ValueList {
            cells: Cells::Numbers(numbers),
        }
    }

    /// These texts.
    pub fn of_texts(texts: TextPool) -> Self
        ensures { result ≡ map value.Text texts }
    {
        ValueList {
            cells: Cells::Texts(texts),
        }
    }

    /// These texts, in the bytes that they were read in.
    pub fn of_block(texts: TextBlock) -> Self
        ensures { result ≡ map value.Text texts }
    {
        ValueList {
            cells: Cells::Block(texts),
        }
    }

    pub fn len(&self) -> usize
        ensures { result ≡ length self.now }
    {
        match &self.cells {
            Cells::Numbers(numbers) => numbers.len(),
            Cells::Texts(texts) => texts.len(),
            Cells::Block(texts) => texts.len(),
        }
    }

    /// The numbers, if they are no texts.
    pub fn as_numbers(&self) -> Option<&[i64]>
        ensures { MatchOption result
            (AreTexts self.now)
            (λ numbers. self.now ≡ map value.Whole numbers.now) }
    {
        match &self.cells {
            Cells::Numbers(numbers) => Some(numbers.as_slice()),
            Cells::Texts(_) => None,
            Cells::Block(_) => None,
        }
    }

    /// The numbers themselves, if they are no texts.
    pub fn into_numbers(self) -> Option<Vec<i64>>
        ensures { MatchOption result
            (AreTexts self)
            (λ numbers. self ≡ map value.Whole numbers.items) }
    {
        match self.cells {
            Cells::Numbers(numbers) => Some(numbers),
            Cells::Texts(_) => None,
            Cells::Block(_) => None,
        }
    }

    /// The bytes of the text at a place, if it is no number.
    #[inline(always)]
    pub fn text_at(&self, at: usize) -> Option<&[u8]>
        requires { at < length self.now }
        ensures place { MatchOption result
            (AreNumbers self.now)
            (λ text. slice_get self.now at ≡ Some (value.Text text.now)) }
        ensures text { IfSome result (λ text. is_utf8 text.now ≡ true) }
    {
        match &self.cells {
            Cells::Numbers(_) => None,
            Cells::Texts(texts) => texts.get(at),
            Cells::Block(texts) => texts.get(at),
        }
    }

    /// The value at a place. A text is copied.
    pub fn value(&self, alloc: Global, at: usize) -> Result<Value, NoMemory>
        requires { at < length self.now }
        ensures { IfOk result (λ value. slice_get self.now at ≡ Some value) }
    {
        match &self.cells {
            Cells::Numbers(numbers) => Ok(Value::Whole(numbers[at])),
            Cells::Texts(texts) => Ok(Value::Text(Name::from_text(alloc, texts.text(at))?)),
            Cells::Block(texts) => Ok(Value::Text(Name::from_text(alloc, texts.text(at))?)),
        }
    }

    /// How the value at a place stands to another: numbers or bytes are compared.
    #[inline(always)]
    pub fn order_at(&self, at: usize, bound: &Value) -> Ordering
        requires { at < length self.now }
        ensures { (d : spec.Value) → value_order (get_or self.now at d) bound.now ≡ result }
    {
        match bound {
            Value::Whole(number) => match &self.cells {
                Cells::Numbers(numbers) => numbers[at].cmp(number),
                Cells::Texts(_) => Ordering::Greater,
                Cells::Block(_) => Ordering::Greater,
            },
            Value::Text(text) => match self.text_at(at) {
                Some(own) => own.cmp(text.as_slice()),
                None => Ordering::Less,
            },
        }
    }
}
