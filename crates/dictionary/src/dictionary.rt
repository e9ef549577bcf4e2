//! A dictionary, made of a column, and its look-ups.

ghost use Rattle.std.specs.Prelude.{◌≡◌, ◌<◌, ◌≤◌, ℕ, false, length, map, slice_get, Some, IfOk, MatchOption};
ghost use Rattle.std.specs.List.{All};
ghost use Rattle.values.specs.declared.value.Value.TheVariants as value;
ghost use Rattle.values.specs.Tests.{is_member};
ghost use Rattle.value_ids.specs.Coding.{Codes};
ghost use Rattle.value_ids.specs.Dictionary.{Fits, Distinct, IsDictionary, distinct, most_values};
ghost use Rattle.value_ids.specs.Ids.{has_id, matching, satisfies};
ghost use Rattle.value_ids.specs.Lists.{AreNumbers, AreTexts};

use crate::coded::{Coded, code_column};
use crate::listing::column_of;
use crate::matching::matching_ids;
use data_types::{FieldKind, Seq};
use std::alloc::Global;
use std::marker::Model;
use value_ids::{AscendingValues, Cut, IdSet, ValueList, cut_at};
use values::{Column, NoMemory, Test, Value};

/// The most values that a column has.
pub const MOST_VALUES: usize = 1_048_576;

/// The distinct values of a column in ascending order. The id of a value is its place, from 0.
/// Numbers are one list, and texts one block of bytes.
#[derive(Drop)]
pub struct Dictionary {
    pub(crate) kind: FieldKind,
    pub(crate) values: ValueList,
}

impl Model for Dictionary {
    ghost use Rattle.value_ids.specs.Dictionary.{Distinct, IsDictionary};

    ghost Value = { Distinct };

    ghost view = { λ d. record { kind = d.kind; values = d.values } };

    ghost invariant = { λ d. IsDictionary (record { kind = d.kind; values = d.values }) };
}

impl Dictionary {
    /// The dictionary of a column of that kind.
    pub fn build(
        alloc: Global,
        kind: FieldKind,
        column: &Seq<Value>,
    ) -> Result<Dictionary, NoMemory>
        requires at_most { length column.now ≤ most_values }
        requires fit { All (Fits kind) column.now }
        ensures kind { IfOk result (λ d. d.kind ≡ kind) }
        ensures distinct { IfOk result (λ d. d.values ≡ distinct column.now) }
        ensures members { IfOk result (λ d. (value : _) →
            is_member d.values value ≡ is_member column.now value) }
        ensures valid { IfOk result IsDictionary }
    {
        let column = column_of(alloc, kind, column.as_slice())?;
        let Coded { values, ids: _ } = code_column(alloc, &column)?;
        Ok(Dictionary { kind, values })
    }

    /// The dictionary of a column of that kind, and the id of each row's value.
    pub fn of_column(
        alloc: Global,
        kind: FieldKind,
        column: &Column,
    ) -> Result<(Dictionary, Vec<u32>), NoMemory>
        requires at_most { length column.now.values ≤ most_values }
        requires fit { All (Fits kind) column.now.values }
        ensures kind { IfOk result (λ r. r.0.kind ≡ kind) }
        ensures distinct { IfOk result (λ r. r.0.values ≡ distinct column.now.values) }
        ensures members { IfOk result (λ r. (value : _) →
            is_member r.0.values value ≡ is_member column.now.values value) }
        ensures valid { IfOk result (λ r. IsDictionary r.0) }
        ensures ids { IfOk result (λ r. Codes r.0.values r.1.items column.now.values) }
    {
        let Coded { values, ids } = code_column(alloc, column)?;
        Ok((Dictionary { kind, values }, ids))
    }

    pub fn kind(&self) -> FieldKind
        ensures { result ≡ self.now.kind }
    {
        self.kind
    }

    pub fn count(&self) -> u32
        ensures count { result ≡ length self.now.values }
        ensures valid { IsDictionary self.now }
    {
        self.values.len() as u32
    }

    /// Found by halving.
    pub fn id_of(&self, value: &Value) -> Option<u32>
        ensures { MatchOption result
            (is_member self.now.values value.now ≡ false)
            (λ id. slice_get self.now.values id ≡ Some value.now) }
    {
        let Cut { from, to } = cut_at(self.ascending(), value);
        if from < to { Some(from) } else { None }
    }

    /// The value of an id. A text is copied.
    pub fn value_at(&self, alloc: Global, id: u32) -> Result<Value, NoMemory>
        requires { id < length self.now.values }
        ensures { IfOk result (λ value. slice_get self.now.values id ≡ Some value) }
    {
        self.values.value(alloc, id as usize)
    }

    /// The numbers by their ids, if the values are no texts.
    pub fn numbers(&self) -> Option<&[i64]>
        ensures { MatchOption result
            (AreTexts self.now.values)
            (λ numbers. self.now.values ≡ map value.Whole numbers.now) }
    {
        self.values.as_numbers()
    }

    /// The numbers by their ids, without the dictionary, if the values are no texts.
    pub fn into_numbers(self) -> Option<Vec<i64>>
        ensures { MatchOption result
            (AreTexts self.values)
            (λ numbers. self.values ≡ map value.Whole numbers.items) }
    {
        self.values.into_numbers()
    }

    /// The text of an id, if the values are no numbers.
    pub fn text_at(&self, id: u32) -> Option<&str>
        requires { id < length self.now.values }
        ensures { MatchOption result
            (AreNumbers self.now.values)
            (λ text. slice_get self.now.values id ≡ Some (value.Text text.now)) }
    {
        let text = self.values.text_at(id as usize)?;
        match str::from_utf8(text) {
            Ok(text) => Some(text),
            Err(_) => unreachable!(),
        }
    }

    /// The bytes of the text of an id, if the values are no numbers.
    #[inline(always)]
    pub fn bytes_at(&self, id: u32) -> Option<&[u8]>
        requires { id < length self.now.values }
        ensures { MatchOption result
            (AreNumbers self.now.values)
            (λ text. slice_get self.now.values id ≡ Some (value.Text text.now)) }
    {
        self.values.text_at(id as usize)
    }

    // The values, which ascend.
    fn ascending(&self) -> AscendingValues<'_>
        ensures { result.values.now ≡ self.now.values }
    {
        AscendingValues {
            values: &self.values,
        }
    }

    /// The ids of the values that satisfy the test. A bound is looked up, and no value is tested.
    pub fn ids_matching(&self, alloc: Global, test: &Test) -> Result<IdSet, NoMemory>
        ensures ids { IfOk result (λ ids. ids ≡ matching test.now self.now.values) }
        ensures each { IfOk result (λ ids. (id : ℕ) →
            has_id ids id ≡ satisfies test.now (slice_get self.now.values id)) }
    {
        let ids = matching_ids(alloc, test, self.ascending())?;
        let _list = ids.as_slice();
        Ok(ids)
    }
}
