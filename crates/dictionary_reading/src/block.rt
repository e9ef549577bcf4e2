//! The bytes of values that follow one another.
ghost use Rattle.std.specs.Prelude.{◌≡◌, ◌≤◌, ◌<◌, ◌+◌, ◌-◌, ◌^◌, ◌*◌, IfOk, IsErrOf, Some, true, length, slice_get};
ghost use Rattle.data_types.specs.Numbers.{is_in_range};
ghost use Rattle.value_ids.specs.Dictionary.{Distinct};
ghost use Rattle.dictionary.specs.Spelling.{number_bytes};
ghost use Rattle.values.specs.declared.value.Value.TheVariants as value;
ghost use Rattle.dictionary_reading.specs.InFile.{IsBlock, IsBlockOf, part};

use crate::{LookupFault, between, eight_at, four_at};
use data_types::{FieldKind, Name};
use outside::Bytes;
use std::alloc::Global;
use values::Value;

/// The bytes of the values of a dictionary from one id up to another: of texts also where each
/// begins, and where the last one ends.
#[derive(Debug, Drop)]
pub struct Block {
    pub kind: FieldKind,
    pub from: u32,
    pub to: u32,
    pub starts: Bytes,
    pub body: Bytes,
}

impl Block {
    /// A block of these bytes.
    pub fn new(kind: FieldKind, from: u32, to: u32, starts: Bytes, body: Bytes) -> Block
        ensures { result ≡ record {
          kind = kind;
          from = from;
          to = to;
          starts = starts;
          body = body;
        } }
    {
        Block {
            kind,
            from,
            to,
            starts,
            body,
        }
    }

    /// The value of an id.
    pub fn value(&self, alloc: Global, id: u32) -> Result<Value, LookupFault>
        requires block { IsBlock self.now }
        requires from { self.now.from ≤ id }
        requires to { id < self.now.to }
        ensures value { IfOk result (λ v. (d : Distinct) → IsBlockOf d self.now →
            slice_get d.values id ≡ Some v) }
        ensures bad { IsErrOf result LookupFault.NoDictionary →
            (d : Distinct) → ¬ IsBlockOf d self.now }
        ensures read { ¬ IsErrOf result LookupFault.ReadFault }
    {
        match self.kind {
            FieldKind::Text => self.text(alloc, id),
            _ => Ok(Value::Whole(self.number(id))),
        }
    }

    /// The number of an id.
    pub fn number(&self, id: u32) -> i64
        requires block { IsBlock self.now }
        requires sized { length self.now.body ≡ 8 * (self.now.to - self.now.from) }
        requires from { self.now.from ≤ id }
        requires to { id < self.now.to }
        ensures spelled { number_bytes (value.Whole result)
            ≡ part (8 * (id - self.now.from)) 8 self.now.body }
        ensures within { is_in_range FieldKind.Long result ≡ true }
    {
        let at = 8 * (id - self.from) as usize;
        eight_at(self.body.as_slice(), at)
    }

    // The text of an id.
    fn text(&self, alloc: Global, id: u32) -> Result<Value, LookupFault>
        requires block { IsBlock self.now }
        requires kind { self.now.kind ≡ FieldKind.Text }
        requires from { self.now.from ≤ id }
        requires to { id < self.now.to }
        ensures value { IfOk result (λ v. (d : Distinct) → IsBlockOf d self.now →
            slice_get d.values id ≡ Some v) }
        ensures bad { IsErrOf result LookupFault.NoDictionary →
            (d : Distinct) → ¬ IsBlockOf d self.now }
        ensures read { ¬ IsErrOf result LookupFault.ReadFault }
    {
        let starts = self.starts.as_slice();
        let place = 4 * (id - self.from) as usize;
        let base = four_at(starts, 0);
        let start = four_at(starts, place);
        let end = four_at(starts, place + 4);
        let Some(text) = between(self.body.as_slice(), base, start, end) else {
            return Err(LookupFault::NoDictionary);
        };
        let Ok(text) = str::from_utf8(text) else {
            return Err(LookupFault::NoDictionary);
        };
        Ok(Value::Text(Name::from_text(alloc, text)?))
    }
}
