//! The numbers of all values of a dictionary that lies in a file.
ghost use Rattle.std.specs.Prelude.{◌≡◌, ◌≤◌, ◌<◌, ◌+◌, ◌-◌, ◌*◌, ◌++◌, ◌∷◌, [], All, IfOk, IsErrOf, OnOk, drop, length, map, take};
ghost use Rattle.outside.specs.Seen.{OnlyReads, seen};
ghost use Rattle.values.specs.declared.value.Value.TheVariants as value;
ghost use Rattle.value_ids.specs.Coding.{values_at};
ghost use Rattle.value_ids.specs.Dictionary.{Distinct};
ghost use Rattle.dictionary_reading.specs.Calls.{Looks};
ghost use Rattle.dictionary_reading.specs.InFile.{HasRoom, IsBlock, IsBlockOf, LogsInside, OfDictionary};

use crate::listing::count_near;
use crate::{Block, FileDictionary, LookupFault};
use data_types::FieldKind;
use outside::Shelf;
use std::alloc::{AllocError, Global};

/// Numbers that are read at once.
const MOST_NUMBERS: u32 = 8192;

impl FileDictionary {
    /// The numbers of these ids. Ids that ascend and are near one another are read at once.
    pub fn numbers_at<S: Shelf>(
        &self,
        alloc: Global,
        shelf: &mut S,
        ids: &[u32],
    ) -> Result<Vec<i64>, LookupFault>
        requires room { HasRoom self.now }
        requires numbers { ¬ (self.now.kind ≡ FieldKind.Text) }
        requires below { All (λ id. id < self.now.count) ids.now }
        ensures numbers { IfOk result (λ numbers. OfDictionary self.now (S.held shelf.old)
            (λ d. map value.Whole numbers.items ≡ values_at d.values ids.now)) }
        ensures count { IfOk result (λ numbers. length numbers.items ≡ length ids.now) }
        ensures looks { Looks self.now (8192 * length ids.now)
            (seen S.Shelf shelf.old) (seen S.Shelf shelf.new) result }
    {
        let mut numbers = Vec::with_capacity(alloc, ids.len())?;
        let mut done = 0;
        'blocks: while done < ids.len() {
            let near = count_near(&ids[done..]);
            let block = match self.numbers(alloc, shelf, ids[done], ids[done + near - 1] + 1) {
                Ok(block) => block,
                Err(fault) => return Err(fault),
            };
            block.push_numbers_at(&ids[done..done + near], &mut numbers)?;
            done += near;
        }
        Ok(numbers)
    }

    /// The numbers of all values, in the order of their ids, 64 KB at a time.
    pub fn all_numbers<S: Shelf>(
        &self,
        alloc: Global,
        shelf: &mut S,
    ) -> Result<Vec<i64>, LookupFault>
        requires room { HasRoom self.now }
        requires numbers { ¬ (self.now.kind ≡ FieldKind.Text) }
        ensures numbers { IfOk result (λ numbers. OfDictionary self.now (S.held shelf.old)
            (λ d. map value.Whole numbers.items ≡ d.values)) }
        ensures count { IfOk result (λ numbers. length numbers.items ≡ self.now.count) }
        ensures looks { Looks self.now (8 * self.now.count)
            (seen S.Shelf shelf.old) (seen S.Shelf shelf.new) result }
    {
        let mut numbers = Vec::with_capacity(alloc, self.count as usize)?;
        let mut done = 0;
        'pieces: while done < self.count {
            let end = done + MOST_NUMBERS.min(self.count - done);
            let block = match self.numbers(alloc, shelf, done, end) {
                Ok(block) => block,
                Err(fault) => return Err(fault),
            };
            block.push_numbers(&mut numbers)?;
            done = end;
        }
        Ok(numbers)
    }
}

impl Block {
    /// Appends the numbers of these ids.
    pub fn push_numbers_at(&self, ids: &[u32], numbers: &mut Vec<i64>) -> Result<(), AllocError>
        requires block { IsBlock self.now }
        requires numbers { ¬ (self.now.kind ≡ FieldKind.Text) }
        requires sized { length self.now.body ≡ 8 * (self.now.to - self.now.from) }
        requires inside { All (λ id. (self.now.from ≤ id) × (id < self.now.to)) ids.now }
        ensures numbers { OnOk result ((d : Distinct) → IsBlockOf d self.now →
            map value.Whole numbers.new.items ≡ map value.Whole numbers.old.items
            ++ values_at d.values ids.now) }
        ensures count { OnOk result (length numbers.new.items
            ≡ length numbers.old.items + length ids.now) }
    {
        'ids: for &id in ids {
            keep_number(numbers, self.number(id))?;
        }
        Ok(())
    }

    /// Appends the numbers of its values.
    pub fn push_numbers(&self, numbers: &mut Vec<i64>) -> Result<(), AllocError>
        requires block { IsBlock self.now }
        requires numbers { ¬ (self.now.kind ≡ FieldKind.Text) }
        requires sized { length self.now.body ≡ 8 * (self.now.to - self.now.from) }
        ensures numbers { OnOk result ((d : Distinct) → IsBlockOf d self.now →
            map value.Whole numbers.new.items ≡ map value.Whole numbers.old.items
            ++ take (self.now.to - self.now.from) (drop self.now.from d.values)) }
        ensures count { OnOk result (length numbers.new.items
            ≡ length numbers.old.items + (self.now.to - self.now.from)) }
    {
        'ids: for id in self.from..self.to {
            keep_number(numbers, self.number(id))?;
        }
        Ok(())
    }
}

fn keep_number(numbers: &mut Vec<i64>, number: i64) -> Result<(), AllocError>
    ensures { OnOk result (numbers.new.items ≡ numbers.old.items ++ number ∷ []) }
{
    numbers.push(number)?;
    Ok(())
}
