//! The values of many ids of a dictionary that lies in a file.
ghost use Rattle.std.specs.Prelude.{◌≡◌, ◌≤◌, ◌<◌, ◌+◌, ◌-◌, ◌*◌, ◌++◌, ◌∷◌, [], ℕ, All, IfOk, IsErrOf, OnOk, length, get_or};
ghost use Rattle.outside.specs.Seen.{OnlyReads, seen};
ghost use Rattle.value_ids.specs.Coding.{values_at};
ghost use Rattle.value_ids.specs.Dictionary.{Distinct};
ghost use Rattle.dictionary_reading.specs.Calls.{Looks};
ghost use Rattle.dictionary_reading.specs.InFile.{HasRoom, IsBlock, IsBlockOf, LogsInside, OfDictionary, part};

use crate::{Block, FileDictionary, LookupFault};
use outside::Shelf;
use std::alloc::{AllocError, Global};
use values::Value;

/// The most values of which the bytes are read at once.
pub const MOST_AT_ONCE: u32 = 1024;

/// The most ids that one read goes on over to the next id.
const MOST_BETWEEN: u32 = 512;

impl FileDictionary {
    /// The values of these ids. Ids that ascend and are near one another are read at once.
    pub fn values<S: Shelf>(
        &self,
        alloc: Global,
        shelf: &mut S,
        ids: &[u32],
    ) -> Result<Vec<Value>, LookupFault>
        requires room { HasRoom self.now }
        requires below { All (λ id. id < self.now.count) ids.now }
        ensures values { IfOk result (λ values. OfDictionary self.now (S.held shelf.old)
            (λ d. values.items ≡ values_at d.values ids.now)) }
        ensures looks { Looks self.now (528388 * length ids.now)
            (seen S.Shelf shelf.old) (seen S.Shelf shelf.new) result }
    {
        let mut values = Vec::with_capacity(alloc, ids.len())?;
        let mut done = 0;
        'blocks: while done < ids.len() {
            let near = count_near(&ids[done..]);
            let block = match self.block(alloc, shelf, ids[done], ids[done + near - 1] + 1) {
                Ok(block) => block,
                Err(fault) => return Err(fault),
            };
            match block.push_values(alloc, &ids[done..done + near], &mut values) {
                Ok(()) => {}
                Err(fault) => return Err(fault),
            }
            done += near;
        }
        Ok(values)
    }
}

impl Block {
    /// Appends the values of these ids.
    pub fn push_values(
        &self,
        alloc: Global,
        ids: &[u32],
        values: &mut Vec<Value>,
    ) -> Result<(), LookupFault>
        requires block { IsBlock self.now }
        requires inside { All (λ id. (self.now.from ≤ id) × (id < self.now.to)) ids.now }
        ensures values { OnOk result ((d : Distinct) → IsBlockOf d self.now →
            values.new.items ≡ values.old.items ++ values_at d.values ids.now) }
        ensures bad { IsErrOf result LookupFault.NoDictionary →
            (d : Distinct) → ¬ IsBlockOf d self.now }
        ensures read { ¬ IsErrOf result LookupFault.ReadFault }
    {
        'ids: for &id in ids {
            match self.value(alloc, id) {
                Ok(value) => keep(values, value)?,
                Err(fault) => return Err(fault),
            }
        }
        Ok(())
    }
}

fn keep(values: &mut Vec<Value>, value: Value) -> Result<(), AllocError>
    ensures { OnOk result (values.new.items ≡ values.old.items ++ value ∷ []) }
{
    values.push(value)?;
    Ok(())
}

/// How many of these ids, from the first on, ascend and are near it.
pub(crate) fn count_near(ids: &[u32]) -> usize
    requires { 0 < length ids.now }
    ensures some { 0 < result }
    ensures within { result ≤ length ids.now }
    ensures near { get_or ids.now (result - 1) 0 < get_or ids.now 0 0 + 1024 }
    ensures ascend { (k : ℕ) → k < result →
        (get_or ids.now 0 0 ≤ get_or ids.now k 0)
        × (get_or ids.now k 0 ≤ get_or ids.now (result - 1) 0) }
{
    let mut count = 1;
    'near: while count < ids.len() {
        let last = ids[count - 1];
        if ids[count] < last || ids[count] - last > MOST_BETWEEN {
            return count;
        }
        if ids[count] - ids[0] >= MOST_AT_ONCE {
            return count;
        }
        count += 1;
    }
    count
}
