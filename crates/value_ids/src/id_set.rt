//! Ascending lists of ids, with a mask of them.

ghost use Rattle.std.specs.Prelude.{◌≡◌, ◌<◌, ◌≤◌, ◌==◌, ◌+◌, ◌-◌, ◌^◌, [], ◌∷◌, ◌++◌, length, slice_get, take, Some, OnOk, OnErr};
ghost use Rattle.std.specs.List.{range_with_len};
ghost use Rattle.value_ids.specs.Ids.{has_id, IsAboveLast, IsIdSet};

use crate::mask::{has_bit, make_room, set_bit, set_run};
use std::alloc::{AllocError, Global};
use std::marker::Model;
use values::NoMemory;

/// An ascending list of ids, without repeats, and a mask that has a bit for each of them.
#[derive(Debug, Drop)]
pub struct IdSet {
    ids: Vec<u32>,
    mask: Vec<u64>,
}

impl Model for IdSet {
    ghost use Rattle.std.specs.Prelude.{List, ℕ};
    ghost use Rattle.value_ids.specs.Ids.{IsMaskedSet};

    ghost Value = { List ℕ };

    ghost view = { λ s. s.ids.items };

    ghost invariant = { λ s. IsMaskedSet s.ids.items s.mask.items };
}

impl IdSet {
    pub fn new(alloc: Global) -> Self
        ensures { result ≡ [] }
    {
        IdSet {
            ids: Vec::new(alloc),
            mask: Vec::new(alloc),
        }
    }

    pub fn len(&self) -> u32
        ensures { result ≡ length self.now }
    {
        self.ids.len() as u32
    }

    pub fn is_empty(&self) -> bool
        ensures { result ≡ (length self.now == 0) }
    {
        self.ids.is_empty()
    }

    pub fn at(&self, index: usize) -> &u32
        requires { index < length self.now }
        ensures { slice_get self.now index ≡ Some result.now }
    {
        &self.ids[index]
    }

    pub fn as_slice(&self) -> &[u32]
        ensures same { result.now ≡ self.now }
        ensures valid { IsIdSet self.now }
    {
        self.ids.as_slice()
    }

    /// Whether the id is there: one bit is looked at.
    #[inline(always)]
    pub fn contains(&self, id: u32) -> bool
        ensures { result ≡ has_id self.now id }
    {
        has_bit(self.mask.as_slice(), id)
    }

    /// Adds an id that is greater than the last. A list of 4,294,967,295 ids grows no more.
    pub fn push(&mut self, id: u32) -> Result<(), NoMemory>
        requires { IsAboveLast self.old id }
        ensures ok { OnOk result (self.new ≡ self.old ++ id ∷ []) }
        ensures err { OnErr result (self.new ≡ self.old) }
    {
        if self.ids.len() >= u32::MAX as usize {
            return Err(AllocError);
        }
        make_room(&mut self.mask, id)?;
        self.ids.push(id)?;
        set_bit(&mut self.mask, id);
        Ok(())
    }

    /// Adds the ids from one that is greater than the last up to another.
    pub(crate) fn push_run(&mut self, from: u32, to: u32) -> Result<(), NoMemory>
        requires { from < to → IsAboveLast self.old from }
        ensures ok { OnOk result (self.new ≡ self.old ++ range_with_len from (to - from)) }
        ensures err { OnErr result (self.new ≡ self.old) }
    {
        if from >= to {
            return Ok(());
        }
        make_room(&mut self.mask, to - 1)?;
        let start = self.ids.len();
        self.ids.resize(start + (to - from) as usize, 0)?;
        count_from(from, start, &mut self.ids);
        set_run(&mut self.mask, from, to);
        Ok(())
    }
}

// Writes ids that follow each other, the first of them at this place.
fn count_from(first: u32, start: usize, ids: &mut [u32])
    requires start { start ≤ length ids.old }
    requires room { first + (length ids.old - start) ≤ 2 ^ 32 }
    ensures { ids.new ≡ take start ids.old ++ range_with_len first (length ids.old - start) }
{
    for at in start..ids.len() {
        ids[at] = first + (at - start) as u32;
    }
}
