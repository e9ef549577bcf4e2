//! Ids in two bytes each, in room that is used again.

ghost use Rattle.std.specs.Prelude.{◌≡◌, ◌≤◌, ◌<◌, ◌+◌, ◌*◌, ◌^◌, ◌++◌, [], All, Err, IfOk, OnOk, length, take};
ghost use Rattle.bit_column.specs.Bits.{bits_of, pieces};
ghost use Rattle.bit_column.specs.declared.fault.ColumnFault.TheVariants.{BadId, ReadFault};

use crate::narrowing::unpack_narrow;
use crate::{ColumnFault, Width};
use std::alloc::{AllocError, Global};
use std::marker::Model;

/// Ids in two bytes each, which contracts see as a list of numbers. They have room that is not
/// cleared for those that come in their place.
#[derive(Drop)]
pub struct NarrowIds {
    room: Vec<u16>,
    count: usize,
}

impl Model for NarrowIds {
    ghost use Rattle.std.specs.Prelude.{◌≤◌, List, ℕ, length, take};

    ghost Value = { List ℕ };

    ghost view = { λ ids. take ids.count ids.room.items };

    ghost invariant = { λ ids. ids.count ≤ length ids.room.items };
}

impl NarrowIds {
    /// No ids, with room for so many.
    pub fn with_room(alloc: Global, size: usize) -> Result<NarrowIds, AllocError>
        ensures { IfOk result (λ ids. ids ≡ []) }
    {
        let room = vec![in alloc; 0u16; size]?;
        Ok(NarrowIds { room, count: 0 })
    }

    /// For how many ids there is room.
    pub fn size(&self) -> usize
        ensures { length self.now ≤ result }
    {
        self.room.len()
    }

    /// Takes all ids out. The room stays.
    pub fn clear(&mut self)
        ensures { self.new ≡ [] }
    {
        self.count = 0;
    }

    /// The ids where they lie.
    #[inline(always)]
    pub fn as_slice(&self) -> &[u16]
        ensures { result.now ≡ self.now }
    {
        &self.room[..self.count]
    }

    /// Appends so many ids from a bit on, each of which is to be below the count.
    pub(crate) fn append(
        &mut self,
        bytes: &[u8],
        bit: usize,
        width: Width,
        count: u32,
        number: usize,
    ) -> Result<(), ColumnFault>
        requires bit { bit < 8 }
        requires narrow { width.bits ≤ 16 }
        requires number { number < 2 ^ 32 }
        requires held { bit + number * width.bits ≤ 8 * length bytes.now }
        ensures ids { OnOk result
            (self.new ≡ self.old ++ pieces width.bits bit number (bits_of 8 bytes.now)) }
        ensures below { OnOk result
            (All (λ id. id < count) (pieces width.bits bit number (bits_of 8 bytes.now))) }
        ensures bad { result ≡ Err BadId →
            ¬ All (λ id. id < count) (pieces width.bits bit number (bits_of 8 bytes.now)) }
        ensures read { ¬ (result ≡ Err ReadFault) }
    {
        let start = self.count;
        let end = start + number;
        if self.room.len() < end {
            self.room.resize(end, 0)?;
        }
        match unpack_narrow(bytes, bit, width, count, &mut self.room[start..end]) {
            Ok(()) => {}
            Err(fault) => return Err(fault),
        }
        self.count = end;
        Ok(())
    }
}
