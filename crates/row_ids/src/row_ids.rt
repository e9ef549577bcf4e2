//! The ids of the rows of a column.
ghost use Rattle.std.specs.Prelude.{◌≡◌, ◌≤◌, ◌<◌, IfOk, OnOk, All, get_or, length, map};
ghost use Rattle.row_ids.specs.Ids.{ids_in};

use crate::copying::{narrowed, put_at_narrow, put_at_wide, put_wide};
use data_types::NoMemory;
use std::alloc::Global;
use std::marker::Model;

/// An id takes two bytes where a column has at most so many values, else four.
const MOST_NARROW: u32 = 65_536;

/// The id of each row of a column, in two bytes or in four. Contracts see a list of numbers.
#[derive(Drop)]
pub struct RowIds {
    room: IdRoom,
}

/// Where the ids lie.
#[derive(Drop)]
pub(crate) enum IdRoom {
    Narrow(Vec<u16>),
    Wide(Vec<u32>),
}

impl Model for RowIds {
    ghost use Rattle.std.specs.Prelude.{List, ℕ};
    ghost use Rattle.row_ids.specs.Ids.{ids_in};

    ghost Value = { List ℕ };

    ghost view = { λ ids. ids_in ids.room };
}

impl RowIds {
    /// These ids, which are of so many values. Where two bytes each are enough, they take no more.
    pub fn of(alloc: Global, ids: Vec<u32>, count: u32) -> Result<Self, NoMemory>
        requires { All (λ id. id < count) ids.items }
        ensures { IfOk result (λ all. all ≡ ids.items) }
    {
        if count > MOST_NARROW {
            return Ok(RowIds::from_wide(ids));
        }
        Ok(RowIds::from_narrow(narrowed(alloc, ids.as_slice())?))
    }

    /// The ids of a vector, in two bytes each.
    pub fn from_narrow(ids: Vec<u16>) -> Self
        ensures { result ≡ ids.items }
    {
        RowIds {
            room: IdRoom::Narrow(ids),
        }
    }

    /// The ids of a vector, in four bytes each.
    pub fn from_wide(ids: Vec<u32>) -> Self
        ensures { result ≡ ids.items }
    {
        RowIds {
            room: IdRoom::Wide(ids),
        }
    }

    /// How many rows there are.
    pub fn len(&self) -> usize
        ensures { result ≡ length self.now }
    {
        match &self.room {
            IdRoom::Narrow(ids) => ids.len(),
            IdRoom::Wide(ids) => ids.len(),
        }
    }

    /// The id of a row.
    #[inline(always)]
    pub fn at(&self, row: usize) -> u32
        requires { row < length self.now }
        ensures { result ≡ get_or self.now row 0 }
    {
        match &self.room {
            IdRoom::Narrow(ids) => u32::from(ids[row]),
            IdRoom::Wide(ids) => ids[row],
        }
    }

    /// Puts all of them into a list, in place of what it has.
    pub fn put_all(&self, out: &mut Vec<u32>) -> Result<(), NoMemory>
        ensures { OnOk result (out.new.items ≡ self.now) }
    {
        out.clear();
        match &self.room {
            IdRoom::Narrow(ids) => {
                out.resize(ids.len(), 0)?;
                put_wide(ids.as_slice(), out.as_mut_slice());
                Ok(())
            }
            IdRoom::Wide(ids) => out.extend_from_slice(ids.as_slice()),
        }
    }

    /// Puts those of some rows into a list, in place of what it has.
    pub fn put_at(&self, rows: &[u32], out: &mut Vec<u32>) -> Result<(), NoMemory>
        requires { All (λ row. row < length self.now) rows.now }
        ensures { OnOk result (out.new.items ≡ map (λ row. get_or self.now row 0) rows.now) }
    {
        out.clear();
        out.resize(rows.len(), 0)?;
        match &self.room {
            IdRoom::Narrow(ids) => put_at_narrow(ids.as_slice(), rows, out.as_mut_slice()),
            IdRoom::Wide(ids) => put_at_wide(ids.as_slice(), rows, out.as_mut_slice()),
        }
        Ok(())
    }
}
