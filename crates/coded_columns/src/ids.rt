//! The ids of the rows in a column, in as few bytes as they take.

ghost use Rattle.std.specs.Prelude.{◌≡◌, ◌≤◌, ◌<◌, ◌+◌, [], ℕ, IfOk, get_or, length};
ghost use Rattle.coded_columns.specs.Ids.{HasRoom, IsNarrow, ids_in, most_narrow, seen_ids};

use bit_column::NarrowIds;
use std::alloc::Global;
use std::marker::Model;
use values::NoMemory;

/// An id takes two bytes where a column has at most so many values, else four.
const MOST_NARROW: u32 = 65_536;

/// The ids of the rows in a column, which contracts see as a list of numbers.
#[derive(Drop)]
pub struct Ids {
    room: IdRoom,
}

impl Model for Ids {
    ghost use Rattle.std.specs.Prelude.{List, ℕ};
    ghost use Rattle.coded_columns.specs.Ids.{ids_in};

    ghost Value = { List ℕ };

    ghost view = { λ ids. ids_in ids.room };
}

impl Ids {
    /// No ids. They take no memory.
    pub fn none(alloc: Global) -> Ids
        ensures { result ≡ [] }
    {
        Ids::from_vec(Vec::new(alloc))
    }

    /// The ids of a vector, in four bytes each.
    pub fn from_vec(ids: Vec<u32>) -> Ids
        ensures { result ≡ ids.items }
    {
        Ids {
            room: IdRoom::Wide(ids),
        }
    }

    /// Whether an id takes two bytes.
    pub fn are_narrow(&self) -> bool {
        match &self.room {
            IdRoom::Narrow(_) => true,
            IdRoom::Wide(_) => false,
        }
    }

    /// The id of a row.
    #[inline(always)]
    pub fn at(&self, row: usize) -> u32
        requires { row < length self.now }
        ensures { result ≡ get_or self.now row 0 }
    {
        match &self.room {
            IdRoom::Narrow(ids) => u32::from(ids.as_slice()[row]),
            IdRoom::Wide(ids) => ids[row],
        }
    }

    /// The ids of some rows from one on where they lie.
    #[inline(always)]
    pub fn between(&self, from: usize, many: usize) -> IdSlices<'_>
        requires { from + many ≤ length self.now }
        ensures count { length (seen_ids result) ≡ many }
        ensures each { (at : ℕ) → at < many
            → get_or (seen_ids result) at 0 ≡ get_or self.now (from + at) 0 }
    {
        match &self.room {
            IdRoom::Narrow(ids) => IdSlices::Narrow(&ids.as_slice()[from..from + many]),
            IdRoom::Wide(ids) => IdSlices::Wide(&ids[from..from + many]),
        }
    }

    /// The ids where they lie, for a loop over many rows.
    #[inline(always)]
    pub(crate) fn slices(&self) -> IdSlices<'_>
        ensures { seen_ids result ≡ self.now }
    {
        match &self.room {
            IdRoom::Narrow(ids) => IdSlices::Narrow(ids.as_slice()),
            IdRoom::Wide(ids) => IdSlices::Wide(ids.as_slice()),
        }
    }
}

/// The ids of the rows in a column where they lie.
#[derive(Clone, Copy)]
pub enum IdSlices<'a> {
    Narrow(&'a [u16]),
    Wide(&'a [u32]),
}

impl IdSlices<'_> {
    /// The id of a row.
    #[inline(always)]
    pub fn at(self, row: usize) -> u32
        requires { row < length (seen_ids self) }
        ensures { result ≡ get_or (seen_ids self.entry) row 0 }
    {
        match self {
            IdSlices::Narrow(ids) => u32::from(ids[row]),
            IdSlices::Wide(ids) => ids[row],
        }
    }

    /// How many there are.
    #[inline(always)]
    pub fn count(self) -> usize
        ensures { result ≡ length (seen_ids self.entry) }
    {
        match self {
            IdSlices::Narrow(ids) => ids.len(),
            IdSlices::Wide(ids) => ids.len(),
        }
    }
}

/// Room for the ids of a column, which are added block by block. Each has room in it.
#[derive(Drop)]
pub enum IdRoom {
    Narrow(NarrowIds),
    Wide(Vec<u32>),
}

impl IdRoom {
    /// Room for the ids of so many rows in a column of so many values: that of other ids, where it
    /// is such, or new room.
    pub fn for_values(
        alloc: Global,
        other: Option<Ids>,
        count: u32,
        rows: usize,
    ) -> Result<IdRoom, NoMemory>
        ensures none { IfOk result (λ room. ids_in room ≡ []) }
        ensures room { IfOk result (λ room. (id : ℕ) → id < count → HasRoom room id) }
        ensures least { IfOk result (λ room. count ≤ most_narrow → IsNarrow room) }
    {
        if count <= MOST_NARROW {
            return Ok(IdRoom::Narrow(narrow_room(alloc, other, rows)?));
        }
        Ok(IdRoom::Wide(wide_room(alloc, other, rows)?))
    }

    /// The ids that were added.
    pub fn into_ids(self) -> Ids
        ensures { result ≡ ids_in self }
    {
        Ids { room: self }
    }
}

// Room for so many ids of two bytes: that of other ids, where it is such.
fn narrow_room(alloc: Global, other: Option<Ids>, rows: usize) -> Result<NarrowIds, NoMemory>
    ensures { IfOk result (λ ids. ids ≡ []) }
{
    let Some(Ids { room }) = other else {
        return NarrowIds::with_room(alloc, rows);
    };
    match room {
        IdRoom::Narrow(ids) => emptied(alloc, ids, rows),
        IdRoom::Wide(_ids) => NarrowIds::with_room(alloc, rows),
    }
}

// The room of other ids, or new room where there is less than is wanted.
fn emptied(alloc: Global, mut ids: NarrowIds, rows: usize) -> Result<NarrowIds, NoMemory>
    ensures { IfOk result (λ own. own ≡ []) }
{
    if ids.size() < rows {
        drop(ids);
        return NarrowIds::with_room(alloc, rows);
    }
    ids.clear();
    Ok(ids)
}

// Room for so many ids of four bytes: that of other ids, where it is such.
fn wide_room(alloc: Global, other: Option<Ids>, rows: usize) -> Result<Vec<u32>, NoMemory>
    ensures { IfOk result (λ ids. ids.items ≡ []) }
{
    let Some(Ids { room }) = other else {
        return Vec::with_capacity(alloc, rows);
    };
    match room {
        IdRoom::Narrow(_ids) => Vec::with_capacity(alloc, rows),
        IdRoom::Wide(mut ids) => {
            ids.clear();
            Ok(ids)
        }
    }
}
