//! What the scan of one segment leaves to that of the next: room for ids, and places of groups.

ghost use Rattle.std.specs.Prelude.{◌≡◌, ◌<◌, ◌≤◌, ℕ, [], IfOk};
ghost use Rattle.coded_columns.specs.Ids.{HasRoom, IsNarrow, ids_in, most_narrow};

use coded_columns::{IdRoom, Ids};
use std::alloc::{AllocError, Global};
use std::mem::replace;

/// Where the ids of columns are put: in the room that those of an earlier segment had, and else in
/// new memory. Beside it the places that groups had in an earlier segment, by the hashes of ids.
#[derive(Drop)]
pub struct IdRooms {
    alloc: Global,
    rooms: Vec<Option<Ids>>,
    pub places: Vec<u64>,
}

impl IdRooms {
    /// No room yet.
    pub fn new(alloc: Global) -> IdRooms {
        IdRooms {
            alloc,
            rooms: Vec::new(alloc),
            places: Vec::new(alloc),
        }
    }

    /// Where new memory is from.
    pub fn alloc(&self) -> Global {
        self.alloc
    }

    /// Keeps the room of ids that are done with, column by column. None is kept where an id of some
    /// column takes four bytes: the column has many values, and its dictionary in the next segment,
    /// which is read first, is as large as the room.
    pub fn give_back(&mut self, ids: Vec<Option<Ids>>) {
        if are_narrow(ids.as_slice()) {
            self.rooms = ids;
        }
    }

    /// Room for the ids of so many rows in a column of so many values.
    pub fn room_for(&mut self, column: u16, count: u32, rows: usize) -> Result<IdRoom, AllocError>
        ensures none { IfOk result (λ room. ids_in room ≡ []) }
        ensures room { IfOk result (λ room. (id : ℕ) → id < count → HasRoom room id) }
        ensures least { IfOk result (λ room. count ≤ most_narrow → IsNarrow room) }
    {
        let other = self.take(column);
        IdRoom::for_values(self.alloc, other, count, rows)
    }

    // The ids that a column had before, if their room was kept.
    fn take(&mut self, column: u16) -> Option<Ids> {
        let at = usize::from(column);
        if at >= self.rooms.len() {
            return None;
        }
        replace(&mut self.rooms[at], None)
    }
}

// Whether an id of each of some columns takes two bytes.
fn are_narrow(columns: &[Option<Ids>]) -> bool {
    let mut all = true;
    for ids in columns {
        if let Some(ids) = ids {
            all &= ids.are_narrow();
        }
    }
    all
}
