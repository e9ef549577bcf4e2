//! A depot that tells nothing, keeps nothing, and notes how many bytes each append has.

use outside::{Depot, DepotFault, Name, ReadResult, Seq, Shelf, ShelfFault};
use std::alloc::Global;

/// The lengths of the appends so far.
#[derive(Drop)]
pub struct NotingDepot {
    lengths: Vec<u64>,
}

impl NotingDepot {
    pub fn new(alloc: Global) -> Self {
        NotingDepot {
            lengths: Vec::new(alloc),
        }
    }

    /// How many bytes each append had.
    pub fn lengths(&self) -> &[u64] {
        &self.lengths
    }
}

impl Shelf for NotingDepot {
    ghost use Rattle.std.specs.Prelude.{None};

    ghost held = { λ _. None };

    ghost parts = { λ _. None };

    ghost log = { λ _. None };

    ghost read_faults = { λ _. 0 };

    ghost write_faults = { λ _. 0 };

    fn names(&mut self, alloc: Global) -> Result<Seq<Name>, ShelfFault> {
        Ok(Seq::new(alloc))
    }

    fn length(&mut self, _alloc: Global, _name: &str) -> Result<u64, ShelfFault> {
        Err(ShelfFault::Missing)
    }

    fn read_at(&mut self, _alloc: Global, _name: &str, _at: u64, _into: &mut [u8]) -> ReadResult {
        Ok(0)
    }
}

impl Depot for NotingDepot {
    ghost use Rattle.outside.specs.Told.{tells_neither};

    ghost tells_both = { λ _. tells_neither };

    fn begin(&mut self, _alloc: Global, _part: &str) -> Result<(), DepotFault> {
        Ok(())
    }

    fn append(&mut self, _alloc: Global, _part: &str, bytes: &[u8]) -> Result<(), DepotFault> {
        match self.lengths.push(bytes.len() as u64) {
            Ok(()) => Ok(()),
            Err(_) => Err(DepotFault::NoMemory),
        }
    }

    fn publish(&mut self, _alloc: Global, _part: &str, _name: &str) -> Result<(), DepotFault> {
        Ok(())
    }

    fn remove(&mut self, _alloc: Global, _name: &str) -> Result<(), DepotFault> {
        Ok(())
    }
}
