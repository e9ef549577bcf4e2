//! A shelf that has one file under every name, and counts what is read of it.

use outside::{Name, ReadResult, Seq, Shelf, ShelfFault};
use std::alloc::Global;

/// One file, and how many bytes of it were read.
#[derive(Drop)]
pub struct CountingShelf {
    bytes: Vec<u8>,
    read: u64,
}

impl CountingShelf {
    pub fn new(bytes: Vec<u8>) -> Self {
        CountingShelf { bytes, read: 0 }
    }

    /// How many bytes were read since this was last asked.
    pub fn taken(&mut self) -> u64 {
        let read = self.read;
        self.read = 0;
        read
    }
}

impl Shelf for CountingShelf {
    ghost use Rattle.std.specs.Prelude.{None};

    ghost held = { λ _. None };

    ghost parts = { λ _. None };

    ghost log = { λ _. None };

    ghost read_faults = { λ _. 0 };

    ghost write_faults = { λ _. 0 };

    fn names(&mut self, alloc: Global) -> Result<Seq<Name>, ShelfFault> {
        Ok(Seq::new(alloc))
    }

    fn length(&mut self, _alloc: Global, _name: &str) -> Result<u64, ShelfFault> {
        Ok(self.bytes.len() as u64)
    }

    fn read_at(&mut self, _alloc: Global, _name: &str, offset: u64, into: &mut [u8]) -> ReadResult {
        let start = offset.min(self.bytes.len() as u64) as usize;
        let count = into.len().min(self.bytes.len() - start);
        for at in 0..count {
            into[at] = self.bytes[start + at];
        }
        self.read = self.read.saturating_add(count as u64);
        Ok(count)
    }
}
