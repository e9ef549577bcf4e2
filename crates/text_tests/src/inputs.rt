//! Input files in memory, of whose lengths something false may be said.

use crate::told::Told;
use memory_devices::MemoryShelf;
use outside::{Name, ReadResult, Seq, Shelf, ShelfFault};
use std::alloc::Global;

/// Files in memory, and what is said of their lengths.
#[derive(Drop)]
pub struct Inputs {
    pub files: MemoryShelf,
    pub told: Told,
}

impl Shelf for Inputs {
    ghost use Rattle.std.specs.Prelude.{None};

    ghost held = { λ _. None };

    ghost parts = { λ _. None };

    ghost log = { λ _. None };

    ghost read_faults = { λ inputs. inputs.files.read_faults };

    ghost write_faults = { λ _. 0 };

    fn names(&mut self, alloc: Global) -> Result<Seq<Name>, ShelfFault> {
        self.files.names(alloc)
    }

    fn length(&mut self, alloc: Global, name: &str) -> Result<u64, ShelfFault> {
        if let Told::Long = self.told {
            return Ok(134_217_729);
        }
        let length = self.files.length(alloc, name)?;
        Ok(self.told.of(length))
    }

    fn read_at(&mut self, alloc: Global, name: &str, offset: u64, into: &mut [u8]) -> ReadResult {
        self.files.read_at(alloc, name, offset, into)
    }
}
