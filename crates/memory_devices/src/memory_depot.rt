//! Depots in memory.
ghost use Rattle.std.specs.Prelude.{◌≡◌, Some, OnErr, IfOk, IsErrOf};
ghost use Rattle.std.specs.FinMap as map;
ghost use Rattle.outside.specs.Calls.{AppendsToPart, BeginsPart, PublishesPart, RemovesFile};
ghost use Rattle.memory_devices.specs.Calls.{MemoryBytes, MemoryLength, MemoryNames, MemoryWrite};
ghost use Rattle.memory_devices.specs.Memory.{fresh, stopping, write_called, part_begun, part_grown, part_lost, part_published, file_removed, told};

use crate::{FileMap, MemoryShelf};
use outside::{Bytes, Depot, DepotFault, Name, NoMemory, ReadResult, Seq, Shelf, ShelfFault};
use std::alloc::Global;
use std::marker::Model;

/// A depot in memory, which tells everything. It fails at the calls whose numbers it is given,
/// counted from 0 over all its calls, and a call that fails so changes nothing. Where `append` or
/// `publish` wants memory, the part is gone.
#[derive(Drop)]
pub struct MemoryDepot {
    shelf: MemoryShelf,
    parts: FileMap,
    faults: u64,
}

impl Model for MemoryDepot {
    ghost use Rattle.memory_devices.specs.Memory.{Memory, memory_code};

    ghost Value = { Memory };

    ghost coded = { memory_code };

    ghost view = { λ d. record d.shelf { parts = d.parts; write_faults = d.faults } };
}

impl MemoryDepot {
    /// A depot of these files. Of two with one name the last one counts.
    pub fn new(
        alloc: Global,
        files: Seq<(Name, Bytes)>,
        failing: Seq<u64>,
    ) -> Result<Self, NoMemory>
        ensures { IfOk result (λ depot. depot ≡ fresh files failing) }
    {
        Ok(MemoryDepot {
            shelf: MemoryShelf::new(alloc, files, failing)?,
            parts: FileMap::new(alloc),
            faults: 0,
        })
    }

    /// A depot of these files that stops: its call of that number, counted from 0 over all its
    /// calls, fails and is counted, and so is each after it.
    pub fn stopping(alloc: Global, files: Seq<(Name, Bytes)>, after: u64) -> Result<Self, NoMemory>
        ensures { IfOk result (λ depot. depot ≡ stopping files after) }
    {
        Ok(MemoryDepot {
            shelf: MemoryShelf::stopping(alloc, files, after)?,
            parts: FileMap::new(alloc),
            faults: 0,
        })
    }

    /// The published files with their names, in the order of these. It is no call of the device.
    pub fn files(&self, alloc: Global) -> Result<Seq<(Name, Bytes)>, NoMemory>
        ensures { IfOk result (λ files. files ≡ map.entries self.now.held) }
    {
        self.shelf.files(alloc)
    }
}

impl Shelf for MemoryDepot {
    ghost held = { λ depot. Some depot.held };

    ghost parts = { λ depot. Some depot.parts };

    ghost log = { λ depot. Some depot.log };

    ghost read_faults = { λ depot. depot.read_faults };

    ghost write_faults = { λ depot. depot.write_faults };

    fn names(&mut self, alloc: Global) -> Result<Seq<Name>, ShelfFault>
        ensures { MemoryNames result self.old self.new }
    {
        self.shelf.names(alloc)
    }

    fn length(&mut self, alloc: Global, name: &str) -> Result<u64, ShelfFault>
        ensures { MemoryLength name.now result self.old self.new }
    {
        self.shelf.length(alloc, name)
    }

    fn read_at(&mut self, alloc: Global, name: &str, offset: u64, into: &mut [u8]) -> ReadResult
        ensures { MemoryBytes name.now offset into.old into.new result self.old self.new }
    {
        self.shelf.read_at(alloc, name, offset, into)
    }
}

impl Depot for MemoryDepot {
    ghost use Rattle.outside.specs.Told.{tells_both};

    ghost tells_both = { λ depot. tells_both depot.held depot.parts };

    fn begin(&mut self, alloc: Global, part: &str) -> Result<(), DepotFault>
        ensures write { MemoryWrite (part_begun part.now) result self.old self.new }
        ensures after_fault { OnErr result (self.new ≡ write_called self.old) }
        ensures begins { BeginsPart part.now result (told self.old) (told self.new) }
    {
        if self.shelf.fails_counted(&mut self.faults) {
            return Err(DepotFault::Failed);
        }
        self.parts
            .put(Name::from_text(alloc, part)?, Seq::new(alloc))?;
        Ok(())
    }

    fn append(&mut self, alloc: Global, part: &str, bytes: &[u8]) -> Result<(), DepotFault>
        ensures write { MemoryWrite (part_grown part.now bytes.now) result self.old self.new }
        ensures after_no_memory { IsErrOf result DepotFault.NoMemory →
            self.new ≡ part_lost part.now (write_called self.old) }
        ensures appends { AppendsToPart part.now bytes.now result (told self.old) (told self.new) }
    {
        if self.shelf.fails_counted(&mut self.faults) {
            return Err(DepotFault::Failed);
        }
        self.parts.append(alloc, part, bytes)?;
        Ok(())
    }

    fn publish(&mut self, alloc: Global, part: &str, name: &str) -> Result<(), DepotFault>
        ensures write { MemoryWrite (part_published part.now name.now) result self.old self.new }
        ensures after_no_memory { IsErrOf result DepotFault.NoMemory →
            self.new ≡ part_lost part.now (write_called self.old) }
        ensures publishes { PublishesPart part.now name.now result
            (told self.old) (told self.new) }
    {
        if self.shelf.fails_counted(&mut self.faults) {
            return Err(DepotFault::Failed);
        }
        let bytes = self.parts.take(part).unwrap_or(Seq::new(alloc));
        self.shelf.put(Name::from_text(alloc, name)?, bytes)?;
        Ok(())
    }

    fn remove(&mut self, alloc: Global, name: &str) -> Result<(), DepotFault>
        ensures write { MemoryWrite (file_removed name.now) result self.old self.new }
        ensures after_fault { OnErr result (self.new ≡ write_called self.old) }
        ensures removes { RemovesFile name.now result (told self.old) (told self.new) }
        ensures no_memory { ¬ IsErrOf result DepotFault.NoMemory }
    {
        let _ = alloc;
        let has_failed = self.shelf.fails_counted(&mut self.faults);
        if has_failed {
            return Err(DepotFault::Failed);
        }
        match self.shelf.take(name) {
            Some(_) => Ok(()),
            None => Err(DepotFault::Missing),
        }
    }
}
