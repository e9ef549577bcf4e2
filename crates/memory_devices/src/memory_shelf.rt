//! Shelves in memory.
ghost use Rattle.std.specs.Prelude.{◌≡◌, Some, OnErr, IfOk, min, length, ◌-◌, take, drop, ◌++◌, OnOk, IfNone};
ghost use Rattle.std.specs.FinMap as map;
ghost use Rattle.outside.specs.Counts.{next};
ghost use Rattle.memory_devices.specs.Calls.{CountsFault, MemoryBytes, MemoryLength, MemoryNames};
ghost use Rattle.memory_devices.specs.Memory.{fresh, fails, file_removed, stopping};

use crate::file_map::FileMap;
use crate::memory_calls::MemoryCalls;
use crate::read_log::ReadLog;
use outside::{Bytes, Name, NoMemory, ReadResult, Seq, Shelf, ShelfFault};
use std::alloc::Global;
use std::marker::Model;

/// A shelf in memory, which tells everything. It fails at the calls whose numbers it is given,
/// counted from 0 over all its calls, or from one of them on.
#[derive(Drop)]
pub struct MemoryShelf {
    files: FileMap,
    log: ReadLog,
    calls: MemoryCalls,
    stop: Option<u64>,
    faults: u64,
}

impl Model for MemoryShelf {
    ghost use Rattle.std.specs.FinMap as map;
    ghost use Rattle.memory_devices.specs.Memory.{Memory, memory_code};

    ghost Value = { Memory };

    ghost coded = { memory_code };

    ghost view = { λ s. record {
      held = s.files;
      parts = map.empty;
      log = s.log;
      failing = s.calls.failing;
      stop = s.stop;
      calls = s.calls.made;
      read_faults = s.faults;
      write_faults = 0;
    } };
}

impl MemoryShelf {
    /// A shelf of these files. Of two with one name the last one counts.
    pub fn new(
        alloc: Global,
        files: Seq<(Name, Bytes)>,
        failing: Seq<u64>,
    ) -> Result<Self, NoMemory>
        ensures { IfOk result (λ shelf. shelf ≡ fresh files failing) }
    {
        Ok(MemoryShelf {
            files: FileMap::from_files(alloc, files)?,
            log: ReadLog::new(alloc),
            calls: MemoryCalls::new(failing),
            stop: None,
            faults: 0,
        })
    }

    /// A shelf of these files whose call of that number fails, and each after it.
    pub(crate) fn stopping(
        alloc: Global,
        files: Seq<(Name, Bytes)>,
        after: u64,
    ) -> Result<Self, NoMemory>
        ensures { IfOk result (λ shelf. shelf ≡ stopping files after) }
    {
        let mut shelf = MemoryShelf::new(alloc, files, Seq::new(alloc))?;
        shelf.stop = Some(after);
        Ok(shelf)
    }

    /// The files with their names.
    pub(crate) fn files(&self, alloc: Global) -> Result<Seq<(Name, Bytes)>, NoMemory>
        ensures { IfOk result (λ files. files ≡ map.entries self.now.held) }
    {
        self.files.entries(alloc)
    }

    /// Counts a call of another kind than those of a shelf, and its fault where it is to fail.
    pub(crate) fn fails_counted(&mut self, faults: &mut u64) -> bool
        ensures result { result ≡ fails self.old }
        ensures calls { self.new ≡ record self.old { calls = next self.old.calls } }
        ensures faults { CountsFault result faults.old faults.new }
    {
        self.calls.fails_counted(self.stop, faults)
    }

    /// Puts a file under its name, in place of what was there.
    pub fn put(&mut self, name: Name, bytes: Bytes) -> Result<(), NoMemory>
        ensures ok { OnOk result
            (self.new ≡ record self.old { held = map.insert self.old.held name bytes }) }
        ensures err { OnErr result (self.new ≡ self.old) }
    {
        self.files.put(name, bytes)
    }

    /// Takes a file away.
    pub fn take(&mut self, name: &str) -> Option<Bytes>
        ensures taken { result ≡ map.get self.old.held name.now }
        ensures rest { self.new ≡ file_removed name.now self.old }
        ensures absent { IfNone result (self.new ≡ self.old) }
    {
        self.files.take(name)
    }
}

/// Copies the bytes from an offset on, as many as there are and fit, and says how many.
pub(crate) fn copy_from(bytes: &[u8], offset: u64, into: &mut [u8]) -> usize
    ensures count { result ≡ min (length bytes.now - offset) (length into.old) }
    ensures bytes { into.new ≡ take result (drop offset bytes.now) ++ drop result into.old }
{
    if offset >= bytes.len() as u64 {
        return 0;
    }
    let rest = &bytes[offset as usize..];
    let n = rest.len().min(into.len());
    into[..n].copy_from_slice(&rest[..n]);
    n
}

impl Shelf for MemoryShelf {
    ghost held = { λ shelf. Some shelf.held };

    ghost parts = { λ shelf. Some shelf.parts };

    ghost log = { λ shelf. Some shelf.log };

    ghost read_faults = { λ shelf. shelf.read_faults };

    ghost write_faults = { λ shelf. shelf.write_faults };

    fn names(&mut self, alloc: Global) -> Result<Seq<Name>, ShelfFault>
        ensures { MemoryNames result self.old self.new }
    {
        if self.calls.fails_counted(self.stop, &mut self.faults) {
            return Err(ShelfFault::Failed);
        }
        Ok(self.files.names(alloc)?)
    }

    fn length(&mut self, alloc: Global, name: &str) -> Result<u64, ShelfFault>
        ensures { MemoryLength name.now result self.old self.new }
    {
        let _ = alloc;
        if self.calls.fails_counted(self.stop, &mut self.faults) {
            return Err(ShelfFault::Failed);
        }
        match self.files.get(name) {
            Some(bytes) => Ok(bytes.len() as u64),
            None => Err(ShelfFault::Missing),
        }
    }

    fn read_at(&mut self, alloc: Global, name: &str, offset: u64, into: &mut [u8]) -> ReadResult
        ensures { MemoryBytes name.now offset into.old into.new result self.old self.new }
    {
        if self.calls.fails_counted(self.stop, &mut self.faults) {
            return Err(ShelfFault::Failed);
        }
        match self.files.get(name) {
            Some(bytes) => {
                let count = copy_from(bytes.as_slice(), offset, into);
                let file = Name::from_text(alloc, name)?;
                self.log.push(file, offset, count)?;
                Ok(count)
            }
            None => Err(ShelfFault::Missing),
        }
    }
}
