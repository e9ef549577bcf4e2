//! The log of a device in memory.
ghost use Rattle.std.specs.Prelude.{◌≡◌, ◌++◌, ◌∷◌, [], OnOk, OnErr};
ghost use Rattle.outside.specs.Reads.{entry_of};

use outside::{Name, NoMemory};
use std::alloc::Global;
use std::marker::Model;

// One read that was made.
#[derive(Drop)]
struct ReadMade {
    file: Name,
    offset: u64,
    count: usize,
}

/// The reads that were made, the latest last.
#[derive(Drop)]
pub struct ReadLog {
    reads: Vec<ReadMade>,
}

impl Model for ReadLog {
    ghost use Rattle.std.specs.Prelude.{List};
    ghost use Rattle.std.specs.Coded.{coded_list};
    ghost use Rattle.outside.specs.Reads.{Entry};
    ghost use Rattle.memory_devices.specs.Memory.{entry_code};

    ghost Value = { List Entry };

    ghost coded = { coded_list entry_code };

    ghost use Rattle.memory_devices.specs.ReadLog.{entries_of};

    ghost view = { λ log. entries_of log.reads.items };
}

impl ReadLog {
    pub fn new(alloc: Global) -> Self
        ensures { result ≡ [] }
    {
        ReadLog {
            reads: Vec::new(alloc),
        }
    }

    pub fn push(&mut self, file: Name, offset: u64, count: usize) -> Result<(), NoMemory>
        ensures ok { OnOk result (self.new ≡ self.old ++ entry_of file offset count ∷ []) }
        ensures err { OnErr result (self.new ≡ self.old) }
    {
        self.reads.push(ReadMade {
            file,
            offset,
            count,
        })?;
        Ok(())
    }
}
