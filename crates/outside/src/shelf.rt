//! Folders of files that are read.
ghost use Rattle.std.specs.Prelude.{◌≡◌, Option, List, ℕ};
ghost use Rattle.outside.specs.Calls.{GivesBytes, GivesLength, GivesNames, seen_by};
ghost use Rattle.outside.specs.Files.{Files};
ghost use Rattle.outside.specs.Reads.{Entry};

use crate::{Name, Seq};
use std::alloc::{AllocError, Global};

/// Why a shelf does not answer.
#[derive(Clone, Copy, Debug, PartialEq, Eq)]
pub enum ShelfFault {
    /// There is no file of the name.
    Missing,
    /// The device failed, and its count of faults rose.
    Failed,
    NoMemory,
}

/// How many bytes were read, as a shelf answers.
pub type ReadResult = Result<usize, ShelfFault>;

impl From<AllocError> for ShelfFault {
    ghost use Rattle.outside.specs.declared.shelf.ShelfFault.TheVariants.{NoMemory};

    ghost from_gives = { λ _ fault. fault ≡ NoMemory };

    fn from(_: AllocError) -> Self {
        ShelfFault::NoMemory
    }
}

/// Files by name, which are read. A shelf may tell what it holds and what was read of it; what it
/// tells, it goes on telling. A shelf that is no depot has no parts and never fails to write.
pub trait Shelf {
    /// The published files, where the shelf tells.
    ghost held: { Self → Option Files };

    /// The parts that were begun, where the shelf tells. They are not among the published files.
    ghost parts: { Self → Option Files };

    /// The reads so far, the latest last, where the shelf tells.
    ghost log: { Self → Option (List Entry) };

    /// How often a call that reads has failed.
    ghost read_faults: { Self → ℕ };

    /// How often a call that writes has failed.
    ghost write_faults: { Self → ℕ };

    /// The names of the files, ascending by bytes.
    fn names(&mut self, alloc: Global) -> Result<Seq<Name>, ShelfFault>
        ensures { GivesNames result
            (seen_by held parts log read_faults write_faults self.old)
            (seen_by held parts log read_faults write_faults self.new) };

    /// The length of a file in bytes.
    fn length(&mut self, alloc: Global, name: &str) -> Result<u64, ShelfFault>
        ensures { GivesLength name.now result
            (seen_by held parts log read_faults write_faults self.old)
            (seen_by held parts log read_faults write_faults self.new) };

    /// Reads the bytes of a file from an offset on, as many as there are and fit, into the front of
    /// `into`, and says how many. After a refusal nothing is known of the bytes of `into`.
    fn read_at(&mut self, alloc: Global, name: &str, offset: u64, into: &mut [u8]) -> ReadResult
        ensures { GivesBytes name.now offset into.old into.new result
            (seen_by held parts log read_faults write_faults self.old)
            (seen_by held parts log read_faults write_faults self.new) };
}
