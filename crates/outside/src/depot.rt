//! Folders of files that are read and written.
ghost use Rattle.std.specs.Prelude.{◌≡◌, ◌↔◌, None};
ghost use Rattle.outside.specs.Calls.{AppendsToPart, BeginsPart, PublishesPart, RemovesFile, seen_by};

use crate::Shelf;
use std::alloc::{AllocError, Global};

/// Why a depot does not write.
#[derive(Clone, Copy, Debug, PartialEq, Eq)]
pub enum DepotFault {
    /// There is no file of the name.
    Missing,
    /// The device failed, and its count of faults rose.
    Failed,
    NoMemory,
}

impl From<AllocError> for DepotFault {
    ghost use Rattle.outside.specs.declared.depot.DepotFault.TheVariants.{NoMemory};

    ghost from_gives = { λ _ fault. fault ≡ NoMemory };

    fn from(_: AllocError) -> Self {
        DepotFault::NoMemory
    }
}

/// A shelf whose files are written too. A file is written as a part, and published under its name
/// as a whole. After a refusal the published files are as before, and nothing is known of the bytes
/// of the part that was named until it is begun again.
pub trait Depot: Shelf {
    /// Makes a part, or empties it.
    fn begin(&mut self, alloc: Global, part: &str) -> Result<(), DepotFault>
        ensures { BeginsPart part.now result
            (seen_by Self.held Self.parts Self.log Self.read_faults Self.write_faults self.old)
            (seen_by Self.held Self.parts Self.log Self.read_faults Self.write_faults self.new) };

    /// Adds bytes at the end of a part. One that was not begun counts as empty.
    fn append(&mut self, alloc: Global, part: &str, bytes: &[u8]) -> Result<(), DepotFault>
        ensures { AppendsToPart part.now bytes.now result
            (seen_by Self.held Self.parts Self.log Self.read_faults Self.write_faults self.old)
            (seen_by Self.held Self.parts Self.log Self.read_faults Self.write_faults self.new) };

    /// Puts the bytes of a part under a name, in place of what was there. The part is gone. One
    /// that was not begun counts as empty.
    fn publish(&mut self, alloc: Global, part: &str, name: &str) -> Result<(), DepotFault>
        ensures { PublishesPart part.now name.now result
            (seen_by Self.held Self.parts Self.log Self.read_faults Self.write_faults self.old)
            (seen_by Self.held Self.parts Self.log Self.read_faults Self.write_faults self.new) };

    /// Takes a published file away.
    fn remove(&mut self, alloc: Global, name: &str) -> Result<(), DepotFault>
        ensures { RemovesFile name.now result
            (seen_by Self.held Self.parts Self.log Self.read_faults Self.write_faults self.old)
            (seen_by Self.held Self.parts Self.log Self.read_faults Self.write_faults self.new) };

    /// A depot tells both its files and its parts, or neither.
    ghost tells_both: { (depot : Self) → (Self.held depot ≡ None) ↔ (Self.parts depot ≡ None) };
}
