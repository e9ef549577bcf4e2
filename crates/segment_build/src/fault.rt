//! Why a segment is not built, and why bytes are not those of a file.

use std::alloc::AllocError;

/// Why a segment is not built.
#[derive(Clone, Copy, Debug, PartialEq, Eq)]
pub enum BuildFault {
    /// The star-tree with this number, from 0, takes more bytes than one may; it is the first.
    TooLarge(u8),
    /// The depot failed, and its count of faults rose.
    WriteFault,
    NoMemory,
}

impl From<AllocError> for BuildFault {
    ghost use Rattle.std.specs.Prelude.{◌≡◌};
    ghost use Rattle.segment_build.specs.declared.fault.BuildFault.TheVariants.{NoMemory};

    ghost from_gives = { λ _ fault. fault ≡ NoMemory };

    fn from(_: AllocError) -> Self {
        BuildFault::NoMemory
    }
}

/// Why bytes are not found in a file.
#[derive(Clone, Copy, Debug, PartialEq, Eq)]
pub enum CompareFault {
    /// A byte is another there, or the file ends before it.
    Differs,
    /// The shelf failed, and its count of faults rose.
    Failed,
    NoMemory,
}
