//! Why a call on a store is refused.

use outside::ShelfFault;
use segment_file::Part;
use std::alloc::AllocError;

/// Why a call on a store is refused.
#[derive(Clone, Copy, Debug, PartialEq, Eq)]
pub enum StoreFault {
    TableExists,
    NoTable,
    /// There is a segment of the name.
    NameTaken,
    /// There is no segment of the name.
    NoSegment,
    /// There are as many segments as there may be.
    TooManySegments,
    /// A star-tree of the rows takes more bytes than one may.
    TooLarge,
    /// A stored file is not what it stands for.
    NotASegment(Part),
    ReadFault,
    WriteFault,
    NoMemory,
}

impl From<AllocError> for StoreFault {
    ghost use Rattle.std.specs.Prelude.{◌≡◌};
    ghost use Rattle.table_store.specs.declared.fault.StoreFault.TheVariants.{NoMemory};

    ghost from_gives = { λ _ fault. fault ≡ NoMemory };

    fn from(_: AllocError) -> Self {
        StoreFault::NoMemory
    }
}

impl From<ShelfFault> for StoreFault {
    ghost use Rattle.table_store.specs.Faults.{of_shelf};
    ghost use Rattle.std.specs.Prelude.{◌≡◌};

    ghost from_gives = { λ fault own. own ≡ of_shelf fault };

    fn from(fault: ShelfFault) -> Self {
        match fault {
            ShelfFault::Missing => StoreFault::NoTable,
            ShelfFault::Failed => StoreFault::ReadFault,
            ShelfFault::NoMemory => StoreFault::NoMemory,
        }
    }
}
