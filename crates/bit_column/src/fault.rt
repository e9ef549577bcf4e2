//! Why ids are not read.
use outside::ShelfFault;
use std::alloc::AllocError;

/// Why a range of ids is not read.
#[derive(Clone, Copy, Debug, PartialEq, Eq)]
pub enum ColumnFault {
    /// The shelf failed, and its count of faults rose.
    ReadFault,
    /// The section or its file ends before the range does, or an id is not below the count.
    BadId,
    NoMemory,
}

impl From<AllocError> for ColumnFault {
    ghost use Rattle.std.specs.Prelude.{◌≡◌};
    ghost use Rattle.bit_column.specs.declared.fault.ColumnFault.TheVariants.{NoMemory};

    ghost from_gives = { λ _ fault. fault ≡ NoMemory };

    fn from(_: AllocError) -> Self {
        ColumnFault::NoMemory
    }
}

impl From<ShelfFault> for ColumnFault {
    ghost use Rattle.bit_column.specs.Faults.{IsColumnFault};

    ghost from_gives = { IsColumnFault };

    fn from(fault: ShelfFault) -> Self {
        match fault {
            ShelfFault::Missing => ColumnFault::BadId,
            ShelfFault::Failed => ColumnFault::ReadFault,
            ShelfFault::NoMemory => ColumnFault::NoMemory,
        }
    }
}
