//! Why a head is not read.
use crate::Part;
use outside::ShelfFault;
use std::alloc::AllocError;

/// Why a head is not read.
#[derive(Clone, Copy, Debug, PartialEq, Eq)]
pub enum HeadFault {
    /// The file is no segment's: the part of the first rule that fails.
    NotASegment(Part),
    /// The shelf failed, and its count of faults rose.
    ReadFault,
    NoMemory,
}

impl From<AllocError> for HeadFault {
    ghost use Rattle.std.specs.Prelude.{◌≡◌};
    ghost use Rattle.segment_file.specs.declared.fault.HeadFault.TheVariants.{NoMemory};

    ghost from_gives = { λ _ fault. fault ≡ NoMemory };

    fn from(_: AllocError) -> Self {
        HeadFault::NoMemory
    }
}

impl From<ShelfFault> for HeadFault {
    ghost use Rattle.segment_file.specs.Faults.{IsHeadFault};

    ghost from_gives = { IsHeadFault };

    fn from(fault: ShelfFault) -> Self {
        match fault {
            ShelfFault::Missing => HeadFault::NotASegment(Part::Head),
            ShelfFault::Failed => HeadFault::ReadFault,
            ShelfFault::NoMemory => HeadFault::NoMemory,
        }
    }
}
