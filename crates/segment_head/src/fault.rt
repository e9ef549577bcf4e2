//! Why a segment is not answered.

ghost use Rattle.std.specs.Prelude.{◌≡◌};
ghost use Rattle.segment_head.specs.Faults.{fault_of};

use segment_file::{HeadFault, Part};
use std::alloc::AllocError;

/// Why a segment is not answered.
#[derive(Clone, Copy, Debug, PartialEq, Eq)]
pub enum EngineFault {
    /// There are more groups than there may be.
    TooManyGroups,
    /// The file is no segment's: in this part a rule fails, an id is out of range, or it ends
    /// early.
    NotASegment(Part),
    /// The shelf failed, and its count of faults rose.
    ReadFault,
    NoMemory,
}

impl From<AllocError> for EngineFault {
    ghost use Rattle.std.specs.Prelude.{◌≡◌};
    ghost use Rattle.segment_head.specs.declared.fault.EngineFault.TheVariants.{NoMemory};

    ghost from_gives = { λ _ fault. fault ≡ NoMemory };

    fn from(_: AllocError) -> Self {
        EngineFault::NoMemory
    }
}

/// What the fault of a head is for the answer of its segment.
pub fn engine_fault(fault: HeadFault) -> EngineFault
    ensures { result ≡ fault_of fault }
{
    match fault {
        HeadFault::NotASegment(part) => EngineFault::NotASegment(part),
        HeadFault::ReadFault => EngineFault::ReadFault,
        HeadFault::NoMemory => EngineFault::NoMemory,
    }
}
