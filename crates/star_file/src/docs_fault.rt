//! Why documents are not read.

use outside::ShelfFault;
use std::alloc::{AllocError, AllocFailed};

/// Why a range of documents is not read.
#[derive(Clone, Copy, Debug, PartialEq, Eq)]
pub enum DocsFault {
    /// The shelf failed, and its count of faults rose.
    ReadFault,
    /// The section or its file ends before the documents do, or bytes are those of no document.
    BadDocs,
    NoMemory,
}

impl From<AllocError> for DocsFault {
    ghost use Rattle.std.specs.Prelude.{◌≡◌};
    ghost use Rattle.star_file.specs.declared.docs_fault.DocsFault.TheVariants.{NoMemory};

    ghost from_gives = { λ _ fault. fault ≡ NoMemory };

    fn from(_: AllocError) -> Self {
        DocsFault::NoMemory
    }
}

impl<T: Drop> From<AllocFailed<T>> for DocsFault {
    ghost use Rattle.std.specs.Prelude.{◌≡◌};
    ghost use Rattle.star_file.specs.declared.docs_fault.DocsFault.TheVariants.{NoMemory};

    ghost from_gives = { λ _ fault. fault ≡ NoMemory };

    fn from(_: AllocFailed<T>) -> Self {
        DocsFault::NoMemory
    }
}

impl From<ShelfFault> for DocsFault {
    ghost use Rattle.star_file.specs.Reading.{IsDocsFault};

    ghost from_gives = { IsDocsFault };

    fn from(fault: ShelfFault) -> Self {
        match fault {
            ShelfFault::Missing => DocsFault::BadDocs,
            ShelfFault::Failed => DocsFault::ReadFault,
            ShelfFault::NoMemory => DocsFault::NoMemory,
        }
    }
}
