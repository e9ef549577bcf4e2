//! Why a segment is not answered from a star-tree.

use std::alloc::{AllocError, AllocFailed};

/// Why a segment is not answered from a star-tree.
#[derive(Clone, Copy, Debug, PartialEq, Eq)]
pub enum AnswerFault {
    /// There are more groups than there may be.
    TooManyGroups,
    /// The section of documents ends early, or has bytes of no document; a document has no value in
    /// a group column; or documents stand for more rows than the segment has.
    BadDocs,
    /// The shelf failed, and its count of faults rose.
    ReadFault,
    NoMemory,
}

impl From<AllocError> for AnswerFault {
    ghost use Rattle.std.specs.Prelude.{◌≡◌};
    ghost use Rattle.star_reader.specs.declared.fault.AnswerFault.TheVariants.{NoMemory};

    ghost from_gives = { λ _ fault. fault ≡ NoMemory };

    fn from(_: AllocError) -> Self {
        AnswerFault::NoMemory
    }
}

impl<T: Drop> From<AllocFailed<T>> for AnswerFault {
    ghost use Rattle.std.specs.Prelude.{◌≡◌};
    ghost use Rattle.star_reader.specs.declared.fault.AnswerFault.TheVariants.{NoMemory};

    ghost from_gives = { λ _ fault. fault ≡ NoMemory };

    fn from(_: AllocFailed<T>) -> Self {
        AnswerFault::NoMemory
    }
}
