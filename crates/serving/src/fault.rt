//! Why a call of cursors is refused.

use query_executor::ExecutorFault;
use segment_file::Part;
use sql_reply::SqlFault;
use std::alloc::AllocError;
use table_store::StoreFault;

/// Why a call of cursors is refused.
#[derive(Clone, Copy, Debug, PartialEq, Eq)]
pub enum ServeFault {
    /// A cursor of this name is open.
    CursorTaken,
    /// As many cursors are open as there may be.
    TooManyCursors,
    /// No cursor of this name is open.
    NoCursor,
    /// The cursor would have more groups than it may.
    TooManyGroups,
    /// There is no segment of this name.
    NoSegment,
    /// A star-tree of the rows is too large.
    TooLarge,
    /// The file of a segment is no segment's: the part that breaks a rule.
    NotASegment(Part),
    /// The depot failed, and its count of faults of reads rose.
    ReadFault,
    /// The depot failed, and its count of faults of writes rose.
    WriteFault,
    NoMemory,
}

impl From<AllocError> for ServeFault {
    ghost use Rattle.std.specs.Prelude.{◌≡◌};
    ghost use Rattle.serving.specs.declared.fault.ServeFault.TheVariants.{NoMemory};

    ghost from_gives = { λ _ fault. fault ≡ NoMemory };

    fn from(_: AllocError) -> Self {
        ServeFault::NoMemory
    }
}

impl From<ExecutorFault> for ServeFault {
    ghost use Rattle.std.specs.Prelude.{◌≡◌};
    ghost use Rattle.serving.specs.Faults.{of_query};

    ghost from_gives = { λ fault why. why ≡ of_query fault };

    fn from(fault: ExecutorFault) -> Self {
        match fault {
            ExecutorFault::Sql(SqlFault::NoMemory) => ServeFault::NoMemory,
            ExecutorFault::Sql(_) => ServeFault::TooManyGroups,
            ExecutorFault::NotASegment(_, part) => ServeFault::NotASegment(part),
            ExecutorFault::ReadFault => ServeFault::ReadFault,
        }
    }
}

impl From<StoreFault> for ServeFault {
    ghost use Rattle.std.specs.Prelude.{◌≡◌};
    ghost use Rattle.serving.specs.Faults.{of_store};

    ghost from_gives = { λ fault why. why ≡ of_store fault };

    fn from(fault: StoreFault) -> Self {
        match fault {
            StoreFault::NoSegment => ServeFault::NoSegment,
            StoreFault::TooLarge => ServeFault::TooLarge,
            StoreFault::NotASegment(part) => ServeFault::NotASegment(part),
            StoreFault::ReadFault => ServeFault::ReadFault,
            StoreFault::WriteFault => ServeFault::WriteFault,
            _ => ServeFault::NoMemory,
        }
    }
}
