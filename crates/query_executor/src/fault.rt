//! Why a query over the segments of a table is not answered.

use segment_file::Part;
use sql_reply::SqlFault;
use std::alloc::AllocError;

/// Why a query over the segments of a table is not answered.
#[derive(Clone, Copy, Debug, PartialEq, Eq)]
pub enum ExecutorFault {
    /// The query has no reply.
    Sql(SqlFault),
    /// The file of one of the segments, by its number among the names, is no segment's: the part
    /// that breaks a rule.
    NotASegment(u32, Part),
    /// The shelf failed, and its count of faults rose.
    ReadFault,
}

impl From<AllocError> for ExecutorFault {
    ghost use Rattle.std.specs.Prelude.{◌≡◌};
    ghost use Rattle.sql_reply.specs.declared.fault.SqlFault.TheVariants.{NoMemory};
    ghost use Rattle.query_executor.specs.declared.fault.ExecutorFault.TheVariants.{Sql};

    ghost from_gives = { λ _ fault. fault ≡ Sql NoMemory };

    fn from(_: AllocError) -> Self {
        ExecutorFault::Sql(SqlFault::NoMemory)
    }
}
