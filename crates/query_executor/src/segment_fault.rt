//! What the fault of a segment is for a query.
ghost use Rattle.std.specs.Prelude.{◌≡◌};
ghost use Rattle.query_executor.specs.Steps as spec;

use crate::ExecutorFault;
use segment_head::EngineFault;
use sql_reply::SqlFault;

/// What the fault of the scan of a segment, by its number, is for a query that may have so many
/// groups.
pub(crate) fn fault_at(most: u32, at: u32, fault: EngineFault) -> ExecutorFault
    ensures { result ≡ spec.fault_at most at fault }
{
    match fault {
        EngineFault::TooManyGroups => ExecutorFault::Sql(SqlFault::TooManyGroups(most)),
        EngineFault::NotASegment(part) => ExecutorFault::NotASegment(at, part),
        EngineFault::ReadFault => ExecutorFault::ReadFault,
        EngineFault::NoMemory => ExecutorFault::Sql(SqlFault::NoMemory),
    }
}
