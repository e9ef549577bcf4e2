//! What the fault of a column is for the answer of a segment.

ghost use Rattle.std.specs.Prelude.{◌≡◌};
ghost use Rattle.column_reader.specs.Faults.{fault_of};

use bit_column::ColumnFault;
use segment_file::Part;
use segment_head::EngineFault;

/// What the fault of a column is for the answer of a segment.
pub fn of_column(fault: ColumnFault, column: u16) -> EngineFault
    ensures { result ≡ fault_of fault column }
{
    match fault {
        ColumnFault::ReadFault => EngineFault::ReadFault,
        ColumnFault::BadId => EngineFault::NotASegment(Part::Forward(column)),
        ColumnFault::NoMemory => EngineFault::NoMemory,
    }
}
