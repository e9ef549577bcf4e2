//! Laws of the step, and of what `dump` prints.

ghost use Rattle.command_model.specs.DumpBuild.{DumpBuild};
ghost use Rattle.command_model.specs.Writing.{LeavesDepot, LeavesState};

/// Words that may not write leave each state of a store as it is, and of a depot on any devices
/// what it holds, its parts and the count of its write faults.
pub fn may_write_law()
    ensures state { LeavesState }
    ensures depot { LeavesDepot }
{}

/// What `dump` prints of a segment is built to the same file, where it is within the limit of a CSV
/// file and no text is empty in a field whose default is another value.
pub fn dump_build_law()
    ensures { DumpBuild }
{}
