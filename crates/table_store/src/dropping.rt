//! Segments are dropped.

ghost use Rattle.std.specs.Prelude.{◌≡◌, ◌⊎◌, IsErrOf, OnErr, OnOk};
ghost use Rattle.outside.specs.Files.{without_file};
ghost use Rattle.outside.specs.Seen.{seen};
ghost use Rattle.segment_file.specs.Names.{file_of};
ghost use Rattle.table_store.specs.Calls.{OnlyRemoves};
ghost use Rattle.table_store.specs.Segments.{HasSegment, LacksSegment};

use crate::{StoreFault, holds_segment};
use outside::{Depot, DepotFault};
use segment_file::segment_file_name;
use std::alloc::Global;

/// Drops the segment of this name: its file is taken away, and none is opened. A file that is gone
/// by then counts as taken away.
pub fn drop_segment<D: Depot>(alloc: Global, depot: &mut D, name: &str) -> Result<(), StoreFault>
    ensures dropped { OnOk result (D.held depot.new
        ≡ without_file (file_of name.now) (D.held depot.old)) }
    ensures was_there { OnOk result (HasSegment (D.held depot.old) name.now) }
    ensures kept { OnErr result (D.held depot.new ≡ D.held depot.old) }
    ensures missing { IsErrOf result StoreFault.NoSegment →
        LacksSegment (D.held depot.old) name.now }
    ensures only { OnErr result
        (IsErrOf result StoreFault.NoSegment ⊎ IsErrOf result StoreFault.ReadFault
        ⊎ IsErrOf result StoreFault.WriteFault ⊎ IsErrOf result StoreFault.NoMemory) }
    ensures only_removes { OnlyRemoves (IsErrOf result StoreFault.ReadFault)
        (IsErrOf result StoreFault.WriteFault) (seen D.Shelf depot.old) (seen D.Shelf depot.new) }
{
    match holds_segment(alloc, depot, name) {
        Ok(true) => {}
        Ok(false) => return Err(StoreFault::NoSegment),
        Err(fault) => return Err(fault),
    }
    let file = segment_file_name(alloc, name)?;
    match depot.remove(alloc, file.as_str()) {
        Ok(()) => Ok(()),
        Err(DepotFault::Missing) => Ok(()),
        Err(DepotFault::Failed) => Err(StoreFault::WriteFault),
        Err(DepotFault::NoMemory) => Err(StoreFault::NoMemory),
    }
}
