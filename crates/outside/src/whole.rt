//! Reading whole files.
ghost use Rattle.std.specs.Prelude.{◌≡◌, ◌≤◌, ℕ, IfOk, IfSome, OnErr, IsErrOf, length};
ghost use Rattle.outside.specs.Files.{Has, Lacks};
ghost use Rattle.outside.specs.Reads.{LogsOn, LogsThrough};
ghost use Rattle.outside.specs.Seen.{OnlyReads, seen};
ghost use Rattle.outside.specs.Whole.{IsWhole, IsTooLong, LogsEnd, LogsFront};

use crate::{Bytes, Shelf, ShelfFault, read_bytes};
use std::alloc::Global;

/// Why a whole file is not read.
#[derive(Clone, Copy, Debug, PartialEq, Eq)]
pub enum ReadAllFault {
    /// There is no file of the name.
    Missing,
    /// The shelf failed, and its count of faults rose.
    Failed,
    /// The file is longer than the limit.
    TooLong,
    NoMemory,
}

impl From<ShelfFault> for ReadAllFault {
    ghost use Rattle.outside.specs.Whole.{IsWholeFault};

    ghost from_gives = { IsWholeFault };

    fn from(fault: ShelfFault) -> Self {
        match fault {
            ShelfFault::Missing => ReadAllFault::Missing,
            ShelfFault::Failed => ReadAllFault::Failed,
            ShelfFault::NoMemory => ReadAllFault::NoMemory,
        }
    }
}

/// The whole of a file that is not longer than the limit. It asks for the length first, takes
/// memory for so many bytes once, and reads until they are there or the file ends: a file that ends
/// before its told length is taken as ended there.
pub fn read_all<S: Shelf>(
    alloc: Global,
    shelf: &mut S,
    name: &str,
    limit: u64,
) -> Result<Bytes, ReadAllFault>
    ensures whole { IfOk result (IsWhole (S.held shelf.old) name.now limit) }
    ensures bound { IfOk result (λ bytes. length bytes ≤ limit) }
    ensures only_reads { OnlyReads (IsErrOf result ReadAllFault.Failed)
        (seen S.Shelf shelf.old) (seen S.Shelf shelf.new) }
    ensures log { IfOk result (λ bytes.
        LogsThrough name.now 0 (length bytes) (S.log shelf.old) (S.log shelf.new)) }
    // A file ends where a read gives nothing, and nowhere else.
    ensures log_to_end { IfOk result (λ bytes.
        LogsEnd name.now limit (length bytes) (S.log shelf.old) (S.log shelf.new)) }
    // Of a told file each read gives bytes.
    ensures log_of_told { IfOk result (λ bytes. IfSome (S.held shelf.old) (λ _.
        LogsOn name.now 0 (length bytes) (S.log shelf.old) (S.log shelf.new))) }
    ensures log_of_fault { OnErr result
        (LogsFront name.now limit (S.log shelf.old) (S.log shelf.new)) }
    ensures missing { IsErrOf result ReadAllFault.Missing → Lacks (S.held shelf.old) name.now }
    ensures too_long { IsErrOf result ReadAllFault.TooLong →
        IsTooLong (S.held shelf.old) name.now limit }
    ensures present { IsErrOf result ReadAllFault.NoMemory → Has (S.held shelf.old) name.now }
{
    let length = match shelf.length(alloc, name) {
        Ok(length) => length,
        Err(fault) => return Err(ReadAllFault::from(fault)),
    };
    if length > limit {
        return Err(ReadAllFault::TooLong);
    }
    match read_bytes(alloc, shelf, name, 0, length) {
        Ok(bytes) => Ok(bytes),
        Err(fault) => Err(ReadAllFault::from(fault)),
    }
}
