//! A part of a file is read.
ghost use Rattle.std.specs.Prelude.{◌≡◌, ◌<◌, ◌+◌, ◌-◌, IfOk, OnErr, IsErrOf, length};
ghost use Rattle.outside.specs.Files.{EndsBefore};
ghost use Rattle.outside.specs.Reads.{LogsOn, LogsUpTo};
ghost use Rattle.outside.specs.Seen.{OnlyReads, seen};
ghost use Rattle.star_file.specs.Reading.{IsPart};

use crate::docs_fault::DocsFault;
use outside::{Bytes, Shelf, past_all, read_bytes};
use std::alloc::Global;

/// The bytes of a file between two places after an offset. A file that is not there has no bytes.
pub(crate) fn read_part<S: Shelf>(
    alloc: Global,
    shelf: &mut S,
    name: &str,
    offset: u64,
    from: u64,
    to: u64,
) -> Result<Bytes, DocsFault>
    requires { from < to }
    ensures part { IfOk result
        (IsPart (S.held shelf.old) name.now (offset + from) (offset + to)) }
    ensures size { IfOk result (λ bytes. length bytes ≡ to - from) }
    ensures only_reads { OnlyReads (IsErrOf result DocsFault.ReadFault)
        (seen S.Shelf shelf.old) (seen S.Shelf shelf.new) }
    ensures log { IfOk result (λ bytes.
        LogsOn name.now (offset + from) (offset + to) (S.log shelf.old) (S.log shelf.new)) }
    ensures log_of_fault { OnErr result
        (LogsUpTo name.now (offset + from) (offset + to) (S.log shelf.old) (S.log shelf.new)) }
    ensures short { IsErrOf result DocsFault.BadDocs →
        EndsBefore (S.held shelf.old) name.now (offset + to) }
{
    if to > u64::MAX - offset {
        return Err(DocsFault::from(past_all(alloc, shelf, name)));
    }
    let bytes = match read_bytes(alloc, shelf, name, offset + from, to - from) {
        Ok(bytes) => bytes,
        Err(fault) => return Err(DocsFault::from(fault)),
    };
    if (bytes.len() as u64) < to - from {
        return Err(DocsFault::BadDocs);
    }
    Ok(bytes)
}
