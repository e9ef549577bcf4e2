//! Reading some bytes of a file.
ghost use Rattle.std.specs.Prelude.{◌≡◌, ◌≤◌, ◌<◌, ◌+◌, ◌^◌, IfOk, IfSome, OnErr, IsErrOf, length, vec_len};
ghost use Rattle.outside.specs.Files.{EndsBefore, Has, Lacks, bytes_at};
ghost use Rattle.outside.specs.Reads.{Fills, LogsFilled, LogsUpTo};
ghost use Rattle.outside.specs.Seen.{OnlyReads, seen};

use crate::{Bytes, NoMemory, Seq, Shelf, ShelfFault};
use std::alloc::Global;

/// The bytes of a file from an offset on: so many, or fewer where the file ends before. It takes
/// memory for so many once, and reads until they are there or a read gives nothing. No bytes of a
/// file that is missing are there, and nothing is read for them.
pub fn read_bytes<S: Shelf>(
    alloc: Global,
    shelf: &mut S,
    name: &str,
    offset: u64,
    count: u64,
) -> Result<Bytes, ShelfFault>
    requires { offset + count < 2 ^ 64 }
    ensures bytes { IfOk result (λ bytes. IfSome (S.held shelf.old) (λ files.
        bytes ≡ bytes_at files name.now offset count)) }
    ensures bound { IfOk result (λ bytes. length bytes ≤ count) }
    ensures present { IfOk result (λ _. 0 < count → Has (S.held shelf.old) name.now) }
    ensures only_reads { OnlyReads (IsErrOf result ShelfFault.Failed)
        (seen S.Shelf shelf.old) (seen S.Shelf shelf.new) }
    // The file ends where a read gives nothing, and nowhere else.
    ensures log { IfOk result (λ bytes. LogsFilled name.now offset (offset + length bytes)
        (offset + count) (S.log shelf.old) (S.log shelf.new)) }
    ensures log_of_fault { OnErr result
        (LogsUpTo name.now offset (offset + count) (S.log shelf.old) (S.log shelf.new)) }
    ensures missing { IsErrOf result ShelfFault.Missing → Lacks (S.held shelf.old) name.now }
{
    let mut bytes = zeros(alloc, count as usize)?;
    let read = read_into(alloc, shelf, name, offset, &mut bytes)?;
    bytes.truncate(read);
    Ok(Seq::from_vec(bytes))
}

// So many zero bytes.
fn zeros(alloc: Global, size: usize) -> Result<Vec<u8>, NoMemory>
    ensures { IfOk result (λ bytes. vec_len bytes ≡ size) }
{
    vec![in alloc; 0u8; size]
}

/// Reads the bytes of a file from an offset on into `into`, as many as fit or until the file ends,
/// and says how many.
pub fn read_into<S: Shelf>(
    alloc: Global,
    shelf: &mut S,
    name: &str,
    offset: u64,
    into: &mut [u8],
) -> Result<usize, ShelfFault>
    requires { offset + length into.old < 2 ^ 64 }
    ensures front { IfOk result (λ n. Fills (S.held shelf.old) name.now offset n into.new) }
    ensures bound { IfOk result (λ n. n ≤ length into.old) }
    ensures present { IfOk result (λ _. 0 < length into.old → Has (S.held shelf.old) name.now) }
    ensures only_reads { OnlyReads (IsErrOf result ShelfFault.Failed)
        (seen S.Shelf shelf.old) (seen S.Shelf shelf.new) }
    ensures log { IfOk result (λ n. LogsFilled name.now offset (offset + n)
        (offset + length into.old) (S.log shelf.old) (S.log shelf.new)) }
    ensures log_of_fault { OnErr result
        (LogsUpTo name.now offset (offset + length into.old) (S.log shelf.old) (S.log shelf.new)) }
    ensures missing { IsErrOf result ShelfFault.Missing → Lacks (S.held shelf.old) name.now }
{
    let mut done = 0;
    'pieces: while done < into.len() {
        let n = shelf.read_at(alloc, name, offset + done as u64, &mut into[done..])?;
        if n == 0 {
            return Ok(done);
        }
        done += n;
    }
    Ok(done)
}

/// What comes of bytes past the greatest offset: no file has them, if the shelf says how long it
/// is.
pub fn past_all<S: Shelf>(alloc: Global, shelf: &mut S, name: &str) -> ShelfFault
    ensures only_reads { OnlyReads (result ≡ ShelfFault.Failed)
        (seen S.Shelf shelf.old) (seen S.Shelf shelf.new) }
    ensures log { S.log shelf.new ≡ S.log shelf.old }
    ensures short { result ≡ ShelfFault.Missing → EndsBefore (S.held shelf.old) name.now (2 ^ 64) }
{
    match shelf.length(alloc, name) {
        Ok(_) => ShelfFault::Missing,
        Err(fault) => fault,
    }
}
