//! Bytes are compared with those of a file.
ghost use Rattle.std.specs.Prelude.{◌≡◌, ◌≤◌, ◌<◌, ◌+◌, ◌^◌, IfOk, IfSome, IsErrOf, Some, length, take, drop, vec_len};
ghost use Rattle.outside.specs.Files.{bytes_of};
ghost use Rattle.outside.specs.Reads.{Fills};
ghost use Rattle.outside.specs.Seen.{OnlyReads, seen};
ghost use Rattle.segment_build.specs.Compared.{IsCommon};
ghost use Rattle.segment_build.specs.FileReads.{LogsFile, LogsOnce};

use crate::{CompareFault, PIECE, Taker};
use outside::{Name, NoMemory, Shelf, ShelfFault, read_into};
use std::alloc::Global;
use std::marker::Model;

/// Compares the bytes that it takes with those of a file, from its start on. The file is read in
/// the pieces that are taken.
#[derive(Drop)]
pub struct Comparing {
    file: Name,
    at: u64,
    buffer: Vec<u8>,
}

impl Model for Comparing {
    ghost use Rattle.std.specs.Prelude.{◌≡◌, vec_len};
    ghost use Rattle.segment_build.specs.Compared.{Compared};

    ghost Value = { Compared };

    ghost view = { λ c. record { file = c.file; at = c.at } };

    ghost invariant = { λ c. vec_len c.buffer ≡ 65536 };
}

impl Comparing {
    /// Compares from the start of a file on.
    pub fn with_file(alloc: Global, file: &str) -> Result<Self, NoMemory>
        ensures { IfOk result (λ c. c ≡ record { file = file.now; at = 0 }) }
    {
        Ok(Comparing {
            file: Name::from_text(alloc, file)?,
            at: 0,
            buffer: room(alloc, PIECE)?,
        })
    }

    /// The place up to which the file was found the same.
    pub fn at(&self) -> u64
        ensures { result ≡ self.now.at }
    {
        self.at
    }
}

impl<S: Shelf> Taker<S> for Comparing {
    ghost use Rattle.segment_build.specs.Compared.{Compares};
    ghost use Rattle.segment_build.specs.declared.fault.CompareFault.TheVariants as faults;
    ghost use Rattle.segment_build.specs.ComparedLaws.{compares_declined, compares_joined, compares_stopped};

    type Fault = CompareFault;

    ghost takes = { λ bytes result x before y after. Compares bytes result x before y after };

    fn take(&mut self, alloc: Global, shelf: &mut S, piece: &[u8]) -> Result<(), CompareFault> {
        if piece.len() as u64 > u64::MAX - self.at {
            return Err(CompareFault::Differs);
        }
        let file = self.file.as_str();
        let same = match common_front(alloc, shelf, file, self.at, &mut self.buffer, piece) {
            Ok(same) => same,
            Err(fault) => return Err(fault),
        };
        self.at += same as u64;
        if same < piece.len() {
            return Err(CompareFault::Differs);
        }
        Ok(())
    }

    ghost no_memory = { faults.NoMemory };

    fn no_memory() -> CompareFault {
        CompareFault::NoMemory
    }

    ghost declines = { λ a x s. compares_declined a x s };

    ghost joins = { λ a b r x y z s t u. compares_joined a b r x y z s t u };

    ghost stops = { λ a b fault x y s t. compares_stopped a b fault x y s t };
}

// How many of these bytes, from the first on, a file has from a place on. They are read to the
// front of a buffer that has room for them.
fn common_front<S: Shelf>(
    alloc: Global,
    shelf: &mut S,
    file: &str,
    at: u64,
    buffer: &mut [u8],
    piece: &[u8],
) -> Result<usize, CompareFault>
    requires fits { at + length piece.now < 2 ^ 64 }
    requires room { length piece.now ≤ length buffer.old }
    ensures common { IfOk result (λ n. IfSome (S.held shelf.old) (λ files.
        IsCommon piece.now (drop at (bytes_of (Some files) file.now)) n)) }
    ensures at_most { IfOk result (λ n. n ≤ length piece.now) }
    ensures only_reads { OnlyReads (IsErrOf result CompareFault.Failed)
        (seen S.Shelf shelf.old) (seen S.Shelf shelf.new) }
    ensures log { LogsFile file.now (S.log shelf.old) (S.log shelf.new) }
    ensures once { LogsOnce file.now at (at + length piece.now)
        (S.log shelf.old) (S.log shelf.new) }
    ensures never { ¬ IsErrOf result CompareFault.Differs }
{
    let into = &mut buffer[..piece.len()];
    match read_there(alloc, shelf, file, at, into) {
        Ok(count) => Ok(same_front(piece, &into[..count])),
        Err(fault) => Err(fault),
    }
}

// Reads the bytes of a file from a place on, as many as there are and fit; a file that is missing
// has none.
fn read_there<S: Shelf>(
    alloc: Global,
    shelf: &mut S,
    file: &str,
    at: u64,
    into: &mut [u8],
) -> Result<usize, CompareFault>
    requires { at + length into.old < 2 ^ 64 }
    ensures front { IfOk result (λ n. Fills (S.held shelf.old) file.now at n into.new) }
    ensures bound { IfOk result (λ n. n ≤ length into.old) }
    ensures only_reads { OnlyReads (IsErrOf result CompareFault.Failed)
        (seen S.Shelf shelf.old) (seen S.Shelf shelf.new) }
    ensures log { LogsFile file.now (S.log shelf.old) (S.log shelf.new) }
    ensures once { LogsOnce file.now at (at + length into.old)
        (S.log shelf.old) (S.log shelf.new) }
    ensures never { ¬ IsErrOf result CompareFault.Differs }
{
    match read_into(alloc, shelf, file, at, into) {
        Ok(count) => Ok(count),
        Err(ShelfFault::Missing) => Ok(0),
        Err(ShelfFault::Failed) => Err(CompareFault::Failed),
        Err(ShelfFault::NoMemory) => Err(CompareFault::NoMemory),
    }
}

// How many bytes the two have in common, from the first on.
fn same_front(a: &[u8], b: &[u8]) -> usize
    ensures { IsCommon a.now b.now result }
{
    if a == b {
        return a.len();
    }
    let mut count = 0;
    'same: while count < a.len() && count < b.len() {
        if a[count] != b[count] {
            return count;
        }
        count += 1;
    }
    count
}

// So many zero bytes.
fn room(alloc: Global, size: usize) -> Result<Vec<u8>, NoMemory>
    ensures { IfOk result (λ bytes. vec_len bytes ≡ size) }
{
    vec![in alloc; 0u8; size]
}
