//! Whoever takes the bytes of a segment's file, a piece after the other.
ghost use Rattle.std.specs.Prelude.{◌≡◌, ◌≤◌, ◌++◌, ℕ, List, Result, Ok, Err, length};
ghost use Rattle.outside.specs.Seen.{Seen, seen};

use outside::Shelf;
use std::alloc::Global;

/// The most bytes that are handed on at once.
pub const PIECE: usize = 65_536;

/// Takes the bytes of a file at a device: it writes them there, or compares them with what is
/// there. Bytes that are taken after others are taken with them, and where one piece fails, so do
/// all bytes that begin with those up to it.
pub trait Taker<S: Shelf> {
    /// Why a piece is not taken.
    type Fault: Drop;

    /// Bytes were taken, or not all of them: the outcome, and the taker and the device before and
    /// after.
    ghost takes: { List ℕ → Result (Unit {0}) Self.Fault → Self → Seen → Self → Seen → Type 0 };

    /// Takes the next piece.
    fn take(&mut self, alloc: Global, shelf: &mut S, piece: &[u8]) -> Result<(), Self::Fault>
        requires { length piece.now ≤ 65536 }
        ensures { takes piece.now result self.old (seen S.Shelf shelf.old)
            self.new (seen S.Shelf shelf.new) };

    ghost no_memory: { Self.Fault };

    /// Why a piece is not taken that was not made, for want of memory.
    fn no_memory() -> Self::Fault
        ensures { result ≡ no_memory };

    ghost declines: { (a : List ℕ) (x : Self) (s : Seen) → takes a (Err no_memory) x s x s };

    ghost joins: { (a b : List ℕ) (r : Result (Unit {0}) Self.Fault) (x y z : Self) (s t u : Seen)
        → takes a (Ok tt) x s y t → takes b r y t z u → takes (a ++ b) r x s z u };

    ghost stops: { (a b : List ℕ) (fault : Self.Fault) (x y : Self) (s t : Seen)
        → takes a (Err fault) x s y t → takes (a ++ b) (Err fault) x s y t };
}

/// Gives bytes to a taker, in pieces.
pub(crate) fn give_bytes<S: Shelf, T: Taker<S>>(
    alloc: Global,
    taker: &mut T,
    shelf: &mut S,
    bytes: &[u8],
) -> Result<(), T::Fault>
    ensures { T.takes bytes.now result taker.old (seen S.Shelf shelf.old)
        taker.new (seen S.Shelf shelf.new) }
{
    let mut left = bytes;
    'pieces: while left.len() > PIECE {
        let (piece, rest) = left.split_at(PIECE);
        if let Err(fault) = taker.take(alloc, shelf, piece) {
            return Err(fault);
        }
        left = rest;
    }
    taker.take(alloc, shelf, left)
}
