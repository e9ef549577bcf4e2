//! Numbers of 32 bits are read from a section.
ghost use Rattle.std.specs.Prelude.{◌≡◌, ◌≤◌, ◌<◌, ◌+◌, ◌-◌, ◌*◌, ◌^◌, ◌↔◌, ℕ, List, All, IfOk, IfSome, length, take, drop};
ghost use Rattle.outside.specs.Reads.{LogsOn, LogsUpTo};
ghost use Rattle.outside.specs.Seen.{seen};
ghost use Rattle.bit_column.specs.Column.{spelled};
ghost use Rattle.bit_column.specs.Sections.{section};
ghost use Rattle.index_reader.specs.Reading.{ReadsSection};

use crate::ListFault;
use bit_column::{ColumnFault, read_range};
use outside::{Place, Seq, Shelf};
use std::alloc::Global;

/// The numbers of a section between two indexes, each of them below a limit, in one read.
pub fn read_words<S: Shelf>(
    alloc: Global,
    shelf: &mut S,
    place: &Place,
    limit: u32,
    from: u32,
    to: u32,
) -> Result<Seq<u32>, ListFault>
    requires { from ≤ to }
    ensures words { IfOk result (λ words. IfSome (S.held shelf.old) (λ files. (list : List ℕ) →
        All (λ n. n < 2 ^ 32) list → to ≤ length list →
        section files place.now ≡ spelled 32 list → words ≡ take (to - from) (drop from list))) }
    ensures number { IfOk result (λ words. length words ≡ to - from) }
    ensures below { IfOk result (λ words. All (λ n. n < limit) words) }
    ensures reads { ReadsSection result
        (LogsOn place.now.file (place.now.offset + 4 * from) (place.now.offset + 4 * to))
        (LogsUpTo place.now.file (place.now.offset + 4 * from) (place.now.offset + 4 * to))
        (λ files. (list : List ℕ) → All (λ n. n < 2 ^ 32) list →
        All (λ n. n < limit) (take (to - from) (drop from list)) →
        to ≤ length list → section files place.now ≡ spelled 32 list → ⊥)
        (seen S.Shelf shelf.old) (seen S.Shelf shelf.new) }
{
    match read_range(alloc, shelf, place, 32, limit, from, to) {
        Ok(words) => Ok(words),
        Err(fault) => Err(of_column(fault)),
    }
}

// What a fault of a column is for lists.
fn of_column(fault: ColumnFault) -> ListFault
    ensures failed { result ≡ ListFault.ReadFault ↔ (fault ≡ ColumnFault.ReadFault) }
    ensures bad { result ≡ ListFault.BadList ↔ (fault ≡ ColumnFault.BadId) }
{
    match fault {
        ColumnFault::ReadFault => ListFault::ReadFault,
        ColumnFault::BadId => ListFault::BadList,
        ColumnFault::NoMemory => ListFault::NoMemory,
    }
}
