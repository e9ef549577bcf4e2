//! The first and the last of some numbers of a section.
ghost use Rattle.std.specs.Prelude.{◌≡◌, ◌≤◌, ◌<◌, ◌+◌, ◌-◌, ◌*◌, ◌^◌, ℕ, List, All, IfOk, IfSome, length, get_or};
ghost use Rattle.outside.specs.Reads.{LogsOn, LogsUpTo};
ghost use Rattle.outside.specs.Seen.{seen};
ghost use Rattle.bit_column.specs.Column.{spelled};
ghost use Rattle.bit_column.specs.Sections.{section};
ghost use Rattle.index_reader.specs.Reading.{ReadsSection};

use crate::ListFault;
use crate::word_reading::read_words;
use outside::{Place, Shelf};
use std::alloc::Global;

/// The first and the last of some numbers.
#[derive(Clone, Copy)]
pub struct Ends {
    pub first: u32,
    pub last: u32,
}

/// The first and the last of the numbers of a section between two indexes, which are read in one
/// read; both are below a limit.
pub fn read_ends<S: Shelf>(
    alloc: Global,
    shelf: &mut S,
    place: &Place,
    limit: u32,
    from: u32,
    to: u32,
) -> Result<Ends, ListFault>
    requires { from < to }
    ensures ends { IfOk result (λ ends. IfSome (S.held shelf.old) (λ files. (list : List ℕ) →
        All (λ n. n < 2 ^ 32) list → to ≤ length list →
        section files place.now ≡ spelled 32 list →
        (ends.first ≡ get_or list from 0) × (ends.last ≡ get_or list (to - 1) 0))) }
    ensures below { IfOk result (λ ends. (ends.first < limit) × (ends.last < limit)) }
    ensures reads { ReadsSection result
        (LogsOn place.now.file (place.now.offset + 4 * from) (place.now.offset + 4 * to))
        (LogsUpTo place.now.file (place.now.offset + 4 * from) (place.now.offset + 4 * to))
        (λ files. (list : List ℕ) → All (λ n. n < 2 ^ 32) list → All (λ n. n < limit) list →
        to ≤ length list → section files place.now ≡ spelled 32 list → ⊥)
        (seen S.Shelf shelf.old) (seen S.Shelf shelf.new) }
{
    let words = match read_words(alloc, shelf, place, limit, from, to) {
        Ok(words) => words,
        Err(fault) => return Err(fault),
    };
    let words = words.as_slice();
    Ok(Ends {
        first: words[0],
        last: words[words.len() - 1],
    })
}
