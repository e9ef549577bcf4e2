//! The buckets of a range index that overlap bounds, and where their entries are.
ghost use Rattle.std.specs.Prelude.{◌≡◌, ◌≤◌, ◌<◌, ◌+◌, ◌-◌, ◌*◌, ◌&&◌, nat_le, ℕ, List, IfOk, IfSome, length};
ghost use Rattle.outside.specs.Reads.{LogsOn, LogsUpTo};
ghost use Rattle.outside.specs.Seen.{seen};
ghost use Rattle.bit_column.specs.Postings.{buckets_for};
ghost use Rattle.bit_column.specs.Sections.{section};
ghost use Rattle.index_reader.specs.Buckets.{IsOverlap, in_place, parts_in, parts_of};
ghost use Rattle.index_reader.specs.Entries.{Rising, TellsPostings};
ghost use Rattle.index_reader.specs.Reading.{NoneTells, ReadsSection};

use crate::ListFault;
use crate::ends::Ends;
use crate::id_bounds::IdBounds;
use crate::list_size::ListSize;
use crate::word_reading::read_words;
use outside::{Place, Shelf};
use std::alloc::Global;

// So many ids are one bucket.
const BUCKET: u32 = 16;

/// The buckets that overlap bounds, from `first` up to `end`. Those from `sure_from` up to
/// `sure_to` lie within the bounds.
#[derive(Clone, Copy)]
pub struct Overlap {
    pub first: u32,
    pub sure_from: u32,
    pub sure_to: u32,
    pub end: u32,
}

/// Where the entries of such buckets begin and end: of those before the ones within the bounds, of
/// those within, and of those after them.
#[derive(Clone, Copy)]
pub struct BucketParts {
    pub before: Ends,
    pub sure: Ends,
    pub after: Ends,
}

/// How many buckets the ids have.
pub fn buckets_of(bounds: IdBounds) -> u32
    ensures { result ≡ buckets_for bounds.count }
{
    (bounds.count + (BUCKET - 1)) / BUCKET
}

/// The buckets that overlap bounds. The last bucket may have fewer ids than the others.
pub fn overlap_of(bounds: IdBounds) -> Overlap
    ensures { IsOverlap bounds.count bounds.low bounds.high result }
{
    let end = bounds.high / BUCKET + 1;
    let sure_from = (bounds.low + (BUCKET - 1)) / BUCKET;
    let whole = if bounds.high + 1 == bounds.count {
        end
    } else {
        (bounds.high + 1) / BUCKET
    };
    Overlap {
        first: bounds.low / BUCKET,
        sure_from,
        sure_to: whole.max(sure_from),
        end,
    }
}

/// Where the entries of buckets begin and end. The offsets of the buckets are read, in one read,
/// and nothing else.
pub fn read_bucket_parts<S: Shelf>(
    alloc: Global,
    shelf: &mut S,
    place: &Place,
    size: ListSize,
    overlap: Overlap,
) -> Result<BucketParts, ListFault>
    requires before { overlap.first ≤ overlap.sure_from }
    requires sure { overlap.sure_from ≤ overlap.sure_to }
    requires after { overlap.sure_to ≤ overlap.end }
    requires within { overlap.end ≤ size.count }
    ensures parts { IfOk result (λ parts. IfSome (S.held shelf.old) (λ files. (keys : List ℕ) →
        TellsPostings size.count size.rows (section files place.now) keys →
        parts ≡ parts_of keys overlap)) }
    ensures rising { IfOk result (λ parts. Rising 0 size.rows (in_place parts)) }
    ensures joined { IfOk result (λ parts. (parts.before.last ≡ parts.sure.first)
        × (parts.sure.last ≡ parts.after.first)) }
    ensures reads { ReadsSection result
        (LogsOn place.now.file (place.now.offset + 4 * overlap.first)
        (place.now.offset + 4 * (overlap.end + 1)))
        (LogsUpTo place.now.file (place.now.offset + 4 * overlap.first)
        (place.now.offset + 4 * (overlap.end + 1)))
        (NoneTells (TellsPostings size.count size.rows) place.now)
        (seen S.Shelf shelf.old) (seen S.Shelf shelf.new) }
{
    let offsets = match read_words(
        alloc,
        shelf,
        place,
        size.rows + 1,
        overlap.first,
        overlap.end + 1,
    ) {
        Ok(offsets) => offsets,
        Err(fault) => return Err(fault),
    };
    let parts = parts_at(offsets.as_slice(), overlap);
    if !is_rising(&parts) {
        return Err(ListFault::BadList);
    }
    Ok(parts)
}

// The parts between the offsets of buckets.
fn parts_at(offsets: &[u32], overlap: Overlap) -> BucketParts
    requires before { overlap.first ≤ overlap.sure_from }
    requires sure { overlap.sure_from ≤ overlap.sure_to }
    requires after { overlap.sure_to ≤ overlap.end }
    requires lengths { overlap.end - overlap.first < length offsets.now }
    ensures { result ≡ parts_in offsets.now overlap }
{
    let from = offsets[0];
    let sure = offsets[(overlap.sure_from - overlap.first) as usize];
    let after = offsets[(overlap.sure_to - overlap.first) as usize];
    let end = offsets[(overlap.end - overlap.first) as usize];
    BucketParts {
        before: Ends {
            first: from,
            last: sure,
        },
        sure: Ends {
            first: sure,
            last: after,
        },
        after: Ends {
            first: after,
            last: end,
        },
    }
}

// Whether no part ends before it begins.
fn is_rising(parts: &BucketParts) -> bool
    ensures { result ≡ nat_le parts.now.before.first parts.now.before.last
        && nat_le parts.now.sure.first parts.now.sure.last
        && nat_le parts.now.after.first parts.now.after.last }
{
    parts.before.first <= parts.before.last
        && parts.sure.first <= parts.sure.last
        && parts.after.first <= parts.after.last
}
