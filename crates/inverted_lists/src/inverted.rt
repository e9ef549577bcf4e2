//! The section of an inverted index is written, and places are put in the order of their ids.
ghost use Rattle.std.specs.Prelude.{◌≡◌, ◌≤◌, ◌<◌, ◌++◌, All, length, OnOk, OnErr, IfOk};
ghost use Rattle.bit_column.specs.Postings.{entries, inverted};

use crate::keys::ById;
use crate::postings::{places_by_key, write_postings};
use outside::NoMemory;
use std::alloc::Global;

/// Appends, for each id below the count, where its places begin, and then the places of each id.
pub fn write_inverted(ids: &[u32], count: u32, out: &mut Vec<u8>) -> Result<(), NoMemory>
    requires at_most { length ids.now ≤ 1048576 }
    requires below { All (λ id. id < count) ids.now }
    ensures ok { OnOk result (out.new.items ≡ out.old.items ++ inverted count ids.now) }
    ensures err { OnErr result (out.new.items ≡ out.old.items) }
{
    write_postings::<ById>(ids, count, out)
}

/// The places of the ids, id by id: those of a lesser id come first, and those of one id ascend.
pub fn places_by_id(alloc: Global, ids: &[u32], count: u32) -> Result<Vec<u32>, NoMemory>
    requires at_most { length ids.now ≤ 1048576 }
    requires below { All (λ id. id < count) ids.now }
    ensures { IfOk result (λ places. places.items ≡ entries count ids.now) }
{
    places_by_key::<ById>(alloc, ids, count)
}
