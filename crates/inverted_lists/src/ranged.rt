//! The section of a range index is written.
ghost use Rattle.std.specs.Prelude.{◌≡◌, ◌≤◌, ◌<◌, ◌++◌, All, length, OnOk, OnErr};
ghost use Rattle.bit_column.specs.Postings.{ranged};

use crate::keys::{BUCKET, ByBucket};
use crate::postings::write_postings;
use outside::NoMemory;

/// Appends, for each bucket of ids below the count, where its places begin, and then the places of
/// each bucket.
pub fn write_ranged(ids: &[u32], count: u32, out: &mut Vec<u8>) -> Result<(), NoMemory>
    requires at_most { length ids.now ≤ 1048576 }
    requires below { All (λ id. id < count) ids.now }
    ensures ok { OnOk result (out.new.items ≡ out.old.items ++ ranged count ids.now) }
    ensures err { OnErr result (out.new.items ≡ out.old.items) }
{
    write_postings::<ByBucket>(ids, count.div_ceil(BUCKET), out)
}
