//! The leaf size of a star-tree.

ghost use Rattle.std.specs.Prelude.{◌≡◌};
ghost use Rattle.serde_json.specs.View.{view};
ghost use Rattle.json_keys.specs.Leaf as spec;
ghost use Rattle.json_keys.specs.Faults.{Gives};

use crate::{KeyKind, TextFault, key_fault, key_of};
use serde_json::Value as Json;
use std::alloc::Global;

/// The largest leaf size.
const MOST_LEAF_RECORDS: u64 = 2147483647;

/// The leaf size where none is given.
const USUAL_LEAF_RECORDS: u32 = 10000;

const LEAF_KEY: &str = "maxLeafRecords";

/// The leaf size; 0 means the usual one.
pub fn read_leaf(alloc: Global, base: &str, json: &Json) -> Result<u32, TextFault>
    ensures { Gives (spec.leaf_finding base.now (view json.now))
        (spec.leaf_of (view json.now)) result }
{
    let Some(value) = key_of(json, LEAF_KEY) else {
        return Ok(USUAL_LEAF_RECORDS);
    };
    match value.as_u64() {
        Some(0) => Ok(USUAL_LEAF_RECORDS),
        Some(count) if count <= MOST_LEAF_RECORDS => Ok(count as u32),
        _ => Err(key_fault(alloc, KeyKind::WrongKind, base, LEAF_KEY)),
    }
}
