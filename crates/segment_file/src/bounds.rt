//! The bounds of columns: the least and the greatest value of each.
ghost use Rattle.std.specs.Prelude.{◌≡◌, ◌<◌, ◌++◌, OnOk};
ghost use Rattle.dictionary.specs.Spelling.{number_bytes};
ghost use Rattle.segment_file.specs.Bounds.{IsShort, bound_bytes, bounds_bytes, ends_of};

use crate::NoMemory;
use crate::numbers::push_two;
use dictionary::Dictionary;
use std::alloc::Global;
use values::Value;

/// The least and the greatest value of a column.
#[derive(Debug, Drop)]
pub struct Ends {
    pub least: Value,
    pub greatest: Value,
}

/// Appends the least and the greatest value of one column, if it has values.
pub fn push_ends(alloc: Global, dictionary: &Dictionary, out: &mut Vec<u8>) -> Result<(), NoMemory>
    ensures { OnOk result
        (out.new.items ≡ out.old.items ++ bounds_bytes (ends_of dictionary.now.values)) }
{
    let count = dictionary.count();
    if count == 0 {
        return Ok(());
    }
    let least = dictionary.value_at(alloc, 0)?;
    push_bound(&least, out)?;
    let greatest = dictionary.value_at(alloc, count - 1)?;
    push_bound(&greatest, out)
}

#[tactic(auto, unfolding(dictionary::specs::Spelling::number_bytes))]
fn push_bound(value: &Value, out: &mut Vec<u8>) -> Result<(), NoMemory>
    requires { IsShort value.now }
    ensures { OnOk result (out.new.items ≡ out.old.items ++ bound_bytes value.now) }
{
    match value {
        Value::Whole(number) => out.extend_from_slice(&number.to_be_bytes()),
        Value::Text(text) => {
            push_two(text.len() as u16, out)?;
            out.extend_from_slice(text.as_slice())
        }
    }
}
