//! The ids of a column in place of its values, where these are only tested.
ghost use Rattle.std.specs.Prelude.{◌≡◌, ◌≤◌, ◌<◌, IfOk, OnErr, OnOk, length, map, pos};
ghost use Rattle.std.specs.List.{range_with_len};
ghost use Rattle.value_ids.specs.Dictionary.{most_values};
ghost use Rattle.segment_head.specs.ColumnIds.{ids_below, with_ids};

use crate::{Head, NoMemory};
use data_types::FieldKind;
use dictionary::Dictionary;
use std::alloc::Global;
use value_ids::IdSet;

/// How many values a column has, and the ids of those that satisfy a test.
#[derive(Drop)]
pub struct Matched {
    pub count: u32,
    pub ids: IdSet,
}

impl Head {
    /// Keeps the ids of a column, so many, in place of its values: nothing is read.
    pub fn keep_ids(&mut self, alloc: Global, column: u16, count: u32) -> Result<(), NoMemory>
        requires column { column < length self.old.dictionaries }
        requires few { count ≤ most_values }
        ensures kept { OnOk result (self.new ≡ with_ids column count self.old) }
        ensures same { OnErr result (self.new ≡ self.old) }
    {
        let ids = dictionary_of_ids(alloc, count)?;
        self.keep(column, ids);
        Ok(())
    }
}

// A dictionary of the numbers below a count.
fn dictionary_of_ids(alloc: Global, count: u32) -> Result<Dictionary, NoMemory>
    requires { count ≤ most_values }
    ensures { IfOk result (λ d. d ≡ ids_below count) }
{
    let mut numbers = vec![in alloc; 0i64; count as usize]?;
    put_ids(&mut numbers);
    Ok(Dictionary::of_numbers(FieldKind::Long, numbers))
}

// Puts at each place its number, many at a time.
fn put_ids(numbers: &mut [i64])
    requires { length numbers.old ≤ most_values }
    ensures { numbers.new ≡ map pos (range_with_len 0 (length numbers.old)) }
{
    for at in 0..numbers.len() {
        numbers[at] = i64::from(at as u32);
    }
}
