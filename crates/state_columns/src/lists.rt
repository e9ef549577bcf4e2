//! Lists that have room for what is added to them, and their tails.

ghost use Rattle.std.specs.Prelude.{◌≡◌, ◌+◌, ◌≤◌, [], ◌∷◌, ◌++◌, length, take, drop, IfOk};
ghost use Rattle.std.specs.Prelude.{vec_capacity};

use agg_laws::NoMemory;
use std::alloc::Global;

/// Adds items, for which there is room.
pub fn put_all<T: Copy>(out: &mut Vec<T>, items: &[T])
    requires room { length out.old.items + length items.now ≤ vec_capacity out.old }
    ensures items { out.new.items ≡ out.old.items ++ items.now }
    ensures capacity { vec_capacity out.old ≤ vec_capacity out.new }
{
    for i in 0..items.len() {
        put(out, items[i]);
    }
}

/// Adds an item, for which there is room.
#[inline(always)]
pub(crate) fn put<T: Copy>(out: &mut Vec<T>, item: T)
    requires room { length out.old.items + 1 ≤ vec_capacity out.old }
    ensures items { out.new.items ≡ out.old.items ++ item ∷ [] }
    ensures capacity { vec_capacity out.old ≤ vec_capacity out.new }
{
    if let Err(_) = out.push(item) {
        unreachable!();
    }
}

/// Adds a copy of items that are there already, and for which there is room.
pub fn put_again<T: Copy>(out: &mut Vec<T>, from: usize, count: usize)
    requires there { from + count ≤ length out.old.items }
    requires room { length out.old.items + count ≤ vec_capacity out.old }
    ensures items { out.new.items ≡ out.old.items ++ take count (drop from out.old.items) }
    ensures capacity { vec_capacity out.old ≤ vec_capacity out.new }
{
    for i in 0..count {
        let item = out[from + i];
        put(out, item);
    }
}

/// The items from one on, as a list of their own.
pub fn tail_of<T: Copy>(alloc: Global, items: &[T], from: usize) -> Result<Vec<T>, NoMemory>
    requires { from ≤ length items.now }
    ensures { IfOk result (λ tail. tail.items ≡ drop from items.now) }
{
    Vec::from_slice(alloc, &items[from..])
}
