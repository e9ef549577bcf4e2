//! The bounds of a test.
ghost use Rattle.std.specs.Prelude.{◌≡◌, ◌++◌, ◌∷◌, [], IfOk, OnOk};
ghost use Rattle.dictionary_reading.specs.Bounds.{bounds_of};

use std::alloc::Global;
use values::{NoMemory, Test, Value};

/// The values that a test compares with, in its order. Texts are shared with the test.
pub fn bounds_of(alloc: Global, test: &Test) -> Result<Vec<Value>, NoMemory>
    ensures { IfOk result (λ bounds. bounds.items ≡ bounds_of test.now) }
{
    let mut bounds = Vec::new(alloc);
    push_bounds(alloc, test, &mut bounds)?;
    Ok(bounds)
}

// Appends the values that a test compares with.
fn push_bounds(alloc: Global, test: &Test, bounds: &mut Vec<Value>) -> Result<(), NoMemory>
    ensures { OnOk result (bounds.new.items ≡ bounds.old.items ++ bounds_of test.now) }
{
    match test {
        Test::Compare(_, bound) => push_copy(alloc, bound, bounds),
        Test::OneOf(members, _) => push_copies(alloc, members.as_slice(), bounds),
        Test::Between(low, high, _) => {
            push_copy(alloc, low, bounds)?;
            push_copy(alloc, high, bounds)
        }
        Test::All(tests) => {
            for test in tests.as_slice() {
                push_bounds(alloc, test, bounds)?;
            }
            Ok(())
        }
        Test::Any(tests) => {
            for test in tests.as_slice() {
                push_bounds(alloc, test, bounds)?;
            }
            Ok(())
        }
    }
}

// Appends these values.
fn push_copies(alloc: Global, values: &[Value], to: &mut Vec<Value>) -> Result<(), NoMemory>
    ensures { OnOk result (to.new.items ≡ to.old.items ++ values.now) }
{
    for value in values {
        push_copy(alloc, value, to)?;
    }
    Ok(())
}

fn push_copy(alloc: Global, value: &Value, to: &mut Vec<Value>) -> Result<(), NoMemory>
    ensures { OnOk result (to.new.items ≡ to.old.items ++ value.now ∷ []) }
{
    to.push(value.copy(alloc)?)?;
    Ok(())
}
