//! Tests of the values of a column that is looked up.
ghost use Rattle.std.specs.Prelude.{◌≡◌, true, IfOk};
ghost use Rattle.segment_opening.specs.Found.{IsMet};

use crate::emptied::FEW_BOUNDS;
use outside::Name;
use segment_head::NoMemory;
use std::alloc::Global;
use values::{Test, Value, holds_value};

/// Whether a test has few bounds.
pub(crate) fn has_few_bounds(test: &Test) -> bool {
    match test {
        Test::Compare(_, _) | Test::Between(_, _, _) => true,
        Test::OneOf(members, _) => members.len() <= FEW_BOUNDS,
        _ => false,
    }
}

/// Whether one of a few values is known to satisfy the test: the first that it names, a least and a
/// greatest number, and a text after most others.
pub(crate) fn is_met(alloc: Global, test: &Test) -> Result<bool, NoMemory>
    ensures { IfOk result (λ met. met ≡ true → IsMet test.now) }
{
    if is_met_by_named(test)
        || is_met_by(test, &Value::Whole(i64::MIN))
        || is_met_by(test, &Value::Whole(i64::MAX))
    {
        return Ok(true);
    }
    let last = Value::Text(Name::from_text(alloc, "\u{10ffff}")?);
    Ok(is_met_by(test, &last))
}

// Whether the first value that a test names satisfies it.
fn is_met_by_named(test: &Test) -> bool
    ensures { result ≡ true → IsMet test.now }
{
    match first_named(test) {
        Some(value) => is_met_by(test, value),
        None => false,
    }
}

// Whether this value satisfies the test.
fn is_met_by(test: &Test, value: &Value) -> bool
    ensures { result ≡ true → IsMet test.now }
{
    holds_value(test, value)
}

// The first value that a test names by itself.
fn first_named(test: &Test) -> Option<&Value> {
    match test {
        Test::Compare(_, bound) => Some(bound),
        Test::OneOf(members, _) => members.as_slice().first(),
        Test::Between(low, _, _) => Some(low),
        _ => None,
    }
}
