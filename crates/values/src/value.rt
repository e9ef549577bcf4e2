//! A whole number or a text, its order, and its text.

ghost use Rattle.std.specs.Prelude.{◌≡◌, ◌++◌, refl, Some, IfOk, OnOk, OnErr};
ghost use Rattle.std.specs.Cmp.{partial_equiv_from_equiv};
ghost use Rattle.values.specs.Order.{value_order, value_eq};
ghost use Rattle.values.specs.Order.Laws.{value_eq-equiv, value_order-total, value_eq-ties, value_order-partial};
ghost use Rattle.values.specs.Printed.{text_of};

use data_types::{Name, NoMemory};
use std::alloc::Global;
use std::cmp::Ordering;

/// A whole number or a text.
#[derive(Debug, Drop, Hash)]
pub enum Value {
    Whole(i64),
    Text(Name),
}

impl Value {
    /// An equal value; a text is shared with this one.
    pub fn copy(&self, _alloc: Global) -> Result<Value, NoMemory>
        ensures { IfOk result (λ v. v ≡ self.now) }
    {
        match self {
            Value::Whole(number) => Ok(Value::Whole(*number)),
            Value::Text(text) => Ok(Value::Text(text.copy()?)),
        }
    }
}

/// Numbers by value, texts by their bytes, a number before a text.
pub fn compare(a: &Value, b: &Value) -> Ordering
    ensures { result ≡ value_order a.now b.now }
{
    match (a, b) {
        (Value::Whole(x), Value::Whole(y)) => x.cmp(y),
        (Value::Whole(_), Value::Text(_)) => Ordering::Less,
        (Value::Text(_), Value::Whole(_)) => Ordering::Greater,
        (Value::Text(x), Value::Text(y)) => x.cmp(y),
    }
}

/// Appends the decimal of a number, or the text.
pub fn push_text(alloc: Global, value: &Value, out: &mut Vec<u8>) -> Result<(), NoMemory>
    ensures ok { OnOk result (out.new.items ≡ out.old.items ++ text_of value.now) }
    ensures err { OnErr result (out.new.items ≡ out.old.items) }
{
    match value {
        Value::Whole(number) => {
            let digits = number.to_string(alloc)?;
            out.extend_from_slice(digits.as_bytes())
        }
        Value::Text(text) => out.extend_from_slice(text.as_slice()),
    }
}

impl PartialEq for Value {
    ghost eq = { value_eq };

    ghost laws = { partial_equiv_from_equiv value_eq-equiv };

    fn eq(&self, other: &Self) -> bool {
        match (self, other) {
            (Value::Whole(x), Value::Whole(y)) => x == y,
            (Value::Text(x), Value::Text(y)) => x == y,
            _ => false,
        }
    }
}

impl Eq for Value {
    ghost laws = { value_eq-equiv };
}

impl PartialOrd for Value {
    ghost partial_cmp = { λ x y. Some (value_order x y) };

    ghost laws = { value_order-partial };

    fn partial_cmp(&self, other: &Self) -> Option<Ordering> {
        Some(self.cmp(other))
    }
}

impl Ord for Value {
    ghost cmp = { value_order };

    ghost total = { value_order-total };

    ghost matches_partial_cmp = { λ x y. refl };

    ghost matches_eq = { value_eq-ties };

    fn cmp(&self, other: &Self) -> Ordering {
        compare(self, other)
    }
}
