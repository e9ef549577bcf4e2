//! What is in a row that has no value of a field.

ghost use Rattle.std.specs.Prelude.{◌≡◌, IfOk};
ghost use Rattle.serde_json.specs.View.{view, number_view};
ghost use Rattle.schema_json.specs.Defaults as spec;
ghost use Rattle.json_keys.specs.Faults.{Gives};

use data_types::{FieldKind, Name, read_whole};
use json_keys::{KeyKind, TextFault, key_fault, key_of};
use serde_json::{Number, Value as Json};
use std::alloc::Global;
use table_schema::Role;
use values::{NoMemory, Value};

/// The most bytes of a text that is a default.
const MOST_DEFAULT_BYTES: usize = 64;

const DEFAULT_KEY: &str = "defaultNullValue";

/// The default of a field that the object at `base` describes.
pub(crate) fn read_default(
    alloc: Global,
    base: &str,
    role: Role,
    kind: FieldKind,
    json: &Json,
) -> Result<Value, TextFault>
    ensures { Gives (spec.default_finding base.now kind (view json.now))
        (spec.default_of role kind (view json.now)) result }
{
    let Some(given) = key_of(json, DEFAULT_KEY) else {
        return Ok(usual_default(alloc, role, kind)?);
    };
    match given_default(alloc, kind, given)? {
        Some(value) => Ok(value),
        None => Err(key_fault(alloc, KeyKind::WrongKind, base, DEFAULT_KEY)),
    }
}

/// `null` for texts, 0 for metrics, and else the least number of the type.
fn usual_default(alloc: Global, role: Role, kind: FieldKind) -> Result<Value, NoMemory>
    ensures { IfOk result (λ value. value ≡ spec.usual_default role kind) }
{
    match (role, kind) {
        (_, FieldKind::Text) => Ok(Value::Text(Name::from_text(alloc, "null")?)),
        (Role::Metric, _) => Ok(Value::Whole(0)),
        (_, FieldKind::Int) => Ok(Value::Whole(i64::from(i32::MIN))),
        (_, FieldKind::Long) => Ok(Value::Whole(i64::MIN)),
    }
}

/// The default that a value in JSON gives, if it is one of that type.
fn given_default(alloc: Global, kind: FieldKind, json: &Json) -> Result<Option<Value>, NoMemory>
    ensures { IfOk result (λ value. value ≡ spec.given_default kind (view json.now)) }
{
    match json {
        Json::String(text) => text_default(alloc, kind, text.as_str()),
        Json::Number(number) => Ok(number_default(kind, number)),
        _ => Ok(None),
    }
}

fn text_default(alloc: Global, kind: FieldKind, text: &str) -> Result<Option<Value>, NoMemory>
    ensures { IfOk result (λ value. value ≡ spec.text_default kind text.now) }
{
    match kind {
        FieldKind::Text if text.len() > MOST_DEFAULT_BYTES => Ok(None),
        FieldKind::Text => Ok(Some(Value::Text(Name::from_text(alloc, text)?))),
        FieldKind::Int | FieldKind::Long => match read_whole(kind, text.as_bytes()) {
            Ok(number) => Ok(Some(Value::Whole(number))),
            Err(_) => Ok(None),
        },
    }
}

fn number_default(kind: FieldKind, number: &Number) -> Option<Value>
    ensures { result ≡ spec.number_default kind (number_view number.now) }
{
    let number = number.as_i64()?;
    match kind {
        FieldKind::Text => None,
        FieldKind::Int if number < i64::from(i32::MIN) || i64::from(i32::MAX) < number => None,
        FieldKind::Int | FieldKind::Long => Some(Value::Whole(number)),
    }
}
