//! Texts in JSON, and what their values say.

ghost use Rattle.std.specs.Prelude.{◌≡◌, ◌≢◌, [], Some, None, IfOk, IfErr, map, option_map};
ghost use Rattle.serde_json.specs.View.{view, members_view};
ghost use Rattle.json_keys.specs.Json as spec;
ghost use Rattle.json_keys.specs.declared.fault.KeyKind.TheVariants.{NotJson};
ghost use Rattle.json_keys.specs.declared.fault.TextFault.TheVariants.{At, NoMemory};

use crate::{KeyKind, KeyPath, TextFault};
use serde_json::{Category, Map, Value};
use std::alloc::Global;

/// The value of a key. `null` counts as absent, and a value that is no object has no keys.
pub fn key_of<'v>(json: &'v Value, key: &str) -> Option<&'v Value>
    ensures { option_map (λ v. view v.now) result ≡ spec.key_of key.now (view json.now) }
{
    match json.get(key) {
        Some(Value::Null) => None,
        found => found,
    }
}

/// The items of an array.
pub fn array_of(json: &Value) -> Option<&[Value]>
    ensures { option_map (λ v. map view v.now) result ≡ spec.array_of (view json.now) }
{
    match json.as_array() {
        Some(items) => Some(items.as_slice()),
        None => None,
    }
}

/// Whether nothing is said: `null`, an empty text or array, or an object of such values.
#[cycle(empty)]
pub(crate) fn is_empty(json: &Value) -> bool
    ensures { result ≡ spec.is_empty (view json.now) }
{
    match json {
        Value::Null => true,
        Value::Bool(_) | Value::Number(_) => false,
        Value::String(text) => text.as_str().is_empty(),
        Value::Array(items) => items.as_slice().is_empty(),
        Value::Object(members) => all_empty(members),
    }
}

#[cycle(empty)]
fn all_empty(members: &Map<String, Value>) -> bool
    ensures { result ≡ spec.all_empty (members_view members.now.entries) }
{
    for (_, member) in members.iter() {
        if !is_empty(member) {
            return false;
        }
    }
    true
}

/// The value of a text in UTF-8, with at most 127 levels of arrays and objects.
pub fn read_json(alloc: Global, bytes: &[u8]) -> Result<Value, TextFault>
    ensures ok { IfOk result (λ json. spec.json_of bytes.now ≡ Some (view json)) }
    ensures none { IfErr result (λ e. e ≢ NoMemory → spec.json_of bytes.now ≡ None) }
    ensures err { IfErr result (λ e. e ≢ NoMemory → e ≡ At NotJson []) }
{
    match Value::from_slice(alloc, bytes) {
        Ok(json) => Ok(json),
        Err(e) => match e.classify() {
            Category::Memory => Err(TextFault::NoMemory),
            _ => Err(TextFault::At(KeyKind::NotJson, KeyPath::new(alloc))),
        },
    }
}
