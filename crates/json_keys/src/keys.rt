//! Checks of one key of an object.

ghost use Rattle.std.specs.Prelude.{◌≡◌, IfOk, IfErr, map};
ghost use Rattle.serde_json.specs.View.{view};
ghost use Rattle.json_keys.specs.Keys as spec;
ghost use Rattle.json_keys.specs.Faults.{Refuses, Passes};

use crate::json::{array_of, is_empty, key_of};
use crate::path::{fault_at, key_fault};
use crate::{KeyKind, TextFault};
use serde_json::Value;
use std::alloc::Global;

/// The value is an object.
pub fn check_object(alloc: Global, path: &str, json: &Value) -> Result<(), TextFault>
    ensures { Passes (spec.object_finding path.now (view json.now)) result }
{
    if json.is_object() {
        Ok(())
    } else {
        Err(fault_at(alloc, KeyKind::WrongKind, path))
    }
}

/// The key has to be there, with a text.
pub fn required_text<'v>(
    alloc: Global,
    base: &str,
    key: &str,
    json: &'v Value,
) -> Result<&'v str, TextFault>
    ensures ok { IfOk result
        (λ text. spec.required_text base.now key.now (view json.now) ≡ None) }
    ensures text { IfOk result (λ text. text.now ≡ spec.text_at key.now (view json.now)) }
    ensures err { IfErr result (Refuses (spec.required_text base.now key.now (view json.now))) }
{
    let Some(value) = key_of(json, key) else {
        return Err(key_fault(alloc, KeyKind::MissingKey, base, key));
    };
    match value.as_str() {
        Some(text) => Ok(text),
        None => Err(key_fault(alloc, KeyKind::WrongKind, base, key)),
    }
}

/// Where the key is there, it has an array.
pub fn optional_array<'v>(
    alloc: Global,
    base: &str,
    key: &str,
    json: &'v Value,
) -> Result<&'v [Value], TextFault>
    ensures ok { IfOk result
        (λ items. spec.optional_array base.now key.now (view json.now) ≡ None) }
    ensures items { IfOk result
        (λ items. map view items.now ≡ spec.items_at key.now (view json.now)) }
    ensures err { IfErr result (Refuses (spec.optional_array base.now key.now (view json.now))) }
{
    let Some(value) = key_of(json, key) else {
        return Ok(&[]);
    };
    match array_of(value) {
        Some(items) => Ok(items),
        None => Err(key_fault(alloc, KeyKind::WrongKind, base, key)),
    }
}

/// The key says nothing.
pub fn check_unused(alloc: Global, base: &str, key: &str, json: &Value) -> Result<(), TextFault>
    ensures { Passes (spec.unused_key base.now key.now (view json.now)) result }
{
    match key_of(json, key) {
        Some(value) if !is_empty(value) => Err(key_fault(alloc, KeyKind::Unsupported, base, key)),
        _ => Ok(()),
    }
}

/// The key does not have that truth value.
pub fn check_not(
    alloc: Global,
    refused: bool,
    base: &str,
    key: &str,
    json: &Value,
) -> Result<(), TextFault>
    ensures { Passes (spec.refused_bool refused base.now key.now (view json.now)) result }
{
    match key_of(json, key) {
        Some(value) if is_bool(refused, value) => {
            Err(key_fault(alloc, KeyKind::Unsupported, base, key))
        }
        _ => Ok(()),
    }
}

fn is_bool(wanted: bool, json: &Value) -> bool
    ensures { result ≡ spec.is_bool wanted (view json.now) }
{
    match json.as_bool() {
        Some(value) => value == wanted,
        None => false,
    }
}
