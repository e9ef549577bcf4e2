//! Paths of keys and places, and faults at them.

ghost use Rattle.std.specs.Prelude.{◌≡◌, ◌≢◌, IfOk};
ghost use Rattle.json_keys.specs.declared.fault.TextFault.TheVariants.{At, NoMemory};
ghost use Rattle.json_keys.specs.Faults as spec;

use crate::{KeyKind, KeyPath, TextFault};
use data_types::Name;
use std::alloc::Global;
use values::NoMemory;

/// The path of a key of the object at `base`.
pub fn below(alloc: Global, base: &str, key: &str) -> Result<KeyPath, NoMemory>
    ensures { IfOk result (λ path. path ≡ spec.below base.now key.now) }
{
    let mut path = Name::from_text(alloc, base)?;
    if !base.is_empty() {
        path.push_str(".")?;
    }
    path.push_str(key)?;
    Ok(path)
}

/// The path of a place of the array at `base`.
pub fn at_place(alloc: Global, base: &str, place: usize) -> Result<KeyPath, NoMemory>
    ensures { IfOk result (λ path. path ≡ spec.at_place base.now place) }
{
    let mut path = Name::from_text(alloc, base)?;
    path.push_str("[")?;
    path.push_str(place.to_string(alloc)?.as_str())?;
    path.push_str("]")?;
    Ok(path)
}

/// A fault at a path.
#[cold]
pub fn fault_at(alloc: Global, kind: KeyKind, path: &str) -> TextFault
    ensures { result ≢ NoMemory → result ≡ At kind path.now }
{
    match Name::from_text(alloc, path) {
        Ok(path) => TextFault::At(kind, path),
        Err(_) => TextFault::NoMemory,
    }
}

/// A fault at a key of the object at `base`.
#[cold]
pub fn key_fault(alloc: Global, kind: KeyKind, base: &str, key: &str) -> TextFault
    ensures { result ≢ NoMemory → result ≡ At kind (spec.below base.now key.now) }
{
    match below(alloc, base, key) {
        Ok(path) => TextFault::At(kind, path),
        Err(_) => TextFault::NoMemory,
    }
}

/// A fault at a place of the array at `base`.
#[cold]
pub fn place_fault(alloc: Global, kind: KeyKind, base: &str, place: usize) -> TextFault
    ensures { result ≢ NoMemory → result ≡ At kind (spec.at_place base.now place) }
{
    match at_place(alloc, base, place) {
        Ok(path) => TextFault::At(kind, path),
        Err(_) => TextFault::NoMemory,
    }
}
