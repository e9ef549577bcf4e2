//! Segments where they are stored.
ghost use Rattle.std.specs.Prelude.{◌≡◌, ◌++◌, ◌∷◌, [], IfOk, OnOk, map};
ghost use Rattle.segment_head.specs.Stored.{live};

use crate::NoMemory;
use outside::Name;
use segment_file::segment_file_name;
use std::alloc::Global;

/// A segment where it is stored: the file that its bytes are in, and the name that it has.
#[derive(Debug, Drop)]
pub struct Stored {
    pub file: Name,
    pub name: Name,
}

/// The segments of these names where a store publishes them.
pub fn live_segments(alloc: Global, names: &[Name]) -> Result<Vec<Stored>, NoMemory>
    ensures { IfOk result (λ stored. stored.items ≡ map live names.now) }
{
    let mut stored = Vec::with_capacity(alloc, names.len())?;
    for name in names {
        push_live(alloc, name, &mut stored)?;
    }
    Ok(stored)
}

// Adds the segment of this name where a store publishes it.
fn push_live(alloc: Global, name: &Name, stored: &mut Vec<Stored>) -> Result<(), NoMemory>
    ensures { OnOk result (stored.new.items ≡ stored.old.items ++ live name.now ∷ []) }
{
    let file = Name::from_string(alloc, segment_file_name(alloc, name.as_str())?)?;
    let name = name.copy()?;
    stored.push(Stored { file, name })?;
    Ok(())
}
