//! The ids of a column's rows.
ghost use Rattle.std.specs.Prelude.{◌≡◌, ◌<◌, All, IfErr, IfOk, OnOk, get_or, length, map};
ghost use Rattle.bit_column.specs.Column.{spelled};

use crate::packed::PackedIds;
use outside::NoMemory;
use row_ids::RowIds;
use std::alloc::Global;
use std::marker::Model;

/// The id of each row of a column, alone or packed. Contracts see a list of numbers.
#[derive(Drop)]
pub struct ColumnIds {
    held: IdsHeld,
}

/// How the ids are kept.
#[derive(Drop)]
pub(crate) enum IdsHeld {
    Alone(RowIds),
    Packed(PackedIds),
}

impl Model for ColumnIds {
    ghost use Rattle.std.specs.Prelude.{List, ℕ};
    ghost use Rattle.segment_build.specs.Ids.{ids_held};

    ghost Value = { List ℕ };

    ghost view = { λ ids. ids_held ids.held };
}

impl ColumnIds {
    /// These ids, of which each has bytes of its own.
    pub fn alone(ids: RowIds) -> Self
        ensures { result ≡ ids }
    {
        ColumnIds {
            held: IdsHeld::Alone(ids),
        }
    }

    /// These ids, which are packed.
    pub fn packed(ids: PackedIds) -> Self
        ensures { result ≡ ids }
    {
        ColumnIds {
            held: IdsHeld::Packed(ids),
        }
    }

    /// How many rows there are.
    pub fn len(&self) -> usize
        ensures { result ≡ length self.now }
    {
        match &self.held {
            IdsHeld::Alone(ids) => ids.len(),
            IdsHeld::Packed(ids) => ids.len(),
        }
    }

    /// Puts all of them into a list, in place of what it has.
    pub fn put_all(&self, out: &mut Vec<u32>) -> Result<(), NoMemory>
        ensures { OnOk result (out.new.items ≡ self.now) }
    {
        match &self.held {
            IdsHeld::Alone(ids) => ids.put_all(out),
            IdsHeld::Packed(ids) => ids.put_all(out),
        }
    }

    /// Puts those of some rows into a list, in place of what it has.
    pub fn put_at(&self, alloc: Global, rows: &[u32], out: &mut Vec<u32>) -> Result<(), NoMemory>
        requires { All (λ row. row < length self.now) rows.now }
        ensures { OnOk result (out.new.items ≡ map (λ row. get_or self.now row 0) rows.now) }
    {
        match &self.held {
            IdsHeld::Alone(ids) => ids.put_at(rows, out),
            IdsHeld::Packed(ids) => {
                let mut all = Vec::new(alloc);
                ids.put_all(&mut all)?;
                RowIds::from_wide(all).put_at(rows, out)
            }
        }
    }

    /// The forward index of these ids in so many bits each, where they are packed as it has them;
    /// else the ids again.
    pub fn into_section(self, width: u32) -> Result<Vec<u8>, Self>
        ensures section { IfOk result (λ bytes. bytes.items ≡ spelled width self) }
        ensures same { IfErr result (λ same. same ≡ self) }
    {
        match self.held {
            IdsHeld::Alone(ids) => Err(ColumnIds::alone(ids)),
            IdsHeld::Packed(ids) => match ids.into_section(width) {
                Ok(bytes) => Ok(bytes),
                Err(ids) => Err(ColumnIds::packed(ids)),
            },
        }
    }
}
