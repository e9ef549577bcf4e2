//! Ids of a column as its forward index has them.
ghost use Rattle.std.specs.Prelude.{◌≡◌, ◌≤◌, ◌*◌, true, IfErr, IfOk, OnOk, length};
ghost use Rattle.bit_column.specs.Column.{ids_between, spelled};

use bit_column::{Width, put_ids};
use outside::NoMemory;
use std::marker::Model;

/// The ids of a column's rows, packed as its forward index has them. Contracts see a list of
/// numbers.
#[derive(Drop)]
pub struct PackedIds {
    bytes: Vec<u8>,
    width: Width,
    rows: u32,
}

impl Model for PackedIds {
    ghost use Rattle.std.specs.Prelude.{◌≤◌, ◌*◌, List, ℕ, length};
    ghost use Rattle.bit_column.specs.Column.{ids_between};

    ghost Value = { List ℕ };

    ghost view = { λ p. ids_between p.width.bits 0 p.rows p.bytes.items };

    ghost invariant = { λ p. p.rows * p.width.bits ≤ 8 * length p.bytes.items };
}

impl PackedIds {
    /// The first so many ids of these bytes, which have all of them.
    pub fn new(bytes: Vec<u8>, width: Width, rows: u32) -> Self
        requires { rows * width.bits ≤ 8 * length bytes.items }
        ensures { result ≡ ids_between width.bits 0 rows bytes.items }
    {
        PackedIds { bytes, width, rows }
    }

    /// How many rows there are.
    pub fn len(&self) -> usize
        ensures { result ≡ length self.now }
    {
        self.rows as usize
    }

    /// Puts all of them into a list, in place of what it has.
    pub fn put_all(&self, out: &mut Vec<u32>) -> Result<(), NoMemory>
        ensures { OnOk result (out.new.items ≡ self.now) }
    {
        out.resize(self.rows as usize, 0)?;
        put_ids(self.bytes.as_slice(), 0, self.width, out.as_mut_slice());
        Ok(())
    }

    /// The bytes, where they are the forward index of these ids in so many bits each; else the ids
    /// again.
    pub fn into_section(self, width: u32) -> Result<Vec<u8>, Self>
        ensures section { IfOk result (λ bytes. bytes.items ≡ spelled width self) }
        ensures same { IfErr result (λ same. same ≡ self) }
    {
        if self.width.bits == width && are_spelled(self.bytes.as_slice(), self.width, self.rows) {
            return Ok(self.bytes);
        }
        Err(self)
    }
}

// Whether bytes are the forward index of so many ids: no more than these take, and zero bits after
// the last.
fn are_spelled(bytes: &[u8], width: Width, rows: u32) -> bool
    requires { rows * width.bits ≤ 8 * length bytes.now }
    ensures { result ≡ true → bytes.now
        ≡ spelled width.bits (ids_between width.bits 0 rows bytes.now) }
{
    let bits = rows as usize * width.bits as usize;
    if bytes.len() != (bits + 7) / 8 {
        return false;
    }
    let zeros = (8 - bits % 8) % 8;
    zeros == 0 || bytes[bytes.len() - 1] % (1u8 << zeros) == 0
}
