//! The fields of a table, of which there are few.
ghost use Rattle.std.specs.Prelude.{◌≤◌, length};

use crate::Field;

/// At most 64 fields, so that each has a small number.
#[derive(Clone, Copy)]
pub struct Fields<'a> {
    pub all: &'a [Field],
    ghost at_most: { length all.now ≤ 64 },
}
