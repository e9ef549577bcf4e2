//! Which ids of a section are read.
ghost use Rattle.std.specs.Prelude.{◌≤◌};

use crate::Width;

/// The ids of a section between two indexes, the second left out, in so many bits each; each is to
/// be below the count.
#[derive(Clone, Copy)]
pub struct IdRange {
    pub width: Width,
    pub count: u32,
    pub from: u32,
    pub to: u32,
    pub ghost order: { from ≤ to },
}
