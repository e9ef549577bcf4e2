//! The shape of a star-tree.

use crate::aggregate_kind::Kinds;

/// What the settings say of a star-tree.
#[derive(Drop)]
pub struct TreeShape {
    /// How many split dimensions there are: 1 to 16.
    pub dims: u8,
    /// Bit i says that no star child is made for split dimension i.
    pub skipped: u16,
    /// The most documents of a leaf, at least 1.
    pub leaf: u32,
    /// The kinds of the pairs, in order.
    pub kinds: Kinds,
}

impl TreeShape {
    ghost use Rattle.std.specs.Prelude.{◌≡◌, ◌<◌};
    ghost use Rattle.agg_laws.specs.Tree.{skips};

    /// Whether no star child is made for a split dimension.
    pub fn skips(&self, level: usize) -> bool
        requires { level < 16 }
        ensures { result ≡ skips self.now level }
    {
        self.skipped / (1 << level) % 2 == 1
    }
}
