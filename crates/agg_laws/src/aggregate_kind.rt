//! The kinds of aggregates.

ghost use Rattle.std.specs.Prelude.{◌≡◌};

use data_types::Seq;

/// A kind of aggregate, as a pair of a star-tree or an aggregate of a query names it.
#[derive(Clone, Copy, Debug, PartialEq, Eq, PartialOrd, Ord, Hash)]
pub enum AggKind {
    Count,
    Sum,
    Least,
    Greatest,
    Average,
}

/// A list of kinds, in the order of the pairs of a star-tree.
pub type Kinds = Seq<AggKind>;

impl AggKind {
    ghost use Rattle.agg_laws.specs.Kind.{width_of};

    /// How many bytes a state of the kind takes.
    pub fn width(self) -> usize
        ensures { result ≡ width_of self }
    {
        match self {
            AggKind::Count | AggKind::Least | AggKind::Greatest => 8,
            AggKind::Sum => 16,
            AggKind::Average => 24,
        }
    }
}
