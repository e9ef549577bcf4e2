//! The parts of a segment's file.
ghost use Rattle.std.specs.Prelude.{◌≡◌};
ghost use Rattle.segment_file.specs.Parts.{is_same, kind_of, owner_of};

/// A part of a stored file that can be wrong: the file of the table, or of a segment's file the
/// head or one of its sections, with the number of its field, or of its tree from 0.
#[derive(Clone, Copy, Debug, PartialEq, Eq)]
pub enum Part {
    Table,
    Head,
    Bounds,
    Dictionary(u16),
    Nodes(u8),
    Forward(u16),
    Sorted(u16),
    Inverted(u16),
    Range(u16),
    Star(u8),
}

impl Part {
    /// The kind of the section, as the directory spells it; 0 of what is no section.
    pub fn kind(self) -> u8
        ensures { result ≡ kind_of self }
    {
        match self {
            Part::Table | Part::Head => 0,
            Part::Bounds => 1,
            Part::Dictionary(_) => 2,
            Part::Nodes(_) => 3,
            Part::Forward(_) => 4,
            Part::Sorted(_) => 5,
            Part::Inverted(_) => 6,
            Part::Range(_) => 7,
            Part::Star(_) => 8,
        }
    }

    /// The number of the field or of the tree that the section belongs to.
    pub fn owner(self) -> u16
        ensures { result ≡ owner_of self }
    {
        match self {
            Part::Table | Part::Head | Part::Bounds => 0,
            Part::Dictionary(column)
            | Part::Forward(column)
            | Part::Sorted(column)
            | Part::Inverted(column)
            | Part::Range(column) => column,
            Part::Nodes(tree) | Part::Star(tree) => u16::from(tree),
        }
    }

    /// Whether it is the same section.
    pub fn is_same(self, other: Part) -> bool
        ensures { result ≡ is_same self other }
    {
        self.kind() == other.kind() && self.owner() == other.owner()
    }
}
