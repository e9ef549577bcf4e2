//! The types of fields.

/// The type of a field: 32-bit and 64-bit signed whole numbers, and texts.
#[derive(Clone, Copy, Debug, PartialEq, Eq, PartialOrd, Ord, Hash)]
pub enum FieldKind {
    Int,
    Long,
    Text,
}
