//! What the file of a segment is looked at for.

/// What the file of a segment is looked at for.
#[derive(Clone, Copy)]
pub enum Aim {
    /// Whether it is the image of rows: `verify`.
    Verify,
    /// Its rows, as a text: `dump`.
    Dump,
}
