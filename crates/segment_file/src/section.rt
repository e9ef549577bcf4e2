//! Where a section is.
use crate::Part;
use outside::Place;

/// A section of a segment's file.
#[derive(Debug, Drop)]
pub struct Section {
    pub part: Part,
    pub place: Place,
}
