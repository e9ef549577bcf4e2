//! Some rows of a segment.
ghost use Rattle.std.specs.Prelude.{◌≤◌, length};
ghost use Rattle.value_ids.specs.Coding.{AreBelow};
ghost use Rattle.coded_columns.specs.Packing.{Ascend};

use crate::coded::SegmentColumns;

/// Some rows of a segment by their places, which ascend.
#[derive(Clone, Copy)]
pub struct PlacedRows<'a, 'i> {
    pub segment: &'a SegmentColumns<'i>,
    pub places: &'a [u32],
    ghost within: { AreBelow segment.now.count places.now },
    ghost few: { length places.now ≤ segment.now.count },
    ghost ascend: { Ascend places.now },
}
