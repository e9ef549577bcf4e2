//! The rows of a segment, and conditions on them.
ghost use Rattle.coded_scan.specs.RowFilters.{AllCover};

use crate::row_filter::RowFilter;
use coded_columns::SegmentColumns;

/// The rows of a segment, and conditions that have an id for each of them.
#[derive(Clone, Copy)]
pub struct FilteredRows<'a, 'i> {
    pub segment: &'a SegmentColumns<'i>,
    pub row_filters: &'a [RowFilter<'i>],
    ghost covers: { AllCover segment.now.count row_filters.now },
}
