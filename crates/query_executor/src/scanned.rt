//! What was done with a segment for a query.
ghost use Rattle.std.specs.Prelude.{◌≡◌};

use segment_plan::SegmentPlan;

/// What was done with a segment for a query.
#[derive(Drop)]
pub struct Scanned {
    pub plan: SegmentPlan,
    /// How many documents were looked at: the rows that its indexes left, or the documents of the
    /// star-tree that were read.
    pub docs: u32,
}

/// None of the rows of a segment with this plan is looked at.
pub(crate) fn nothing(plan: SegmentPlan) -> Scanned
    ensures plan { result.plan ≡ plan }
    ensures none { result.docs ≡ 0 }
{
    Scanned { plan, docs: 0 }
}
