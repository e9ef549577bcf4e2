//! Laws of what is told of a query, and of a scan by ids. Each is the contract of a function that
//! does nothing.

ghost use Rattle.std.specs.Prelude.{◌≡◌, [], List, length};
ghost use Rattle.values.specs.declared.value.Value.{Value};
ghost use Rattle.table_schema.specs.declared.query.BoundQuery.{BoundQuery};
ghost use Rattle.table_schema.specs.declared.table.Table.{Table};
ghost use Rattle.scan_engine.specs.Scanned.{selected};
ghost use Rattle.segment_plan.specs.declared.plans.ScanPlan.{ScanPlan};
ghost use Rattle.segment_plan.specs.declared.plans.SegmentPlan.TheVariants.{Scan};
ghost use Rattle.segment_plan.specs.Planned.{plan_over};
ghost use Rattle.segment_plan.specs.Served.{unserved};
ghost use Rattle.segment_reads.specs.Looked.{docs_over};
ghost use Rattle.query_executor.specs.Alike.{IdsAreAlike};

use segment_plan::{head_tells_law, plan_over_law};
use segment_scan::{image_law, index_law, served_law};

/// Where a segment is scanned and every conjunct is served, by `Sorted` or `Inverted`, as many
/// documents are looked at as rows hold.
pub fn docs_law()
    ensures { (query : BoundQuery) (table : Table) (rows : List (List Value)) (plan : ScanPlan)
        → plan_over query table rows ≡ Scan plan → unserved plan.choices query.conjuncts ≡ []
        → docs_over query table rows ≡ length (selected query rows) }
{
    served_law();
}

/// A scan by the ids of a column is one by its values.
pub(crate) fn ids_law()
    ensures { IdsAreAlike }
{
    head_tells_law();
    plan_over_law();
    image_law();
    index_law();
}
