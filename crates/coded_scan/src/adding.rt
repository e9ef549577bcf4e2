//! The rows of a segment, added to the groups of a query.

ghost use Rattle.std.specs.Prelude.{◌-◌};
ghost use Rattle.agg_laws.specs.Numbers.{most_values};
ghost use Rattle.values.specs.Columns.{rows_of};
ghost use Rattle.group_table.specs.Kept.{IsTableOf, groups_in};
ghost use Rattle.group_table.specs.Pooled.{IsTableIn, StaysIn, in_pool};
ghost use Rattle.scan_engine.specs.Scanned.{HaveAtMost, selected};
ghost use Rattle.coded_columns.specs.Coded.{table_of};
ghost use Rattle.coded_scan.specs.Added.{AddsOrFills};
ghost use Rattle.segment_plan.specs.Served.{rest_of};

use crate::coded_filter::row_filters_of;
use crate::filtered_rows::FilteredRows;
use crate::guesses::make_room;
use crate::keyed_scan::keyed_of;
use crate::merging::merge_keys;
use coded_columns::SegmentColumns;
use group_table::{GroupTable, SlotPool, TableFault};
use segment_plan::IndexChoice;
use std::alloc::Global;
use table_schema::BoundQuery;

/// Adds the rows of a segment that satisfy those of a query's conjuncts that are not served to its
/// groups. A group is merged once for all of them. The places of groups are noted for the segment
/// that comes next, and looked at first for ids that had them in an earlier one.
pub fn add_coded(
    alloc: Global,
    query: &BoundQuery,
    choices: &[IndexChoice],
    segment: &SegmentColumns<'_>,
    places: &mut Vec<u64>,
    table: &mut GroupTable,
    pool: &mut SlotPool,
) -> Result<(), TableFault>
    requires pooled { IsTableIn table.old pool.old }
    requires table { IsTableOf query.now (in_pool table.old pool.old) }
    requires fits { HaveAtMost (most_values - segment.now.count) (groups_in (in_pool table.old
        pool.old)) }
    ensures adds { AddsOrFills query.now segment.now.count
        (selected (rest_of query.now choices.now) (rows_of (table_of segment.now)))
        (in_pool table.old pool.old) (in_pool table.new pool.new) result }
    ensures stays { StaysIn table.old pool.old table.new pool.new }
{
    let row_filters = row_filters_of(alloc, segment, query.conjuncts.as_slice(), choices)?;
    let rows = FilteredRows {
        segment,
        row_filters: row_filters.as_slice(),
    };
    let keyed = keyed_of(alloc, query, rows)?;
    let groups = keyed.firsts.len().saturating_add(table.groups() as usize);
    make_room(alloc, places, groups)?;
    merge_keys(alloc, query, rows, &keyed, places, table, pool)
}
