//! Documents merged.

ghost use Rattle.std.specs.Prelude.{◌≤◌, length, IfOk};
ghost use Rattle.agg_laws.specs.Numbers.{most_stored};
ghost use Rattle.agg_laws.specs.Rows.{row_weight};
ghost use Rattle.agg_laws.specs.Merged.{weights};
ghost use Rattle.star_records.specs.Folding.{IsMergedOf};

use crate::NoMemory;
use star_table::StarTable;

/// The documents sorted by their ids, those of equal ids merged.
pub fn merge_equal(rows: StarTable) -> Result<StarTable, NoMemory>
    requires at_most { length rows.docs ≤ most_stored }
    requires weight_fits { weights row_weight rows.docs ≤ most_stored }
    ensures { IfOk result (IsMergedOf rows) }
{
    let mut rows = rows;
    if rows.is_empty() {
        return Ok(rows);
    }
    let count = rows.len() as u32;
    rows.reserve(count)?;
    rows.append_merged(0, count)?;
    rows.tail(count)
}
