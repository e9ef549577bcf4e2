//! The laws of answers from a star-tree, and of rows beside it. Each is the contract of a function
//! that does nothing of its own.

ghost use Rattle.std.specs.Prelude.{◌≡◌, List, Some, length};
ghost use Rattle.outside.specs.Files.{Files};
ghost use Rattle.values.specs.declared.value.Value.{Value};
ghost use Rattle.table_schema.specs.declared.query.BoundQuery.{BoundQuery};
ghost use Rattle.group_table.specs.Kept.{IsTableOf, KeptGroups};
ghost use Rattle.star_walk.specs.declared.task.Task.{Task};
ghost use Rattle.scan_engine.specs.Scanned as scan;
ghost use Rattle.scan_engine.specs.Scanned.{AddsRows, selected};
ghost use Rattle.star_reader.specs.declared.asked.Asked.{Asked};
ghost use Rattle.star_reader.specs.declared.tree_part.TreePart.{TreePart};
ghost use Rattle.star_reader.specs.Answers.{Answers, IsBad, IsOverfull, IsTree, asked_of};
ghost use Rattle.star_reader.specs.Asked.{AreAsked};
ghost use Rattle.star_answer.specs.Covered.{RowsAreCovered, RowsKeepValues};
ghost use Rattle.star_answer.specs.OfRows.{AsksOfRows, ColumnsOfRows, NodesOfRows, RowsAreProjected};
ghost use Rattle.star_answer.specs.Served.{IsServed};

use segment_head::head_tells_trees_law;
use star_tree::picks_law;
use star_walk::walk_law;

/// Where the tree is that of a segment's rows, and the query filters and groups by its dimensions
/// alone and asks for its pairs, the answer adds the rows that satisfy the filter to the groups.
/// There are too many groups only where these rows give too many, and no document is refused.
pub fn served_law()
    ensures adds { (query : BoundQuery) (tree : TreePart) (task : Task) (asked : Asked)
        (files : Files) (rows : List (List Value)) (old new : KeptGroups)
        → IsTree tree task → AreAsked tree.shape.now asked → IsTableOf query old
        → IsServed query tree (asked_of task) asked files rows
        → Answers tree task asked (length rows) (Some files) old new
        → AddsRows query (length rows) (selected query rows) old new }
    ensures overfull { (query : BoundQuery) (tree : TreePart) (task : Task) (asked : Asked)
        (files : Files) (rows : List (List Value)) (old : KeptGroups)
        → IsTree tree task → AreAsked tree.shape.now asked → IsTableOf query old
        → IsServed query tree (asked_of task) asked files rows
        → IsOverfull tree task asked (Some files) old
        → scan.IsOverfull query (selected query rows) old }
    ensures never_bad { (query : BoundQuery) (tree : TreePart) (task : Task) (asked : Asked)
        (files : Files) (rows : List (List Value))
        → IsTree tree task → AreAsked tree.shape.now asked
        → IsServed query tree (asked_of task) asked files rows
        → ¬ IsBad tree task asked (length rows) (Some files) }
{
    walk_law();
    picks_law();
}

/// Where a tree is of a segment's rows and a query filters and groups by its dimensions alone, each
/// row that satisfies the filter is covered by exactly one pick of the walk, and its ids pass the
/// pick's remaining tests. A row that does not is covered by none, or by one whose remaining tests
/// its ids fail. On a group column the picked documents have the row's own value.
pub fn covered_law()
    ensures rows { RowsAreCovered }
    ensures values { RowsKeepValues }
{
    star_walk::covered_law();
}

/// A tree has of each row of its segment an id for each split dimension, among the distinct values
/// of the rows there, and a number for each pair. Where a head tells of rows, a query asks of the
/// tree by these values what it asks by those of the head; and on an image the nodes that are
/// loaded are those of the tree of the rows.
pub fn rows_law()
    ensures projected { RowsAreProjected }
    ensures asks { AsksOfRows }
    ensures columns { ColumnsOfRows }
    ensures nodes { NodesOfRows }
{
    head_tells_trees_law();
}
