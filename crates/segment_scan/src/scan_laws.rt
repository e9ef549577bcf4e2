//! Laws of what a scan answers and reads. Each is the contract of a function that does nothing.

ghost use Rattle.std.specs.Prelude.{◌≡◌, ◌≤◌, ◌++◌, ℕ, [], List, length, Option, Some};
ghost use Rattle.outside.specs.Files.{Files};
ghost use Rattle.outside.specs.Reads.{Entry};
ghost use Rattle.values.specs.declared.value.Value.{Value};
ghost use Rattle.table_schema.specs.declared.query.BoundQuery.{BoundQuery};
ghost use Rattle.table_schema.specs.declared.table.Table.{Table};
ghost use Rattle.scan_engine.specs.Scanned.{selected};
ghost use Rattle.segment_head.specs.Heads.{IsHead, IsHeadOf, IsPartOf, Seen};
ghost use Rattle.segment_plan.specs.declared.plans.IndexChoice.{IndexChoice};
ghost use Rattle.segment_scan.specs.Images.{AreDocs, LogsScan, choices_for};
ghost use Rattle.segment_head.specs.Stored.{IsOfImage};
ghost use Rattle.segment_plan.specs.Named.{AreNamedLoaded};
ghost use Rattle.segment_scan.specs.LeastReads.{IsLookedThrough, forward_bytes, forward_length};
ghost use Rattle.segment_plan.specs.Served.{unserved};
ghost use Rattle.segment_plan.specs.RowsLeft.{rows_left};

/// Where every conjunct is served, by `Sorted` or `Inverted`, the rows that the indexes leave are
/// those that satisfy the filter. So the answer of a scan of an image is then how many of its rows
/// hold.
pub fn served_law()
    ensures rows { (query : BoundQuery) (choices : List IndexChoice) (rows : List (List Value))
        → unserved choices query.conjuncts ≡ []
        → rows_left query choices rows ≡ selected query rows }
    ensures count { (query : BoundQuery) (table : Table) (files : Files) (rows : List (List Value))
        (head : Seen) (count : ℕ)
        → unserved (choices_for query table head) query.conjuncts ≡ []
        → IsOfImage table files rows head → AreDocs query table (Some files) head count
        → count ≡ length (selected query rows) }
{}

/// Where the query has exactly one conjunct, which names one column and has no index, the reads of
/// a scan give at least as many bytes of the column's forward section as the section has: on a
/// shelf that tells its log, with a head that is part of one of which all rules hold.
pub fn least_read_law()
    ensures { (query : BoundQuery) (table : Table) (name file bytes : List ℕ) (whole head : Seen)
        (column : ℕ) (held : Option Files) (count : ℕ) (before entries : List Entry)
        → IsHead table name file bytes whole → IsPartOf whole head → IsHeadOf table head
        → AreNamedLoaded query head → IsLookedThrough query table head column
        → LogsScan query table held head count (Some before) (Some (before ++ entries))
        → forward_length head column ≤ forward_bytes head column entries }
{}
