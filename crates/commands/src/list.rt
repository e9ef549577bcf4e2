//! The command `list`: the segments of a store, with how many rows each has.
ghost use Rattle.std.specs.Prelude.{◌≡◌, ◌∷◌, [], ◌++◌, codes, length, map, true, Ok, Some, IfOk, IfSome, OnOk};
ghost use Rattle.std.specs.Fmt.{decimal};
ghost use Rattle.std.specs.List.{All, AllZip};
ghost use Rattle.outside.specs.Seen.{Seen, seen};
ghost use Rattle.segment_file.specs.Names.{IsSegmentName};
ghost use Rattle.segment_head.specs.Stored.{live};
ghost use Rattle.segment_reads.specs.Logs.{LogsHeadOf, LogsHeadsOf};
ghost use Rattle.table_schema.specs.ValidTable.{IsValidTable};
ghost use Rattle.table_store.specs.Segments.{AreFirstNames, has_segment};
ghost use Rattle.command_words.specs.Command.{Listing};
ghost use Rattle.command_model.specs.Gives.{LooksFor};
ghost use Rattle.command_model.specs.Profile.{StoreFiles, TableFile};
ghost use Rattle.command_model.specs.Ran.{Ran};
ghost use Rattle.command_model.specs.Stored as spec;
ghost use Rattle.command_model.specs.Stored.{HasRows, HasTableFile, SegmentsRefuse, TableRefuses};

use command_model::{head_stop, stored_names, stored_table};
use command_words::Stop;
use outside::{Bytes, Depot, Name, Seq};
use segment_file::segment_file_name;
use segment_head::open_head;
use std::alloc::{AllocError, Global};
use table_schema::Table;

/// The reply to `list`. Of a segment's file no more than the front and the bounds is read.
pub fn list<D: Depot>(alloc: Global, depot: &mut D) -> Result<Bytes, Stop>
    ensures { (inputs : Seen) → Ran (Some Listing)
        (record { inputs = inputs; depot = seen D.Shelf depot.old })
        (record { inputs = inputs; depot = seen D.Shelf depot.new }) result }
{
    let table = stored_table(alloc, depot)?;
    list_table(alloc, depot, &table)
}

// The reply to `list` where the store has this table.
fn list_table<D: Depot>(alloc: Global, depot: &mut D, table: &Table) -> Result<Bytes, Stop>
    requires valid { IsValidTable table.now }
    requires there { IfSome (D.held depot.old) (λ files. HasTableFile files table.now) }
    ensures { (first : Seen) → LooksFor HasTableFile TableRefuses TableFile first
        (seen D.Shelf depot.old) (Ok table.now) → (inputs : Seen) → Ran (Some Listing)
        (record { inputs = inputs; depot = first })
        (record { inputs = inputs; depot = seen D.Shelf depot.new }) result }
{
    let names = stored_names(alloc, depot)?;
    list_names(alloc, depot, table, names.as_slice())
}

// The reply to `list` where the table has these segments.
fn list_names<D: Depot>(
    alloc: Global,
    depot: &mut D,
    table: &Table,
    names: &[Name],
) -> Result<Bytes, Stop>
    requires valid { IsValidTable table.now }
    requires named { All IsSegmentName names.now }
    requires there { IfSome (D.held depot.old) (λ files. HasTableFile files table.now
        × All (λ name. has_segment files name ≡ true) names.now) }
    ensures { (first between : Seen)
        → LooksFor HasTableFile TableRefuses TableFile first between (Ok table.now)
        → LooksFor AreFirstNames TableRefuses TableFile between (seen D.Shelf depot.old)
        (Ok names.now) → (inputs : Seen) → Ran (Some Listing)
        (record { inputs = inputs; depot = first })
        (record { inputs = inputs; depot = seen D.Shelf depot.new }) result }
{
    let counts = count_all(alloc, depot, table, names)?;
    Ok(list_text(alloc, names, counts.as_slice())?)
}

// How many rows each of these segments has.
fn count_all<D: Depot>(
    alloc: Global,
    depot: &mut D,
    table: &Table,
    names: &[Name],
) -> Result<Seq<u32>, Stop>
    requires valid { IsValidTable table.now }
    requires named { All IsSegmentName names.now }
    requires there { IfSome (D.held depot.old) (λ files. HasTableFile files table.now
        × All (λ name. has_segment files name ≡ true) names.now) }
    ensures looks { LooksFor (λ files counts. AllZip (HasRows table.now files) names.now counts)
        SegmentsRefuse StoreFiles (seen D.Shelf depot.old) (seen D.Shelf depot.new) result }
    ensures heads { LogsHeadsOf table.now (D.held depot.old) (map live names.now)
        (D.log depot.old) (D.log depot.new) }
    ensures each { IfOk result (λ counts. length counts ≡ length names.now) }
{
    let mut counts = Vec::with_capacity(alloc, names.len())?;
    'names: for at in 0..names.len() {
        let rows = count_rows(alloc, depot, table, names[at].as_str())?;
        push_count(rows, &mut counts)?;
    }
    Ok(Seq::from_vec(counts))
}

// Adds how many rows one has.
fn push_count(rows: u32, counts: &mut Vec<u32>) -> Result<(), AllocError>
    ensures { OnOk result (counts.new.items ≡ counts.old.items ++ rows ∷ []) }
{
    counts.push(rows)?;
    Ok(())
}

// How many rows a segment has, as the front of its file says.
fn count_rows<D: Depot>(
    alloc: Global,
    depot: &mut D,
    table: &Table,
    name: &str,
) -> Result<u32, Stop>
    requires valid { IsValidTable table.now }
    requires name { IsSegmentName name.now }
    requires there { IfSome (D.held depot.old) (λ files. HasTableFile files table.now
        × (has_segment files name.now ≡ true)) }
    ensures looks { LooksFor (λ files rows. HasRows table.now files name.now rows) SegmentsRefuse
        StoreFiles (seen D.Shelf depot.old) (seen D.Shelf depot.new) result }
    ensures heads { LogsHeadOf table.now (D.held depot.old) (live name.now)
        (D.log depot.old) (D.log depot.new) }
{
    let file = segment_file_name(alloc, name)?;
    match open_head(alloc, depot, file.as_str(), name, table) {
        Ok(head) => Ok(head.rows()),
        Err(fault) => Err(head_stop(alloc, table, name, fault)),
    }
}

// The text of a list of segments.
fn list_text(alloc: Global, names: &[Name], counts: &[u32]) -> Result<Bytes, AllocError>
    requires { length counts.now ≡ length names.now }
    ensures { IfOk result (λ text. text ≡ spec.list_text names.now counts.now) }
{
    let mut text = b"segment,rows\n".to_vec(alloc)?;
    'lines: for at in 0..names.len() {
        push_line(alloc, names[at].as_slice(), counts[at], &mut text)?;
    }
    Ok(Seq::from_vec(text))
}

// Adds the line of a segment.
fn push_line(alloc: Global, name: &[u8], rows: u32, text: &mut Vec<u8>) -> Result<(), AllocError>
    ensures { OnOk result (text.new.items
        ≡ text.old.items ++ name.now ++ codes "," ++ decimal rows ++ codes "\n") }
{
    text.extend_from_slice(name)?;
    text.push(b',')?;
    let digits = rows.to_string(alloc)?;
    text.extend_from_slice(digits.as_bytes())?;
    text.push(b'\n')?;
    Ok(())
}
