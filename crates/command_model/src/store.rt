//! What is looked at in a store.
ghost use Rattle.std.specs.Prelude.{◌≡◌, ◌≤◌, codes, length, IfOk};
ghost use Rattle.std.specs.List.{All};
ghost use Rattle.outside.specs.Seen.{seen};
ghost use Rattle.segment_file.specs.Names.{IsSegmentName, IsSegmentOf};
ghost use Rattle.table_schema.specs.ValidTable.{IsValidTable};
ghost use Rattle.table_store.specs.Calls.{IsCheckFault, LooksAtSegment};
ghost use Rattle.table_store.specs.Segments.{AreFirstNames};
ghost use Rattle.table_store.specs.TableFile.{table_name};
ghost use Rattle.command_model.specs.Gives.{FindsPlace, FindsSegment, IsCheckStop, IsLookFault, IsMissingStop, IsStopOf, IsTakenStop, LooksFor};
ghost use Rattle.command_model.specs.Look.{IsFileOfNone, IsSaid, verified_text};
ghost use Rattle.command_model.specs.Places.{IsPlaceFault, IsPlaceStop};
ghost use Rattle.command_model.specs.Profile.{TableFile};
ghost use Rattle.command_model.specs.Stored.{HasTableFile, TableRefuses};

use crate::segment_stop;
use command_words::{Aim, Counted, Fault, Note, Stop};
use outside::{Bytes, Depot, Name, Seq};
use std::alloc::{AllocError, Global};
use table_schema::Table;
use table_store::{
    MOST_SEGMENTS, StoreFault, count_segment, find_room, open_table, segment_names, spell_segment,
};

/// The table of the store.
pub fn stored_table<D: Depot>(alloc: Global, depot: &mut D) -> Result<Table, Stop>
    ensures looks { LooksFor HasTableFile TableRefuses TableFile
        (seen D.Shelf depot.old) (seen D.Shelf depot.new) result }
    ensures valid { IfOk result (λ table. IsValidTable table) }
{
    match open_table(alloc, depot) {
        Ok(table) => Ok(table),
        Err(fault) => Err(stop_of(alloc, fault)),
    }
}

/// The names of the segments of the store, the first of them where there are more than the most.
pub fn stored_names<D: Depot>(alloc: Global, depot: &mut D) -> Result<Seq<Name>, Stop>
    ensures looks { LooksFor AreFirstNames TableRefuses TableFile
        (seen D.Shelf depot.old) (seen D.Shelf depot.new) result }
    ensures named { IfOk result (λ names. All IsSegmentName names) }
    ensures at_most { IfOk result (λ names. length names ≤ 512) }
{
    match segment_names(alloc, depot) {
        Ok(names) => Ok(names),
        Err(fault) => Err(stop_of(alloc, fault)),
    }
}

/// The table of the store, where there is no segment of this name, and fewer than the most.
pub fn table_with_place<D: Depot>(alloc: Global, name: &str, depot: &mut D) -> Result<Table, Stop>
    ensures place { FindsPlace name.now (seen D.Shelf depot.old) (seen D.Shelf depot.new) result }
    ensures valid { IfOk result (λ table. IsValidTable table) }
{
    let table = stored_table(alloc, depot)?;
    match find_room(alloc, depot, name) {
        Ok(()) => Ok(table),
        Err(fault) => Err(no_place(alloc, name, fault)),
    }
}

/// What is said of the segment of this name where its file is of rows: their image, or for `dump`
/// one that spells them.
pub fn said_of<D: Depot>(
    alloc: Global,
    aim: Aim,
    table: &Table,
    name: &str,
    depot: &mut D,
) -> Result<Bytes, Stop>
    requires { IsSegmentOf table.now name.now }
    ensures { FindsSegment aim table.now name.now
        (seen D.Shelf depot.old) (seen D.Shelf depot.new) result }
{
    match look_at(alloc, aim, table, name, depot) {
        Ok(text) => Ok(text),
        Err(fault) => Err(no_image(alloc, table, name, fault)),
    }
}

// The same, by the store.
fn look_at<D: Depot>(
    alloc: Global,
    aim: Aim,
    table: &Table,
    name: &str,
    depot: &mut D,
) -> Result<Bytes, StoreFault>
    requires { IsSegmentOf table.now name.now }
    ensures { LooksAtSegment (λ files text. IsSaid aim table.now files name.now text)
        (λ files part. IsFileOfNone aim table.now files name.now part) name.now
        (seen D.Shelf depot.old) (seen D.Shelf depot.new) result }
{
    match aim {
        Aim::Verify => verify_at(alloc, table, name, depot),
        Aim::Dump => spell_segment(alloc, depot, table, name),
    }
}

// How many rows its file is the image of, where it is one.
fn verify_at<D: Depot>(
    alloc: Global,
    table: &Table,
    name: &str,
    depot: &mut D,
) -> Result<Bytes, StoreFault>
    requires { IsSegmentOf table.now name.now }
    ensures { LooksAtSegment (λ files text. IsSaid Aim.Verify table.now files name.now text)
        (λ files part. IsFileOfNone Aim.Verify table.now files name.now part) name.now
        (seen D.Shelf depot.old) (seen D.Shelf depot.new) result }
{
    let rows = match count_segment(alloc, depot, table, name) {
        Ok(rows) => rows,
        Err(fault) => return Err(fault),
    };
    match verified(alloc, name, rows as usize) {
        Ok(text) => Ok(text),
        Err(_) => Err(StoreFault::NoMemory),
    }
}

// The reply that a segment has so many rows.
fn verified(alloc: Global, name: &str, rows: usize) -> Result<Bytes, AllocError>
    ensures { IfOk result (λ text. text ≡ verified_text name.now rows) }
{
    let mut text = name.as_bytes().to_vec(alloc)?;
    text.extend_from_slice(b" is a segment of ")?;
    let digits = rows.to_string(alloc)?;
    text.extend_from_slice(digits.as_bytes())?;
    text.extend_from_slice(b" rows\n")?;
    Ok(Seq::from_vec(text))
}

// What a fault of a look at a segment is for a command.
fn no_image(alloc: Global, table: &Table, name: &str, fault: StoreFault) -> Stop
    requires { IsCheckFault fault }
    ensures { IsCheckStop name.now table.now.schema.fields fault result }
{
    match fault {
        StoreFault::NoSegment => no_segment(alloc, name),
        StoreFault::NotASegment(part) => segment_stop(alloc, table, name, part),
        StoreFault::ReadFault => Stop::Fault(Fault::Read),
        StoreFault::NoMemory => Stop::Fault(Fault::Memory),
        StoreFault::TableExists
        | StoreFault::NoTable
        | StoreFault::NameTaken
        | StoreFault::TooManySegments
        | StoreFault::TooLarge
        | StoreFault::WriteFault => unreachable!(),
    }
}

/// The refusal of a name that no segment has.
pub fn no_segment(alloc: Global, name: &str) -> Stop
    ensures { IsMissingStop name.now result }
{
    match name.as_bytes().to_vec(alloc) {
        Ok(name) => Stop::Refused(Note::NoSegment(Seq::from_vec(name))),
        Err(_) => Stop::Fault(Fault::Memory),
    }
}

// What a fault of a look for a place is for a command.
fn no_place(alloc: Global, name: &str, fault: StoreFault) -> Stop
    requires { IsPlaceFault fault }
    ensures { IsPlaceStop name.now fault result }
{
    match fault {
        StoreFault::NameTaken => name_taken(alloc, name),
        StoreFault::TooManySegments => Stop::Refused(Note::TooLarge(
            Counted::Segments,
            MOST_SEGMENTS as u64,
        )),
        StoreFault::ReadFault => Stop::Fault(Fault::Read),
        StoreFault::NoMemory => Stop::Fault(Fault::Memory),
        StoreFault::TableExists
        | StoreFault::NoTable
        | StoreFault::NoSegment
        | StoreFault::TooLarge
        | StoreFault::NotASegment(_)
        | StoreFault::WriteFault => unreachable!(),
    }
}

// The refusal of a name that a segment has.
fn name_taken(alloc: Global, name: &str) -> Stop
    ensures { IsTakenStop name.now result }
{
    match name.as_bytes().to_vec(alloc) {
        Ok(name) => Stop::Refused(Note::NameTaken(Seq::from_vec(name))),
        Err(_) => Stop::Fault(Fault::Memory),
    }
}

// What a fault of a look at the store is for a command.
fn stop_of(alloc: Global, fault: StoreFault) -> Stop
    requires { IsLookFault fault }
    ensures { IsStopOf fault result }
{
    match fault {
        StoreFault::NoTable => Stop::Refused(Note::NoTable),
        StoreFault::NotASegment(_) => match not_a_table(alloc) {
            Ok(note) => Stop::Refused(note),
            Err(_) => Stop::Fault(Fault::Memory),
        },
        StoreFault::ReadFault => Stop::Fault(Fault::Read),
        StoreFault::NoMemory => Stop::Fault(Fault::Memory),
        StoreFault::TableExists
        | StoreFault::NameTaken
        | StoreFault::NoSegment
        | StoreFault::TooManySegments
        | StoreFault::TooLarge
        | StoreFault::WriteFault => unreachable!(),
    }
}

// The refusal of a table's file.
fn not_a_table(alloc: Global) -> Result<Note, AllocError>
    ensures { IfOk result (λ note. note ≡ Note.NotASegment table_name (codes "table")) }
{
    let name = Seq::from_vec(b"table".to_vec(alloc)?);
    let part = Seq::from_vec(b"table".to_vec(alloc)?);
    Ok(Note::NotASegment(name, part))
}
