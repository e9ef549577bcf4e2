//! The ids of the columns of a segment that are named, read from its file.

ghost use Rattle.std.specs.Prelude.{◌≡◌, ◌<◌, ◌++◌, ◌∷◌, [], ℕ, IfErr, IfOk, OnOk, None, false, true, get_or, length};
ghost use Rattle.outside.specs.Seen.{seen};
ghost use Rattle.column_reader.specs.Calls.{ReadsSections};
ghost use Rattle.column_reader.specs.Forward.{AreReadable, IsFaultAt, IsFaultIn, IsRead, IsReadable, LogsColumns, LogsNamed, LogsPartly, LogsSome};
ghost use Rattle.segment_head.specs.declared.fault.EngineFault.TheVariants.{NoMemory};

use crate::reading::read_column;
use crate::rooms::IdRooms;
use coded_columns::Ids;
use outside::Shelf;
use segment_head::{EngineFault, Head};

/// The ids of the columns that are named, by the numbers of their fields: the forward section of
/// each is read once, and nothing else.
pub fn read_columns<S: Shelf>(
    rooms: &mut IdRooms,
    shelf: &mut S,
    head: &Head,
    named: &[bool],
) -> Result<Vec<Option<Ids>>, EngineFault>
    requires { AreReadable head.now named.now }
    ensures count { IfOk result (λ all. length all.items ≡ length named.now) }
    ensures ids { IfOk result (λ all. (column : ℕ) → column < length named.now
        → IsRead (S.held shelf.old) head.now column (get_or named.now column false)
        (get_or all.items column None)) }
    ensures fault { IfErr result (IsFaultIn (S.held shelf.old) head.now named.now) }
    ensures reads { ReadsSections result
        (λ _. LogsColumns head.now named.now (length named.now)) (LogsSome head.now named.now)
        (seen S.Shelf shelf.old) (seen S.Shelf shelf.new) }
{
    let mut all = Vec::with_capacity(rooms.alloc(), named.len())?;
    for column in 0..named.len() {
        let ids = match read_named(rooms, shelf, head, column as u16, named[column]) {
            Ok(ids) => ids,
            Err(fault) => return Err(fault),
        };
        keep(&mut all, ids)?;
    }
    Ok(all)
}

/// Adds the ids of a column.
pub fn keep(all: &mut Vec<Option<Ids>>, ids: Option<Ids>) -> Result<(), EngineFault>
    ensures ok { OnOk result (all.new.items ≡ all.old.items ++ ids ∷ []) }
    ensures err { IfErr result (λ fault. fault ≡ NoMemory) }
{
    match all.push(ids) {
        Ok(()) => Ok(()),
        Err(_) => Err(EngineFault::NoMemory),
    }
}

// The ids of a column, if it is named.
fn read_named<S: Shelf>(
    rooms: &mut IdRooms,
    shelf: &mut S,
    head: &Head,
    column: u16,
    is_named: bool,
) -> Result<Option<Ids>, EngineFault>
    requires { is_named ≡ true → IsReadable head.now column }
    ensures ids { IfOk result (IsRead (S.held shelf.old) head.now column is_named) }
    ensures fault { IfErr result (IsFaultAt (S.held shelf.old) head.now column is_named) }
    ensures reads { ReadsSections result (λ _. LogsNamed head.now column is_named)
        (LogsPartly head.now column is_named)
        (seen S.Shelf shelf.old) (seen S.Shelf shelf.new) }
{
    if !is_named {
        return Ok(None);
    }
    match read_column(rooms, shelf, head, column) {
        Ok(ids) => Ok(Some(ids)),
        Err(fault) => Err(fault),
    }
}
