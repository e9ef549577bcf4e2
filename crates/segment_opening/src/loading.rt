//! The dictionaries of a segment that a query wants are loaded.
ghost use Rattle.std.specs.Prelude.{◌≡◌, ◌≢◌, ◌<◌, true, false, IfOk, IfSome, ℕ, OnOk, get_or, length};
ghost use Rattle.outside.specs.Seen.{seen};
ghost use Rattle.segment_head.specs.Heads.{IsHeadOf, IsLoaded, IsPartOf, OfWhole};
ghost use Rattle.segment_plan.specs.Matched.{AreLoaded};
ghost use Rattle.table_schema.specs.ValidTable.{IsValidTable};
ghost use Rattle.segment_opening.specs.Calls.{HasWanted, IsQueryOnHead, LoadsMore};
ghost use Rattle.segment_opening.specs.Emptied.{IsEmptied};
ghost use Rattle.segment_opening.specs.Found.{AreFound, IsFoundBeside};
ghost use Rattle.segment_opening.specs.Wanted.{AreFactorsLoaded};
ghost use Rattle.segment_opening.specs.declared.asked.Found as spec;
ghost use Rattle.segment_opening.specs.declared.loaded.Loaded.TheVariants as kind;

use crate::asked::{asked_by, some_shares_none};
use crate::emptied::is_emptied;
use crate::found::{load_others, look_up};
use crate::loaded::Loaded;
use crate::small::is_emptied_by_small;
use crate::wanted::{detailed_columns, wanted_columns};
use outside::Shelf;
use segment_head::{EngineFault, Head, Matched, engine_fault};
use std::alloc::Global;
use table_schema::{BoundQuery, Table};

/// Loads the dictionaries that the answer of a segment wants, but for those of columns that can be
/// looked up where they lie, unless a conjunct is known to match no value of its column: then no
/// large one is loaded.
pub fn load_or_look_up<S: Shelf>(
    alloc: Global,
    shelf: &mut S,
    table: &Table,
    query: &BoundQuery,
    by_tree: bool,
    head: &mut Head,
) -> Result<Loaded, EngineFault>
    requires { IsQueryOnHead query.now table.now head.old }
    ensures loads { LoadsMore table.now result head.old head.new
        (seen S.Shelf shelf.old) (seen S.Shelf shelf.new) }
    ensures emptied { IfOk result (λ loaded. loaded ≡ kind.Emptied →
        IsEmptied query.now table.now (S.held shelf.old) head.old) }
    ensures wanted { IfOk result (λ loaded. loaded ≡ kind.Wanted →
        HasWanted query.now by_tree head.new) }
    ensures found { IfOk result (λ loaded. (found : spec.Found) → loaded ≡ kind.But found →
        IsFoundBeside query.now table.now (S.held shelf.old) by_tree head.old head.new
        found.conjuncts found.counts.items) }
{
    match look_up(alloc, shelf, table, query, by_tree, head) {
        Ok(Some(found)) => load_but(alloc, shelf, table, query, found.as_slice(), head),
        Ok(None) => match load_unless_emptied(alloc, shelf, table, query, by_tree, head) {
            Ok(true) => Ok(Loaded::Wanted),
            Ok(false) => Ok(Loaded::Emptied),
            Err(fault) => Err(fault),
        },
        Err(fault) => Err(fault),
    }
}

/// Loads the dictionaries that the plan of a segment and what is said of it want, and no other: of
/// the columns that a conjunct names alone, and where this star-tree is picked those that the bound
/// on its documents is made of.
pub fn load_detailed<S: Shelf>(
    alloc: Global,
    shelf: &mut S,
    table: &Table,
    query: &BoundQuery,
    tree: Option<u8>,
    head: &mut Head,
) -> Result<(), EngineFault>
    requires asked { IsQueryOnHead query.now table.now head.old }
    requires tree { IfSome tree (λ n. n < length table.now.settings.trees) }
    ensures loads { LoadsMore table.now result head.old head.new
        (seen S.Shelf shelf.old) (seen S.Shelf shelf.new) }
    ensures filtered { OnOk result (AreLoaded query.now.conjuncts head.new) }
    ensures factors { OnOk result (AreFactorsLoaded query.now table.now tree head.new) }
{
    let detailed = detailed_columns(alloc, query, table, tree, table.schema.fields.len())?;
    load_marked(alloc, shelf, table, detailed.as_slice(), head)
}

// Loads the dictionaries that the answer of a segment wants, unless a conjunct is known to match no
// value of its column: then no large one is loaded. Answers whether they were loaded.
fn load_unless_emptied<S: Shelf>(
    alloc: Global,
    shelf: &mut S,
    table: &Table,
    query: &BoundQuery,
    by_tree: bool,
    head: &mut Head,
) -> Result<bool, EngineFault>
    requires { IsQueryOnHead query.now table.now head.old }
    ensures loads { LoadsMore table.now result head.old head.new
        (seen S.Shelf shelf.old) (seen S.Shelf shelf.new) }
    ensures wanted { IfOk result (λ loaded. loaded ≡ true →
        HasWanted query.now by_tree head.new) }
    ensures emptied { IfOk result (λ loaded. loaded ≡ false →
        IsEmptied query.now table.now (S.held shelf.old) head.old) }
{
    match is_emptied(alloc, shelf, table, query, head) {
        Ok(true) => return Ok(false),
        Ok(false) => {}
        Err(fault) => return Err(fault),
    }
    load_unless_small(alloc, shelf, table, query, by_tree, head)
}

// The same by small dictionaries, which are loaded before large ones.
fn load_unless_small<S: Shelf>(
    alloc: Global,
    shelf: &mut S,
    table: &Table,
    query: &BoundQuery,
    by_tree: bool,
    head: &mut Head,
) -> Result<bool, EngineFault>
    requires { IsQueryOnHead query.now table.now head.old }
    ensures loads { LoadsMore table.now result head.old head.new
        (seen S.Shelf shelf.old) (seen S.Shelf shelf.new) }
    ensures wanted { IfOk result (λ loaded. loaded ≡ true →
        HasWanted query.now by_tree head.new) }
    ensures emptied { IfOk result (λ loaded. loaded ≡ false →
        IsEmptied query.now table.now (S.held shelf.old) head.old) }
{
    match is_emptied_by_small(alloc, shelf, table, query, head) {
        Ok(emptied) => {
            if emptied {
                return Ok(false);
            }
        }
        Err(fault) => return Err(fault),
    }
    match load_wanted(alloc, shelf, table, query, by_tree, head) {
        Ok(()) => Ok(true),
        Err(fault) => Err(fault),
    }
}

// Loads the dictionaries that the answer of a segment wants, and no other: where a star-tree
// answers, of the columns that a conjunct names alone and of the group columns; else of each column
// that the query names.
fn load_wanted<S: Shelf>(
    alloc: Global,
    shelf: &mut S,
    table: &Table,
    query: &BoundQuery,
    by_tree: bool,
    head: &mut Head,
) -> Result<(), EngineFault>
    requires { IsQueryOnHead query.now table.now head.old }
    ensures loads { LoadsMore table.now result head.old head.new
        (seen S.Shelf shelf.old) (seen S.Shelf shelf.new) }
    ensures wanted { OnOk result (HasWanted query.now by_tree head.new) }
{
    let wanted = wanted_columns(alloc, query, by_tree, table.schema.fields.len())?;
    load_marked(alloc, shelf, table, wanted.as_slice(), head)
}

// Loads what the answer wants but for the columns that were looked up, if some value of each of
// these satisfies the conjuncts on it.
fn load_but<S: Shelf>(
    alloc: Global,
    shelf: &mut S,
    table: &Table,
    query: &BoundQuery,
    found: &[Matched],
    head: &mut Head,
) -> Result<Loaded, EngineFault>
    requires asked { IsQueryOnHead query.now table.now head.old }
    requires found { AreFound query.now table.now (S.held shelf.old) head.old found.now }
    ensures loads { LoadsMore table.now result head.old head.new
        (seen S.Shelf shelf.old) (seen S.Shelf shelf.new) }
    ensures emptied { IfOk result (λ loaded. loaded ≡ kind.Emptied →
        IsEmptied query.now table.now (S.held shelf.old) head.old) }
    ensures never { IfOk result (λ loaded. loaded ≢ kind.Wanted) }
    ensures found { IfOk result (λ loaded. (f : spec.Found) → loaded ≡ kind.But f →
        IsFoundBeside query.now table.now (S.held shelf.old) false head.old head.new f.conjuncts
        f.counts.items) }
{
    let conjuncts = query.conjuncts.as_slice();
    if some_shares_none(conjuncts, found) {
        return Ok(Loaded::Emptied);
    }
    let asked = asked_by(alloc, conjuncts, found, table.schema.fields.len())?;
    match load_others(alloc, shelf, table, query, head) {
        Ok(()) => Ok(Loaded::But(asked)),
        Err(fault) => Err(fault),
    }
}

/// Loads the dictionary of each column that is marked, and no other.
pub(crate) fn load_marked<S: Shelf>(
    alloc: Global,
    shelf: &mut S,
    table: &Table,
    marks: &[bool],
    head: &mut Head,
) -> Result<(), EngineFault>
    requires valid { IsValidTable table.now }
    requires of_table { IsHeadOf table.now head.old }
    requires each { length marks.now ≡ length table.now.schema.fields }
    ensures loads { LoadsMore table.now result head.old head.new
        (seen S.Shelf shelf.old) (seen S.Shelf shelf.new) }
    ensures loaded { OnOk result ((column : ℕ) → column < length table.now.schema.fields →
        get_or marks.now column false ≡ true → IsLoaded head.new column) }
{
    'columns: for column in 0..table.schema.fields.len() {
        match load_if(alloc, shelf, table, marks[column], column as u16, head) {
            Ok(()) => {}
            Err(fault) => return Err(fault),
        }
    }
    Ok(())
}

// Loads the dictionary of one column, if it is marked.
fn load_if<S: Shelf>(
    alloc: Global,
    shelf: &mut S,
    table: &Table,
    marked: bool,
    column: u16,
    head: &mut Head,
) -> Result<(), EngineFault>
    requires of_table { IsHeadOf table.now head.old }
    requires column { column < length table.now.schema.fields }
    ensures loads { LoadsMore table.now result head.old head.new
        (seen S.Shelf shelf.old) (seen S.Shelf shelf.new) }
    ensures loaded { OnOk result (marked ≡ true → IsLoaded head.new column) }
{
    if !marked {
        return Ok(());
    }
    load_one(alloc, shelf, table, column, head)
}

/// Loads the dictionary of one column.
pub(crate) fn load_one<S: Shelf>(
    alloc: Global,
    shelf: &mut S,
    table: &Table,
    column: u16,
    head: &mut Head,
) -> Result<(), EngineFault>
    requires of_table { IsHeadOf table.now head.old }
    requires column { column < length table.now.schema.fields }
    ensures loads { LoadsMore table.now result head.old head.new
        (seen S.Shelf shelf.old) (seen S.Shelf shelf.new) }
    ensures loaded { OnOk result (IsLoaded head.new column) }
    ensures part { OnOk result (OfWhole table.now (S.held shelf.old) head.old
        (λ whole. IsPartOf whole head.new)) }
{
    match head.load_dictionary(alloc, shelf, table, column) {
        Ok(()) => Ok(()),
        Err(fault) => Err(engine_fault(fault)),
    }
}
