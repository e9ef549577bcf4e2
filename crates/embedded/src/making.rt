//! The table of a store, made of texts or opened.
ghost use Rattle.std.specs.Prelude.{◌≡◌, ◌≤◌, IfErr, IfOk, MatchBool, length};
ghost use Rattle.outside.specs.Seen.{seen};
ghost use Rattle.table_schema.specs.ValidTable.{IsValidTable};
ghost use Rattle.table_store.specs.Accepted.{IsAccepted};
ghost use Rattle.table_store.specs.TableFile.{FitsTable, text_limit};
ghost use Rattle.embedded.specs.Making.{IsMade, IsNotMade, IsNotOpened, IsOpened, WhyNoTable, texts_of};
ghost use Rattle.embedded.specs.Stores.{over};

use crate::Fault;
use outside::Depot;
use schema_json::read_schema;
use settings_json::read_settings;
use std::alloc::Global;
use table_schema::Table;
use table_store::{TEXT_LIMIT, create_table, open_table};

/// Makes a table of two texts in a depot.
pub fn make_table<D: Depot>(
    alloc: Global,
    depot: &mut D,
    schema: &[u8],
    settings: &[u8],
) -> Result<Table, Fault>
    ensures valid { IfOk result (λ table. IsValidTable table) }
    ensures made { IfOk result (λ table. IsMade (texts_of schema.now settings.now)
        (seen D.Shelf depot.old) (over table (seen D.Shelf depot.new))) }
    ensures refused { IfErr result (IsNotMade (texts_of schema.now settings.now)
        (seen D.Shelf depot.old) (seen D.Shelf depot.new)) }
{
    let table = match table_of(alloc, schema, settings) {
        Ok(table) => table,
        Err(why) => return Err(why),
    };
    match create_table(alloc, depot, schema, settings) {
        Ok(()) => Ok(table),
        Err(fault) => Err(Fault::Store(fault)),
    }
}

/// The table that a depot has.
pub fn open_stored<D: Depot>(alloc: Global, depot: &mut D) -> Result<Table, Fault>
    ensures valid { IfOk result (λ table. IsValidTable table) }
    ensures opened { IfOk result (λ table. IsOpened
        (seen D.Shelf depot.old) (over table (seen D.Shelf depot.new))) }
    ensures refused { IfErr result (IsNotOpened
        (seen D.Shelf depot.old) (seen D.Shelf depot.new)) }
{
    match open_table(alloc, depot) {
        Ok(table) => Ok(table),
        Err(fault) => Err(Fault::Store(fault)),
    }
}

// The table that two texts make.
fn table_of(alloc: Global, schema: &[u8], settings: &[u8]) -> Result<Table, Fault>
    ensures valid { IfOk result (λ table. IsValidTable table) }
    ensures accepted { IfOk result (IsAccepted (texts_of schema.now settings.now)) }
    ensures refused { IfErr result (WhyNoTable (texts_of schema.now settings.now)) }
{
    if !(is_short(schema) && is_short(settings)) {
        return Err(Fault::TooLong(TEXT_LIMIT));
    }
    let schema = match read_schema(alloc, schema) {
        Ok(schema) => schema,
        Err(fault) => return Err(Fault::of_schema(fault)),
    };
    match read_settings(alloc, &schema, settings) {
        Ok(settings) => Ok(Table { schema, settings }),
        Err(fault) => Err(Fault::of_settings(fault)),
    }
}

// Whether a text of a table is within the limit.
fn is_short(text: &[u8]) -> bool
    ensures { MatchBool result (length text.now ≤ text_limit) (¬ (length text.now ≤ text_limit)) }
{
    text.len() as u64 <= TEXT_LIMIT
}
