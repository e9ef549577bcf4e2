//! What is under `tableIndexConfig`.

ghost use Rattle.std.specs.Prelude.{◌≡◌, ◌∷◌, [], ◌<◌, length, IfOk, IfErr, map, None};
ghost use Rattle.std.specs.List.{slice_get};
ghost use Rattle.serde_json.specs.Data.{null};
ghost use Rattle.serde_json.specs.View.{view};
ghost use Rattle.json_keys.specs.Keys.{items_at};
ghost use Rattle.settings_parts.specs.IndexLists.{AreIndexLists};
ghost use Rattle.settings_parts.specs.Indexes as spec;
ghost use Rattle.settings_parts.specs.Trees.{trees_finding};
ghost use Rattle.json_keys.specs.NamedColumns.{columns_finding};
ghost use Rattle.table_schema.specs.Firsts.{first_of};
ghost use Rattle.table_schema.specs.NeedIds as ids;
ghost use Rattle.json_keys.specs.Faults.{Gives, Passes, Refuses, at_place};

use crate::columns::{columns, named};
use crate::sorted::read_sorted;
use crate::trees::read_trees;
use data_types::{Name, Seq};
use json_keys::{
    KeyKind, TextFault, below, check_not, check_object, fault_at, is_member, place_fault,
};
use serde_json::Value as Json;
use std::alloc::Global;
use table_schema::{Field, Fields, Role, Settings, TreeSetting};
use values::NoMemory;

/// The key of the object that names the indexes.
pub const INDEX_KEY: &str = "tableIndexConfig";

const INVERTED_KEY: &str = "invertedIndexColumns";

const RANGE_KEY: &str = "rangeIndexColumns";

const RAW_KEY: &str = "noDictionaryColumns";

/// The settings of a table of that name.
pub fn read_indexes(
    alloc: Global,
    fields: Fields,
    table: Name,
    json: &Json,
) -> Result<Settings, TextFault>
    ensures { Gives (spec.index_finding fields.entry.all.now table (view json.now))
        (spec.indexed fields.entry.all.now table (view json.now)) result }
{
    let (settings, raw) = indexed(alloc, fields, table, json)?;
    let path = below(alloc, INDEX_KEY, RAW_KEY)?;
    check_raw(alloc, fields, &settings, path.as_str(), raw)?;
    Ok(settings)
}

/// The settings in which no index is named.
pub fn unindexed(alloc: Global, fields: &[Field], table: Name) -> Result<Settings, NoMemory>
    ensures { IfOk result (λ settings. settings ≡ spec.indexed fields.now table null) }
{
    Ok(Settings {
        table,
        sorted: None,
        inverted: named(alloc, fields, &[])?,
        ranged: named(alloc, fields, &[])?,
        raw: named(alloc, fields, &[])?,
        trees: Seq::new(alloc),
    })
}

/// The settings, with the columns that are to be kept without a dictionary.
fn indexed<'v>(
    alloc: Global,
    fields: Fields,
    table: Name,
    json: &'v Json,
) -> Result<(Settings, &'v [Json]), TextFault>
    ensures ok { IfOk result (λ both. spec.index_form fields.entry.all.now (view json.now) ≡ None) }
    ensures settings { IfOk result
        (λ both. both.0 ≡ spec.indexed fields.entry.all.now table (view json.now)) }
    ensures raw { IfOk result
        (λ both. map view both.1.now ≡ items_at spec.RAW_KEY (view json.now)) }
    ensures err { IfErr result (Refuses (spec.index_form fields.entry.all.now (view json.now))) }
{
    let keys = index_keys(alloc, fields, json)?;
    let inverted = named(alloc, fields.all, keys.inverted)?;
    let ranged = named(alloc, fields.all, keys.ranged)?;
    let raw = named(alloc, fields.all, keys.raw)?;
    let settings = Settings {
        table,
        sorted: keys.sorted,
        inverted,
        ranged,
        raw,
        trees: keys.trees,
    };
    Ok((settings, keys.raw))
}

// What the keys say, with lists of columns as the text has them.
#[derive(Drop)]
struct IndexKeys<'v> {
    sorted: Option<u16>,
    inverted: &'v [Json],
    ranged: &'v [Json],
    raw: &'v [Json],
    trees: Seq<TreeSetting>,
}

fn index_keys<'v>(alloc: Global, fields: Fields, json: &'v Json) -> Result<IndexKeys<'v>, TextFault>
    ensures ok { IfOk result (λ keys. spec.index_form fields.entry.all.now (view json.now) ≡ None) }
    ensures sorted { IfOk result
        (λ keys. keys.sorted ≡ spec.sorted_of fields.entry.all.now (view json.now)) }
    ensures lists { IfOk result (AreIndexLists fields.entry.all.now (view json.now)) }
    ensures err { IfErr result (Refuses (spec.index_form fields.entry.all.now (view json.now))) }
{
    check_object(alloc, INDEX_KEY, json)?;
    check_not(alloc, true, INDEX_KEY, "nullHandlingEnabled", json)?;
    let sorted = read_sorted(alloc, fields, INDEX_KEY, json)?;
    index_lists(alloc, fields, sorted, json)
}

fn index_lists<'v>(
    alloc: Global,
    fields: Fields,
    sorted: Option<u16>,
    json: &'v Json,
) -> Result<IndexKeys<'v>, TextFault>
    ensures ok { IfOk result (λ keys. first_of
        (columns_finding fields.entry.all.now spec.INDEX_KEY spec.INVERTED_KEY (view json.now)
        ∷ columns_finding fields.entry.all.now spec.INDEX_KEY spec.RANGE_KEY (view json.now)
        ∷ columns_finding fields.entry.all.now spec.INDEX_KEY spec.RAW_KEY (view json.now)
        ∷ trees_finding fields.entry.all.now spec.INDEX_KEY (view json.now) ∷ []) ≡ None) }
    ensures sorted { IfOk result (λ keys. keys.sorted ≡ sorted) }
    ensures lists { IfOk result (AreIndexLists fields.entry.all.now (view json.now)) }
    ensures err { IfErr result (Refuses (first_of
        (columns_finding fields.entry.all.now spec.INDEX_KEY spec.INVERTED_KEY (view json.now)
        ∷ columns_finding fields.entry.all.now spec.INDEX_KEY spec.RANGE_KEY (view json.now)
        ∷ columns_finding fields.entry.all.now spec.INDEX_KEY spec.RAW_KEY (view json.now)
        ∷ trees_finding fields.entry.all.now spec.INDEX_KEY (view json.now) ∷ []))) }
{
    let inverted = columns(alloc, fields, INDEX_KEY, INVERTED_KEY, json)?;
    let ranged = columns(alloc, fields, INDEX_KEY, RANGE_KEY, json)?;
    let raw = columns(alloc, fields, INDEX_KEY, RAW_KEY, json)?;
    let trees = read_trees(alloc, fields, INDEX_KEY, json)?;
    Ok(IndexKeys {
        sorted,
        inverted,
        ranged,
        raw,
        trees,
    })
}

/// No metric that is to be kept without a dictionary needs its ids.
fn check_raw(
    alloc: Global,
    fields: Fields,
    settings: &Settings,
    path: &str,
    items: &[Json],
) -> Result<(), TextFault>
    requires { spec.HasFlags fields.all.now settings.now }
    ensures { Passes (spec.raw_places fields.entry.all.now settings.now path.now
        (map view items.now)) result }
{
    for (place, item) in items.iter().enumerate() {
        check_raw_place(alloc, fields, settings, path, place, item)?;
    }
    Ok(())
}

fn check_raw_place(
    alloc: Global,
    fields: Fields,
    settings: &Settings,
    path: &str,
    place: usize,
    json: &Json,
) -> Result<(), TextFault>
    requires { spec.HasFlags fields.all.now settings.now }
    ensures { Passes (spec.raw_place fields.entry.all.now settings.now (at_place path.now place)
        (view json.now)) result }
{
    let name = json.as_str().unwrap_or("");
    match Field::number_of(fields.all, name.as_bytes()) {
        Some(number) if misfits(fields.all, settings, number) => {
            Err(place_fault(alloc, KeyKind::Unsupported, path, place))
        }
        _ => Ok(()),
    }
}

/// Whether the column is a metric that is looked up by its ids.
fn misfits(fields: &[Field], settings: &Settings, number: u16) -> bool
    requires number { number < length fields.now }
    requires flags { spec.HasFlags fields.now settings.now }
    ensures { result ≡ spec.misfits_at fields.now settings.now number }
{
    matches!(fields[usize::from(number)].role, Role::Metric) && needs_ids(settings, number)
}

fn needs_ids(settings: &Settings, number: u16) -> bool
    requires inverted { number < length settings.now.inverted }
    requires ranged { number < length settings.now.ranged }
    ensures { result ≡ ids.needs_ids settings.now number }
{
    is_the_number(number, settings.sorted)
        || *settings.inverted.at(usize::from(number))
        || *settings.ranged.at(usize::from(number))
        || is_split(settings.trees.as_slice(), number)
}

fn is_the_number(number: u16, other: Option<u16>) -> bool
    ensures { result ≡ ids.is_the_number number other }
{
    match other {
        Some(other) => other == number,
        None => false,
    }
}

fn is_split(trees: &[TreeSetting], number: u16) -> bool
    ensures { result ≡ ids.is_split trees.now number }
{
    for tree in trees {
        if is_member(tree.split.as_slice(), number) {
            return true;
        }
    }
    false
}
