//! The settings of star-trees.

ghost use Rattle.std.specs.Prelude.{◌≡◌, ◌<◌, ◌≤◌, ◌^◌, length, IfOk, IfErr, Some, None, map};
ghost use Rattle.serde_json.specs.View.{view};
ghost use Rattle.json_keys.specs.NamedColumns.{text_of, numbers_of};
ghost use Rattle.table_schema.specs.Columns.{number_of as number};
ghost use Rattle.json_keys.specs.Keys.{items_at};
ghost use Rattle.settings_parts.specs.Trees as spec;
ghost use Rattle.json_keys.specs.Faults.{Gives, Refuses, at_place};

use crate::pairs::read_pairs;
use agg_laws::{Kinds, TreeShape};
use data_types::Seq;
use json_keys::{
    KeyKind, TextFault, array_of, at_place, below, check_object, check_unused, column_at, fault_at,
    is_member, key_fault, key_of, optional_array, place_fault, read_leaf, text_at,
};
use serde_json::Value as Json;
use std::alloc::Global;
use table_schema::{Field, Fields, Pair, TreeSetting};
use values::NoMemory;

/// The most split dimensions of a star-tree.
const MOST_SPLITS: usize = 16;

/// The most star-trees of a table.
const MOST_TREES: usize = 8;

const SPLIT_KEY: &str = "dimensionsSplitOrder";

const SKIP_KEY: &str = "skipStarNodeCreationForDimensions";

const PAIRS_KEY: &str = "functionColumnPairs";

const TREES_KEY: &str = "starTreeIndexConfigs";

/// The key has to be there, with an array that is not empty.
fn needed_array<'v>(
    alloc: Global,
    base: &str,
    key: &str,
    json: &'v Json,
) -> Result<&'v [Json], TextFault>
    ensures ok { IfOk result
        (λ items. spec.needed_array base.now key.now (view json.now) ≡ None) }
    ensures items { IfOk result (λ items. map view items.now ≡ items_at key.now (view json.now)) }
    ensures err { IfErr result (Refuses (spec.needed_array base.now key.now (view json.now))) }
{
    let Some(value) = key_of(json, key) else {
        return Err(key_fault(alloc, KeyKind::MissingKey, base, key));
    };
    match array_of(value) {
        None => Err(key_fault(alloc, KeyKind::WrongKind, base, key)),
        Some([]) => Err(key_fault(alloc, KeyKind::MissingKey, base, key)),
        Some(items) => Ok(items),
    }
}

/// The numbers of the split dimensions.
fn read_split(alloc: Global, fields: Fields, base: &str, json: &Json) -> Result<Seq<u16>, TextFault>
    ensures split { Gives (spec.split_finding fields.entry.all.now base.now (view json.now))
        (spec.split_of fields.entry.all.now (view json.now)) result }
    ensures at_most { IfOk result (λ split. length split ≤ 16) }
{
    let items = needed_array(alloc, base, SPLIT_KEY, json)?;
    if items.len() > MOST_SPLITS {
        return Err(key_fault(alloc, KeyKind::TooMany, base, SPLIT_KEY));
    }
    let path = below(alloc, base, SPLIT_KEY)?;
    split_places(alloc, fields, path.as_str(), items)
}

fn split_places(
    alloc: Global,
    fields: Fields,
    path: &str,
    items: &[Json],
) -> Result<Seq<u16>, TextFault>
    ensures split { Gives (spec.split_places fields.entry.all.now path.now (map view items.now))
        (numbers_of fields.entry.all.now (map view items.now)) result }
    ensures at_most { IfOk result (λ split. length split ≤ length items.now) }
{
    let mut split = Seq::with_capacity(alloc, items.len())?;
    for (place, item) in items.iter().enumerate() {
        let number = split_place(alloc, fields, path, place, split.as_slice(), item)?;
        split.push(number)?;
    }
    Ok(split)
}

/// A split dimension, which is none of those before it.
fn split_place(
    alloc: Global,
    fields: Fields,
    path: &str,
    place: usize,
    split: &[u16],
    json: &Json,
) -> Result<u16, TextFault>
    ensures ok { IfOk result (λ number. spec.split_place fields.entry.all.now
        (at_place path.now place)
        split.now (view json.now) ≡ None) }
    ensures number { IfOk result
        (λ answer. number fields.entry.all.now (text_of (view json.now)) ≡ Some answer) }
    ensures err { IfErr result (Refuses
        (spec.split_place fields.entry.all.now (at_place path.now place) split.now
        (view json.now))) }
{
    let number = column_at(alloc, fields.all, path, place, json)?;
    if is_member(split, number) {
        return Err(place_fault(alloc, KeyKind::DuplicateColumn, path, place));
    }
    Ok(number)
}

/// The numbers of the dimensions for which no star child is made.
fn read_skips(
    alloc: Global,
    fields: Fields,
    base: &str,
    split: &[u16],
    json: &Json,
) -> Result<Seq<u16>, TextFault>
    ensures { Gives (spec.skip_finding fields.entry.all.now base.now split.now (view json.now))
        (spec.skips_of fields.entry.all.now (view json.now)) result }
{
    let items = optional_array(alloc, base, SKIP_KEY, json)?;
    let path = below(alloc, base, SKIP_KEY)?;
    skip_places(alloc, fields, path.as_str(), split, items)
}

fn skip_places(
    alloc: Global,
    fields: Fields,
    path: &str,
    split: &[u16],
    items: &[Json],
) -> Result<Seq<u16>, TextFault>
    ensures { Gives (spec.skip_places fields.entry.all.now path.now split.now (map view items.now))
        (numbers_of fields.entry.all.now (map view items.now)) result }
{
    let mut skips = Seq::new(alloc);
    for (place, item) in items.iter().enumerate() {
        let number = skip_place(alloc, fields, path, place, split, item)?;
        skips.push(number)?;
    }
    Ok(skips)
}

fn skip_place(
    alloc: Global,
    fields: Fields,
    path: &str,
    place: usize,
    split: &[u16],
    json: &Json,
) -> Result<u16, TextFault>
    ensures ok { IfOk result (λ number. spec.skip_place fields.entry.all.now
        (at_place path.now place)
        split.now (view json.now) ≡ None) }
    ensures number { IfOk result
        (λ answer. number fields.entry.all.now (text_of (view json.now)) ≡ Some answer) }
    ensures err { IfErr result (Refuses
        (spec.skip_place fields.entry.all.now (at_place path.now place) split.now
        (view json.now))) }
{
    let name = text_at(alloc, path, place, json)?;
    match Field::number_of(fields.all, name.as_bytes()) {
        Some(number) if is_member(split, number) => Ok(number),
        _ => Err(place_fault(alloc, KeyKind::UnknownColumn, path, place)),
    }
}

/// Bit i says whether split dimension i is skipped.
fn bits_of(skips: &[u16], split: &[u16]) -> u16
    requires { length split.now ≤ 16 }
    ensures bits { result ≡ spec.bits_of skips.now split.now }
    ensures fits { result < 2 ^ length split.now }
{
    match split {
        [] => 0,
        [first, rest @ ..] => u16::from(is_member(skips, *first)) + 2 * bits_of(skips, rest),
    }
}

fn kinds_of(alloc: Global, pairs: &[Pair]) -> Result<Kinds, NoMemory>
    ensures { IfOk result (λ kinds. kinds ≡ map (λ pair. pair.kind) pairs.now) }
{
    let mut kinds = Kinds::new(alloc);
    for pair in pairs {
        kinds.push(pair.kind)?;
    }
    Ok(kinds)
}

fn tree_pairs(
    alloc: Global,
    fields: Fields,
    base: &str,
    json: &Json,
) -> Result<Seq<Pair>, TextFault>
    ensures { Gives (spec.tree_pairs_finding fields.entry.all.now base.now (view json.now))
        (spec.tree_pairs_of fields.entry.all.now (view json.now)) result }
{
    let items = needed_array(alloc, base, PAIRS_KEY, json)?;
    let path = below(alloc, base, PAIRS_KEY)?;
    read_pairs(alloc, fields, path.as_str(), items)
}

fn read_tree(
    alloc: Global,
    fields: Fields,
    base: &str,
    json: &Json,
) -> Result<TreeSetting, TextFault>
    ensures { Gives (spec.tree_finding fields.entry.all.now base.now (view json.now))
        (spec.tree_of fields.entry.all.now (view json.now)) result }
{
    check_object(alloc, base, json)?;
    check_unused(alloc, base, "aggregationConfigs", json)?;
    let split = read_split(alloc, fields, base, json)?;
    let skips = read_skips(alloc, fields, base, split.as_slice(), json)?;
    let pairs = tree_pairs(alloc, fields, base, json)?;
    let leaf = read_leaf(alloc, base, json)?;
    let shape = TreeShape {
        dims: split.len() as u8,
        skipped: bits_of(skips.as_slice(), split.as_slice()),
        leaf,
        kinds: kinds_of(alloc, pairs.as_slice())?,
    };
    Ok(TreeSetting {
        split,
        pairs,
        shape,
    })
}

/// The star-trees of the object at `base`.
pub(crate) fn read_trees(
    alloc: Global,
    fields: Fields,
    base: &str,
    json: &Json,
) -> Result<Seq<TreeSetting>, TextFault>
    ensures { Gives (spec.trees_finding fields.entry.all.now base.now (view json.now))
        (spec.trees_of fields.entry.all.now (view json.now)) result }
{
    let items = optional_array(alloc, base, TREES_KEY, json)?;
    if items.len() > MOST_TREES {
        return Err(key_fault(alloc, KeyKind::TooMany, base, TREES_KEY));
    }
    let path = below(alloc, base, TREES_KEY)?;
    tree_places(alloc, fields, path.as_str(), items)
}

fn tree_places(
    alloc: Global,
    fields: Fields,
    path: &str,
    items: &[Json],
) -> Result<Seq<TreeSetting>, TextFault>
    ensures { Gives (spec.tree_places fields.entry.all.now path.now (map view items.now))
        (map (spec.tree_of fields.entry.all.now) (map view items.now)) result }
{
    let mut trees = Seq::new(alloc);
    for (place, item) in items.iter().enumerate() {
        let base = at_place(alloc, path, place)?;
        let tree = read_tree(alloc, fields, base.as_str(), item)?;
        trees.push(tree)?;
    }
    Ok(trees)
}
