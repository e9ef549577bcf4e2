//! The pairs of a star-tree: a function, `__` and a column.

ghost use Rattle.std.specs.Prelude.{◌≡◌, ◌<◌, ◌≤◌, ◌+◌, length, IfOk, IfErr, IfSome, OnOk, Some, None, map};
ghost use Rattle.serde_json.specs.View.{view};
ghost use Rattle.json_keys.specs.NamedColumns.{text_of};
ghost use Rattle.settings_parts.specs.Pairs as spec;
ghost use Rattle.json_keys.specs.Faults.{Gives, Refuses, at_place};

use agg_laws::AggKind;
use data_types::{FieldKind, Seq};
use json_keys::{KeyKind, TextFault, fault_at, place_fault, text_at};
use serde_json::Value as Json;
use std::alloc::Global;
use table_schema::{Field, Fields, Pair};
use values::NoMemory;

/// The most pairs of a star-tree.
pub(crate) const MOST_PAIRS: usize = 16;

/// The function of a name, in any case.
fn function_named(name: &[u8]) -> Option<AggKind>
    ensures { result ≡ spec.function_named name.now }
{
    if name.eq_ignore_ascii_case(b"COUNT") {
        Some(AggKind::Count)
    } else if name.eq_ignore_ascii_case(b"SUM") {
        Some(AggKind::Sum)
    } else if name.eq_ignore_ascii_case(b"MIN") {
        Some(AggKind::Least)
    } else if name.eq_ignore_ascii_case(b"MAX") {
        Some(AggKind::Greatest)
    } else if name.eq_ignore_ascii_case(b"AVG") {
        Some(AggKind::Average)
    } else {
        None
    }
}

fn begins_low(text: &[u8]) -> bool
    ensures { result ≡ spec.begins_low text.now }
{
    match text {
        [first, ..] => *first == b'_',
        [] => false,
    }
}

/// The place of the first `__`.
fn mark_of(text: &[u8]) -> Option<usize>
    ensures mark { result ≡ spec.mark_from 0 text.now }
    ensures within { IfSome result (λ at. at + 2 ≤ length text.now) }
{
    for (at, byte) in text.iter().enumerate() {
        if *byte == b'_' && begins_low(&text[at + 1..]) {
            return Some(at);
        }
    }
    None
}

/// The pair that a text is. COUNT takes `*` or any field, the others a field of numbers.
fn pair_of(fields: Fields, text: &[u8]) -> Option<Pair>
    ensures { result ≡ spec.pair_of fields.entry.all.now text.now }
{
    let at = mark_of(text)?;
    let function = function_named(&text[..at])?;
    pair_by(fields, function, &text[at + 2..])
}

fn pair_by(fields: Fields, function: AggKind, column: &[u8]) -> Option<Pair>
    ensures { result ≡ spec.pair_by fields.entry.all.now function column.now }
{
    match function {
        AggKind::Count
            if column == b"*".as_slice() || Field::number_of(fields.all, column).is_some() => Some(
            Pair {
                kind: AggKind::Count,
                column: None,
            },
        ),
        AggKind::Count => None,
        AggKind::Sum | AggKind::Least | AggKind::Greatest | AggKind::Average => {
            numeric_pair(fields.all, function, Field::number_of(fields.all, column)?)
        }
    }
}

fn numeric_pair(fields: &[Field], function: AggKind, number: u16) -> Option<Pair>
    requires { number < length fields.now }
    ensures { result ≡ spec.numeric_pair fields.now function number }
{
    match fields[usize::from(number)].kind {
        FieldKind::Text => None,
        FieldKind::Int | FieldKind::Long => Some(Pair {
            kind: function,
            column: Some(number),
        }),
    }
}

fn keep_pair(kept: &mut Seq<Pair>, pair: Pair) -> Result<(), NoMemory>
    ensures { OnOk result (kept.new ≡ spec.with_pair kept.old pair) }
{
    if kept.as_slice().contains(&pair) {
        return Ok(());
    }
    kept.push(pair)
}

fn pair_at(
    alloc: Global,
    fields: Fields,
    path: &str,
    place: usize,
    json: &Json,
) -> Result<Pair, TextFault>
    ensures ok { IfOk result
        (λ pair. spec.pair_finding fields.entry.all.now (at_place path.now place) (view json.now)
        ≡ None) }
    ensures pair { IfOk result
        (λ pair. spec.pair_of fields.entry.all.now (text_of (view json.now)) ≡ Some pair) }
    ensures err { IfErr result
        (Refuses (spec.pair_finding fields.entry.all.now (at_place path.now place)
        (view json.now))) }
{
    let text = text_at(alloc, path, place, json)?;
    match pair_of(fields, text.as_bytes()) {
        Some(pair) => Ok(pair),
        None => Err(place_fault(alloc, KeyKind::BadPair, path, place)),
    }
}

/// The pairs of the array at `path`, without those that an earlier place gives.
pub(crate) fn read_pairs(
    alloc: Global,
    fields: Fields,
    path: &str,
    items: &[Json],
) -> Result<Seq<Pair>, TextFault>
    ensures { Gives (spec.pairs_finding fields.entry.all.now path.now (map view items.now))
        (spec.pairs_of fields.entry.all.now (map view items.now)) result }
{
    let kept = kept_pairs(alloc, fields, path, items)?;
    if kept.len() > MOST_PAIRS {
        return Err(fault_at(alloc, KeyKind::TooMany, path));
    }
    Ok(kept)
}

fn kept_pairs(
    alloc: Global,
    fields: Fields,
    path: &str,
    items: &[Json],
) -> Result<Seq<Pair>, TextFault>
    ensures { Gives (spec.pair_places fields.entry.all.now path.now (map view items.now))
        (spec.pairs_of fields.entry.all.now (map view items.now)) result }
{
    let mut kept = Seq::new(alloc);
    for (place, item) in items.iter().enumerate() {
        let pair = pair_at(alloc, fields, path, place, item)?;
        keep_pair(&mut kept, pair)?;
    }
    Ok(kept)
}
