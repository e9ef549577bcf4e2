//! The groups of a table in order.

ghost use Rattle.std.specs.Prelude.{◌≡◌, ◌<◌, ◌≤◌, ◌+◌, ◌*◌, ◌^◌, ◌++◌, IfOk, OnOk, length, map, slice_index};
ghost use Rattle.std.specs.Prelude.{flat_map};
ghost use Rattle.std.specs.Fork.{slice_chunk};
ghost use Rattle.std.specs.List.{All};
ghost use Rattle.group_table.specs.Kept.{group_at};
ghost use Rattle.broker_merge.specs.Rank.{AreFair, HasGroup, IsItem, IsOrderOf, places_of, seen_at, seen_of};
ghost use Rattle.broker_merge.specs.Ranked.{AreKept, AreRanked, BeginInOrder};

use crate::rank::{Place, Rank};
use group_table::GroupsIn;
use std::alloc::Global;
use table_schema::{Item, OrderKey};
use values::NoMemory;

/// The places of the first so many of some groups of a table, in order. Where there are more, these
/// are chosen before they are sorted.
pub fn ordered(
    alloc: Global,
    table: &GroupsIn<'_>,
    kept: &[u32],
    order: &[OrderKey],
    most: u128,
) -> Result<Vec<u32>, NoMemory>
    requires of_table { IsOrderOf table.now order.now }
    requires at_most { length order.now ≤ 16 }
    requires kept { AreKept table.now kept.now }
    ensures { IfOk result (λ v. BeginInOrder table.now
        (map (group_at table.now) kept.now) order.now most v.items) }
{
    let places = all_places(alloc, table, kept, order)?;
    let mut ranked = ranked(alloc, &places, order.len() + 1, kept.len() as u32)?;
    if most < ranked.len() as u128 {
        let (first, _, _) = ranked.select_nth_unstable(most as usize);
        first.sort_unstable();
        places_in(alloc, kept, first)
    } else {
        ranked.sort_unstable();
        places_in(alloc, kept, &ranked)
    }
}

// What a group shows at an item.
fn rank_at<'a>(table: &'a GroupsIn<'_>, at: u32, item: Item) -> Rank<'a>
    requires group { HasGroup table.now at }
    requires item { IsItem table.now item }
    ensures shown { seen_of result ≡ seen_at (group_at table.now at) item }
    ensures fair { 0 < table.now.columns → AreFair (seen_of result) }
{
    match item {
        Item::Group(place) => Rank::Value(table.key_at(at).at(place as usize)),
        Item::Agg(place) => Rank::State(table.state_at(at, place)),
    }
}

// Adds what a group is compared by.
fn push_places<'a>(
    table: &'a GroupsIn<'_>,
    at: u32,
    order: &[OrderKey],
    places: &mut Vec<Place<'a>>,
) -> Result<(), NoMemory>
    requires of_table { IsOrderOf table.now order.now }
    requires at { at < length table.now.groups }
    ensures { OnOk result (places.new.items
        ≡ places.old.items ++ places_of order.now (group_at table.now at)) }
{
    for key in order {
        places.push(Place::new(rank_at(table, at, key.item), key.descending))?;
    }
    places.push(Place::new(Rank::Key(table.key_at(at)), false))?;
    Ok(())
}

// What the groups at these places are compared by, one after the other.
fn all_places<'a>(
    alloc: Global,
    table: &'a GroupsIn<'_>,
    kept: &[u32],
    order: &[OrderKey],
) -> Result<Vec<Place<'a>>, NoMemory>
    requires of_table { IsOrderOf table.now order.now }
    requires at_most { length order.now ≤ 16 }
    requires below { All (λ at. at < length table.now.groups) kept.now }
    requires few { length kept.now < 2 ^ 32 }
    ensures { IfOk result (λ v. v.items
        ≡ flat_map (λ at. places_of order.now (group_at table.now at)) kept.now) }
{
    let mut places = Vec::with_capacity(alloc, kept.len() * (order.len() + 1))?;
    for at in kept {
        push_places(table, *at, order, &mut places)?;
    }
    Ok(places)
}

// What the group at a place is compared by.
fn shown_at<'a>(places: &'a [Place<'a>], width: usize, at: u32) -> &'a [Place<'a>]
    requires width { width ≤ 17 }
    requires at { at * width + width ≤ length places.now }
    ensures { result.now ≡ slice_chunk places.now width at }
{
    let start = at as usize * width;
    &places[start..start + width]
}

// The numbers from 0 on, each with its share of what is compared.
fn ranked<'a>(
    alloc: Global,
    places: &'a [Place<'a>],
    width: usize,
    count: u32,
) -> Result<Vec<(&'a [Place<'a>], u32)>, NoMemory>
    requires width { width ≤ 17 }
    requires whole { length places.now ≡ count * width }
    ensures { IfOk result (λ v. AreRanked places.now width count v.items) }
{
    let mut ranked = Vec::with_capacity(alloc, count as usize)?;
    for at in 0..count {
        ranked.push((shown_at(places, width, at), at))?;
    }
    Ok(ranked)
}

// The places of these numbers.
fn places_in(
    alloc: Global,
    kept: &[u32],
    ranked: &[(&[Place<'_>], u32)],
) -> Result<Vec<u32>, NoMemory>
    requires { All (λ r. r.1 < length kept.now) ranked.now }
    ensures { IfOk result (λ v. v.items ≡ map (λ r. slice_index kept.now r.1) ranked.now) }
{
    let mut places = Vec::with_capacity(alloc, ranked.len())?;
    for (_, number) in ranked {
        places.push(kept[*number as usize])?;
    }
    Ok(places)
}
