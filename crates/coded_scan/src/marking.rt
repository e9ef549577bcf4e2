//! Marks of the rows of a block.

ghost use Rattle.std.specs.Prelude.{◌≡◌, ◌<◌, ◌≤◌, ◌+◌, ◌-◌, ◌*◌, ◌^◌, ◌&&◌, ◌||◌, ℕ, Bool, false, cond, length, get_or, nat_le};
ghost use Rattle.std.specs.Bool.{OnTrue};
ghost use Rattle.std.specs.Int.{bit_at};
ghost use Rattle.value_ids.specs.Ids.{IsIdSet, has_id};
ghost use Rattle.coded_columns.specs.Ids.{seen_ids};
ghost use Rattle.coded_scan.specs.Marks.{AreMarks, HasMarks, HasWords, IsWithMark, is_between, is_marked};

use crate::id_run::run_at;
use coded_columns::IdSlices;
use std::simd::prelude::*;
use value_ids::IdSet;

/// An id in two bytes is less.
const MOST_NARROW: u32 = 65_536;

/// A set of so many runs is marked run by run.
const MOST_RUNS: usize = 8;

/// Marks the rows whose id is in a set: run by run where it has few, else row by row.
pub fn mark_ids(ids: IdSlices<'_>, matching: &IdSet, words: &mut [u64])
    requires { HasWords (length (seen_ids ids)) words.old }
    ensures { AreMarks (length (seen_ids ids.entry)) (λ row. has_id matching.now
        (get_or (seen_ids ids.entry) row 0)) words.new }
{
    if mark_runs(ids, matching.as_slice(), words) {
        return;
    }
    mark_set(ids, matching, words);
}

// Marks the rows whose id is in a set of few runs, and tells whether these are all.
fn mark_runs(ids: IdSlices<'_>, matching: &[u32], words: &mut [u64]) -> bool
    requires words { HasWords (length (seen_ids ids)) words.old }
    requires ascends { IsIdSet matching.now }
    ensures { OnTrue result (AreMarks (length (seen_ids ids.entry)) (λ row. has_id matching.now
        (get_or (seen_ids ids.entry) row 0)) words.new) }
{
    mark_same(ids.count(), false, words);
    let mut start = 0;
    for _ in 0..MOST_RUNS {
        if start == matching.len() {
            return true;
        }
        let run = run_at(matching, start);
        add_run(ids, run.first, run.more, words);
        start += run.more as usize + 1;
    }
    start == matching.len()
}

// The same row by row.
fn mark_set(ids: IdSlices<'_>, matching: &IdSet, words: &mut [u64])
    requires { HasWords (length (seen_ids ids)) words.old }
    ensures { AreMarks (length (seen_ids ids.entry)) (λ row. has_id matching.now
        (get_or (seen_ids ids.entry) row 0)) words.new }
{
    match ids {
        IdSlices::Narrow(ids) => mark_narrow(ids, matching, words),
        IdSlices::Wide(ids) => mark_wide(ids, matching, words),
    }
}

// The same where an id takes two bytes.
fn mark_narrow(ids: &[u16], matching: &IdSet, words: &mut [u64])
    requires { HasWords (length ids.now) words.old }
    ensures { AreMarks (length ids.now) (λ row. has_id matching.now (get_or ids.now row 0))
        words.new }
{
    for at in 0..words.len() {
        words[at] = narrow_word(ids, 64 * at, matching);
    }
}

// The same where an id takes four bytes.
fn mark_wide(ids: &[u32], matching: &IdSet, words: &mut [u64])
    requires { HasWords (length ids.now) words.old }
    ensures { AreMarks (length ids.now) (λ row. has_id matching.now (get_or ids.now row 0))
        words.new }
{
    for at in 0..words.len() {
        words[at] = wide_word(ids, 64 * at, matching);
    }
}

// The marks of at most 64 rows whose ids take two bytes.
#[inline(always)]
fn narrow_word(ids: &[u16], from: usize, matching: &IdSet) -> u64
    requires { from < 2 ^ 32 }
    ensures { HasMarks (is_marked (length ids.now) (λ row. has_id matching.now
        (get_or ids.now row 0))) from result }
{
    let end = ids.len().min(from + 64);
    let mut word = 0;
    for at in from..end {
        word = with_mark(
            word,
            (at - from) as u32,
            matching.contains(u32::from(ids[at])),
        );
    }
    word
}

// The same where an id takes four bytes.
#[inline(always)]
fn wide_word(ids: &[u32], from: usize, matching: &IdSet) -> u64
    requires { from < 2 ^ 32 }
    ensures { HasMarks (is_marked (length ids.now) (λ row. has_id matching.now
        (get_or ids.now row 0))) from result }
{
    let end = ids.len().min(from + 64);
    let mut word = 0;
    for at in from..end {
        word = with_mark(word, (at - from) as u32, matching.contains(ids[at]));
    }
    word
}

// Adds the marks of the rows whose id is one of a run of so many ids after a first.
fn add_run(ids: IdSlices<'_>, first: u32, more: u32, words: &mut [u64])
    requires words { HasWords (length (seen_ids ids)) words.old }
    requires run { first + more < 2 ^ 32 }
    ensures { (holds : ℕ → Bool) → AreMarks (length (seen_ids ids.entry)) holds words.old
        → AreMarks (length (seen_ids ids.entry)) (λ row. holds row
        || is_between first (first + more) (get_or (seen_ids ids.entry) row 0)) words.new }
{
    for at in 0..words.len() {
        words[at] |= run_word(ids, 64 * at, first, more);
    }
}

// The marks of at most 64 rows.
#[inline(always)]
fn run_word(ids: IdSlices<'_>, from: usize, first: u32, more: u32) -> u64
    requires from { from < 2 ^ 32 }
    requires run { first + more < 2 ^ 32 }
    ensures { HasMarks (is_marked (length (seen_ids ids.entry))
        (λ row. is_between first (first + more) (get_or (seen_ids ids.entry) row 0))) from result }
{
    if ids.count() < from + 64 {
        return rest_of_run(ids, from, first, more);
    }
    match ids {
        IdSlices::Narrow(ids) => narrow_run(ids, from, first, more),
        IdSlices::Wide(ids) => wide_lanes(u32x64::from_slice(&ids[from..]), first, more),
    }
}

// The marks of less than 64 rows.
fn rest_of_run(ids: IdSlices<'_>, from: usize, first: u32, more: u32) -> u64
    requires few { length (seen_ids ids) < from + 64 }
    requires from { from < 2 ^ 32 }
    requires run { first + more < 2 ^ 32 }
    ensures { HasMarks (is_marked (length (seen_ids ids.entry))
        (λ row. is_between first (first + more) (get_or (seen_ids ids.entry) row 0))) from result }
{
    let mut word = 0;
    for at in from..ids.count() {
        word = with_mark(word, (at - from) as u32, is_in_run(ids.at(at), first, more));
    }
    word
}

// Whether an id is one of so many after a first.
#[inline(always)]
fn is_in_run(id: u32, first: u32, more: u32) -> bool
    requires { first + more < 2 ^ 32 }
    ensures { result ≡ is_between first (first + more) id }
{
    first <= id && id <= first + more
}

// The marks of 64 rows whose ids take two bytes each.
#[inline(always)]
fn narrow_run(ids: &[u16], from: usize, first: u32, more: u32) -> u64
    requires there { from + 64 ≤ length ids.now }
    requires run { first + more < 2 ^ 32 }
    ensures { HasMarks (is_marked (length ids.now) (λ row. is_between first (first + more)
        (get_or ids.now row 0))) from result }
{
    if first >= MOST_NARROW {
        return 0;
    }
    let most = more.min(MOST_NARROW - 1 - first);
    narrow_lanes(u16x64::from_slice(&ids[from..]), first as u16, most as u16)
}

// A bit for each lane, whether it is one of a run of ids.
#[inline(always)]
fn narrow_lanes(lanes: u16x64, first: u16, more: u16) -> u64
    requires { first + more < 2 ^ 16 }
    ensures { (i : ℕ) → i < 64 → bit_at result i
        ≡ cond (is_between first (first + more) (get_or lanes i 0)) 1 0 }
{
    if more == 0 {
        return lanes.simd_eq(u16x64::splat(first)).to_bitmask();
    }
    (lanes - u16x64::splat(first))
        .simd_le(u16x64::splat(more))
        .to_bitmask()
}

// The same where an id takes four bytes.
#[inline(always)]
fn wide_lanes(lanes: u32x64, first: u32, more: u32) -> u64
    requires { first + more < 2 ^ 32 }
    ensures { (i : ℕ) → i < 64 → bit_at result i
        ≡ cond (is_between first (first + more) (get_or lanes i 0)) 1 0 }
{
    if more == 0 {
        return lanes.simd_eq(u32x64::splat(first)).to_bitmask();
    }
    (lanes - u32x64::splat(first))
        .simd_le(u32x64::splat(more))
        .to_bitmask()
}

// A word of so many marks, with one more.
#[inline(always)]
fn with_mark(word: u64, at: u32, mark: bool) -> u64
    requires at { at < 64 }
    requires word { word < 2 ^ at }
    ensures { IsWithMark at mark word result }
{
    word | u64::from(mark) << at
}

/// Marks so many rows, or none.
pub fn mark_same(many: usize, holds: bool, words: &mut [u64])
    requires { HasWords many words.old }
    ensures { AreMarks many (λ row. holds) words.new }
{
    for at in 0..words.len() {
        words[at] = same_word(many, 64 * at, holds);
    }
}

// The same marks of at most 64 rows.
#[inline(always)]
fn same_word(many: usize, from: usize, holds: bool) -> u64
    requires { from < 2 ^ 32 }
    ensures { HasMarks (is_marked many (λ row. holds)) from result }
{
    if !holds || many <= from {
        return 0;
    }
    let rest = many - from;
    if rest >= 64 {
        return u64::MAX;
    }
    (1 << rest as u32) - 1
}
