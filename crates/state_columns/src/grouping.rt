//! Words of documents by combination: the first of each combination, and the others.

ghost use Rattle.std.specs.Prelude.{◌≡◌, ◌<◌, ◌≤◌, ◌^◌, length, map, All, IfOk, slice_set};
ghost use Rattle.std.specs.Option.{IfSome};
ghost use Rattle.state_columns.specs.Packing.{place};
ghost use Rattle.state_columns.specs.Grouping.{first_words, key_of, numbered, IsSplit};

use crate::packing::Span;
use agg_laws::NoMemory;
use std::alloc::Global;

/// A table that has, for each combination, one more than the place of its first document, or 0; and
/// the words of the other documents.
#[derive(Drop)]
pub struct Parts {
    pub table: Vec<u32>,
    pub others: Vec<u64>,
}

/// The first document of each combination, ascending; for each combination one more than where it
/// stands among them, or 0; and the words of the other documents.
#[derive(Drop)]
pub struct Groups {
    pub firsts: Vec<u32>,
    pub slots: Vec<u32>,
    pub others: Vec<u64>,
}

/// How many combinations there are within some spans, where there are at most so many.
pub fn combinations(spans: &[Span], most: u32) -> Option<u32> {
    let mut count: u32 = 1;
    for span in spans {
        let next = count as u64 * (span.above as u64 + 1);
        if next > most as u64 {
            return None;
        }
        count = next as u32;
    }
    Some(count)
}

/// The combination of a word.
#[inline(always)]
pub fn word_key(word: u64) -> usize
    ensures { result ≡ key_of word }
{
    (word / 1048576) as usize
}

/// The number of the document of a word.
#[inline(always)]
pub fn word_place(word: u64, start: u32) -> u32
    ensures { result ≡ place start word }
{
    start.wrapping_add((word % 1048576) as u32)
}

/// Sets an entry of a table.
#[inline(always)]
fn mark(table: &mut Vec<u32>, key: usize, entry: u32)
    requires { key < length table.old.items }
    ensures { table.new.items ≡ slice_set table.old.items key entry }
{
    table[key] = entry;
}

/// Splits words into the first of each combination and the others. None where a combination is not
/// one of the first `keys`.
pub fn split_words(alloc: Global, words: Vec<u64>, keys: u32) -> Result<Option<Parts>, NoMemory>
    ensures { IfOk result (λ found. IfSome found (λ s. IsSplit words.items s.table.items
        s.others.items)) }
{
    let mut table: Vec<u32> = Vec::new(alloc);
    table.resize(keys as usize, 0)?;
    let mut others: Vec<u64> = Vec::with_capacity(alloc, words.len())?;
    for i in 0..words.len() {
        let word = words[i];
        let key = word_key(word);
        if key >= table.len() {
            return Ok(None);
        }
        if table[key] == 0 {
            mark(&mut table, key, (word % 1048576) as u32 + 1);
        } else {
            others.push(word)?;
        }
    }
    Ok(Some(Parts { table, others }))
}

/// The numbers of the first documents, ascending by combination.
pub fn first_numbers(alloc: Global, table: &[u32], start: u32) -> Result<Vec<u32>, NoMemory>
    requires { All (λ at. at ≤ 2 ^ 20) table.now }
    ensures { IfOk result (λ firsts. firsts.items ≡ map (place start) (first_words 0 table.now)) }
{
    let mut firsts: Vec<u32> = Vec::new(alloc);
    for key in 0..table.len() {
        let at = table[key];
        if at > 0 {
            firsts.push(start.wrapping_add(at - 1))?;
        }
    }
    Ok(firsts)
}

/// Where the first document of each combination stands among the first documents.
pub fn slots_of(alloc: Global, table: &[u32]) -> Result<Vec<u32>, NoMemory>
    requires { length table.now < 2 ^ 32 }
    ensures { IfOk result (λ slots. slots.items ≡ numbered 0 table.now) }
{
    let mut slots: Vec<u32> = Vec::with_capacity(alloc, table.len())?;
    let mut count: u32 = 0;
    for key in 0..table.len() {
        if table[key] > 0 {
            count += 1;
            slots.push(count)?;
        } else {
            slots.push(0)?;
        }
    }
    Ok(slots)
}
