//! What columns have in the rows of some words, gathered column by column.

ghost use Rattle.std.specs.Prelude.{◌≡◌, ◌-◌, ◌<◌, ◌≤◌, ℤ, length, map, take, drop, get_or, All};
ghost use Rattle.std.specs.Prelude.{pos, replicate, true, false, IfOk};
ghost use Rattle.star_records.specs.Folding.{picked, AllZero, AreHeads, AreZero};
ghost use Rattle.star_rows.specs.Numbers.{numbers_of};
ghost use Rattle.star_rows.specs.Words.{row_in};

use crate::NoMemory;
use outside::Seq;
use star_rows::{MOST_ROWS, NumberColumns, PairNumbers, repeats};
use std::alloc::Global;

/// The words from one number up to another.
#[derive(Clone, Copy)]
pub(crate) struct Block {
    pub from: usize,
    pub to: usize,
    ghost ordered: { from ≤ to },
}

/// The words that have not the key of the one before them, and for each word how many of these came
/// before it.
#[derive(Drop)]
pub(crate) struct Heads {
    pub words: Vec<u32>,
    pub slots: Vec<usize>,
}

/// What columns have in the rows of some words.
pub(crate) fn columns_at<T: Copy>(
    alloc: Global,
    columns: &Seq<Seq<T>>,
    words: &[u32],
) -> Result<Seq<Seq<T>>, NoMemory>
    requires { All (λ column. All (λ word. row_in word < length column) words.now) columns.now }
    ensures { IfOk result (λ block. (d : T) → block ≡ picked d words.now columns.now) }
{
    let mut block = Vec::with_capacity(alloc, columns.len())?;
    for i in 0..columns.len() {
        let items = column_at(alloc, columns.at(i).as_slice(), words)?;
        block.push(Seq::from_vec(items))?;
    }
    Ok(Seq::from_vec(block))
}

/// The same for columns of numbers, where it is known of some that they have zeros alone.
pub(crate) fn numbers_at(
    alloc: Global,
    columns: &NumberColumns,
    zeros: &[bool],
    words: &[u32],
) -> Result<Seq<Seq<i64>>, NoMemory>
    requires below { All (λ column. All (λ word. row_in word
        < length column) words.now) columns.now }
    requires zeros { AreZero zeros.now columns.now }
    ensures { IfOk result (λ block. (d : ℤ) → block ≡ picked d words.now columns.now) }
{
    let mut block = Vec::with_capacity(alloc, columns.len())?;
    for i in 0..columns.len() {
        let items = number_column(alloc, columns.at(i), zeros[i], words)?;
        block.push(Seq::from_vec(items))?;
    }
    Ok(Seq::from_vec(block))
}

/// Of each column whether it has zeros alone.
pub(crate) fn zero_columns(alloc: Global, columns: &NumberColumns) -> Result<Vec<bool>, NoMemory>
    ensures { IfOk result (λ zeros. AreZero zeros.items columns.now) }
{
    let mut zeros = Vec::with_capacity(alloc, columns.len())?;
    for i in 0..columns.len() {
        zeros.push(are_zeros(columns.at(i)))?;
    }
    Ok(zeros)
}

/// Those words of a block that have not the key of the one before them.
pub(crate) fn heads_of(alloc: Global, words: &[u32], block: Block) -> Result<Heads, NoMemory>
    requires { block.to ≤ length words.now }
    ensures { IfOk result
        (λ heads. AreHeads words.now block.from block.to heads.words.items heads.slots.items) }
{
    let mut heads = Vec::new(alloc);
    let mut slots = Vec::with_capacity(alloc, block.to - block.from)?;
    for at in block.from..block.to {
        slots.push(heads.as_slice().len())?;
        if !repeats(words, at) {
            heads.push(words[at])?;
        }
    }
    Ok(Heads {
        words: heads,
        slots,
    })
}

/// The words of a block.
pub(crate) fn part(words: &[u32], block: Block) -> &[u32]
    requires { block.to ≤ length words.now }
    ensures { result.now ≡ take (block.to - block.from) (drop block.from words.now) }
{
    &words[block.from..block.to]
}

// What a column has in the rows of some words.
fn column_at<T: Copy>(alloc: Global, column: &[T], words: &[u32]) -> Result<Vec<T>, NoMemory>
    requires { All (λ word. row_in word < length column.now) words.now }
    ensures { IfOk result
        (λ v. (d : T) → v.items ≡ map (λ word. get_or column.now (row_in word) d) words.now) }
{
    let mut items = Vec::with_capacity(alloc, words.len())?;
    for word in words {
        items.push(column[(*word % MOST_ROWS) as usize])?;
    }
    Ok(items)
}

// The same of numbers, where it may be known that all are zeros.
fn number_column(
    alloc: Global,
    column: PairNumbers,
    is_zero: bool,
    words: &[u32],
) -> Result<Vec<i64>, NoMemory>
    requires below { All (λ word. row_in word < length (numbers_of column)) words.now }
    requires zero { is_zero ≡ true → AllZero (numbers_of column) }
    ensures { IfOk result (λ v. (d : ℤ) → v.items
        ≡ map (λ word. get_or (numbers_of column.entry) (row_in word) d) words.now) }
{
    if is_zero {
        return zeros(alloc, words.len());
    }
    match column {
        PairNumbers::Stored(numbers) => column_at(alloc, numbers, words),
        PairNumbers::Zeros(_) => zeros(alloc, words.len()),
    }
}

// So many zeros.
fn zeros(alloc: Global, count: usize) -> Result<Vec<i64>, NoMemory>
    ensures { IfOk result (λ v. v.items ≡ replicate count (pos 0)) }
{
    let zeros = vec![in alloc; 0i64; count]?;
    Ok(zeros)
}

// Whether the numbers of a pair are zeros alone.
fn are_zeros(column: PairNumbers) -> bool
    ensures { result ≡ true → AllZero (numbers_of column.entry) }
{
    match column {
        PairNumbers::Stored(numbers) => is_zero(numbers),
        PairNumbers::Zeros(_) => true,
    }
}

// Whether there are zeros alone.
fn is_zero(numbers: &[i64]) -> bool
    ensures { result ≡ true → AllZero numbers.now }
{
    for i in 0..numbers.len() {
        if numbers[i] != 0 {
            return false;
        }
    }
    true
}
