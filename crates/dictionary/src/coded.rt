//! The distinct values of a column, and the ids of its rows.
ghost use Rattle.std.specs.Prelude.{◌≡◌, ℤ, List, [], length, map, pos, IfOk};
ghost use Rattle.std.specs.List.{All};
ghost use Rattle.values.specs.declared.value.Value.TheVariants as value;
ghost use Rattle.value_ids.specs.Coding.{AreBelow, renumbered};
ghost use Rattle.value_ids.specs.Dictionary.{IsUnicode};
ghost use Rattle.dictionary.specs.Coded.{IsCodedColumn, SeesNumbers};
ghost use Rattle.dictionary.specs.Ranking.{at_places};

use crate::number_index::{CodedNumbers, code_numbers};
use crate::number_range::{push_number, ranged_numbers};
use crate::ranking::{Ranking, rank_numbers};
use crate::text_order::{TextOrder, order_texts};
use std::alloc::Global;
use value_ids::{ValueList, rank_places};
use values::{Column, NoMemory, Texts};

// So many distinct numbers are found by their hash; where there are more, all rows are sorted.
const MOST_HASHED: usize = 65_536;

/// The distinct values of a column, ascending, and for each row the place of its own among them.
#[derive(Drop)]
pub struct Coded {
    pub values: ValueList,
    pub ids: Vec<u32>,
}

/// The distinct values of a column, and the ids of its rows.
pub fn code_column(alloc: Global, column: &Column) -> Result<Coded, NoMemory>
    ensures { IfOk result (λ coded.
        IsCodedColumn column.now.values coded.values coded.ids.items) }
{
    if let Some(numbers) = column.as_numbers() {
        return coded_numbers(alloc, numbers);
    }
    match column.as_texts() {
        Some(texts) => coded_texts(alloc, texts),
        None => unreachable!(),
    }
}

fn coded_texts(alloc: Global, texts: &Texts) -> Result<Coded, NoMemory>
    ensures { IfOk result (λ coded.
        IsCodedColumn (map value.Text texts.now) coded.values coded.ids.items) }
{
    let (seen, ids) = texts.parts();
    let TextOrder { texts, ranking } = order_texts(alloc, seen)?;
    let ids = ranked(alloc, ids, &ranking.ranks)?;
    Ok(Coded {
        values: ValueList::of_texts(texts),
        ids,
    })
}

// The rank of each of these places.
fn ranked(alloc: Global, places: &[u32], ranks: &[u32]) -> Result<Vec<u32>, NoMemory>
    requires { AreBelow (length ranks.now) places.now }
    ensures { IfOk result (λ ids. ids.items ≡ renumbered ranks.now places.now) }
{
    let mut ids = Vec::with_capacity(alloc, places.len())?;
    for place in places {
        ids.push(ranks[*place as usize])?;
    }
    Ok(ids)
}

// Numbers near one another are coded by a table of their range. Of others these alone are sorted
// that are distinct, where they are few, and else those of all rows.
fn coded_numbers(alloc: Global, numbers: &[i64]) -> Result<Coded, NoMemory>
    ensures { IfOk result (λ coded.
        IsCodedColumn (map value.Whole numbers.now) coded.values coded.ids.items) }
{
    if let Some(CodedNumbers { seen, ids }) = ranged_numbers(alloc, numbers)? {
        return Ok(Coded {
            values: ValueList::of_numbers(seen),
            ids,
        });
    }
    match code_numbers(alloc, numbers, MOST_HASHED)? {
        Some(seen) => ranked_numbers(alloc, seen),
        None => sorted_numbers(alloc, numbers),
    }
}

// Numbers that were seen, some perhaps twice, in ascending order.
fn ranked_numbers(alloc: Global, coded: CodedNumbers) -> Result<Coded, NoMemory>
    requires { AreBelow (length coded.seen.items) coded.ids.items }
    ensures { IfOk result (λ r. (numbers : List ℤ) →
        SeesNumbers numbers coded.seen.items coded.ids.items →
        IsCodedColumn (map value.Whole numbers) r.values r.ids.items) }
{
    let CodedNumbers { seen, mut ids } = coded;
    let Ranking { order, ranks } = rank_numbers(alloc, &seen)?;
    let values = ValueList::of_numbers(numbers_at(alloc, &seen, &order)?);
    rank_places(&mut ids, &ranks);
    Ok(Coded { values, ids })
}

fn sorted_numbers(alloc: Global, numbers: &[i64]) -> Result<Coded, NoMemory>
    ensures { IfOk result (λ coded.
        IsCodedColumn (map value.Whole numbers.now) coded.values coded.ids.items) }
{
    let Ranking { order, ranks } = rank_numbers(alloc, numbers)?;
    let values = ValueList::of_numbers(numbers_at(alloc, numbers, &order)?);
    Ok(Coded { values, ids: ranks })
}

// The numbers at these places.
fn numbers_at(alloc: Global, numbers: &[i64], places: &[u32]) -> Result<Vec<i64>, NoMemory>
    requires { AreBelow (length numbers.now) places.now }
    ensures { IfOk result (λ own. own.items ≡ at_places (pos 0) numbers.now places.now) }
{
    let mut own = Vec::with_capacity(alloc, places.len())?;
    for place in places {
        push_number(&mut own, &numbers[*place as usize])?;
    }
    Ok(own)
}
