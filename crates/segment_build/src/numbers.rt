//! The numbers of columns, pair by pair.
ghost use Rattle.std.specs.Prelude.{◌≡◌, ◌≤◌, ◌<◌, ◌^◌, ℕ, [], get_or, length, map, pos, replicate, IfOk, OnOk};
ghost use Rattle.std.specs.List.{All};
ghost use Rattle.values.specs.Columns.{ListedColumns};
ghost use Rattle.star_rows.specs.Numbers.{numbers_of};
ghost use Rattle.segment_build.specs.Coded.{AreCodings, AreThere, GainsNumbers, HaveNumbers, IsCoding, columns_in, decoded};
ghost use Rattle.segment_build.specs.Numbers.{IsKnown, numbers_for, numbers_in};

use crate::coded::{CodedColumn, CodedColumns};
use crate::coding::gathered;
use outside::NoMemory;
use star_rows::{NumberColumns, PairNumbers};
use std::alloc::Global;
use table_schema::Pair;

/// A list for the numbers of each column, none of which are made yet.
pub(crate) fn no_numbers(alloc: Global, coded: &CodedColumns) -> Result<Vec<Vec<i64>>, NoMemory>
    ensures { IfOk result (λ made. HaveNumbers (columns_in coded.now)
        (map (λ v. v.items) made.items)) }
{
    let count = coded.columns.len();
    let mut made = Vec::with_capacity(alloc, count)?;
    'columns: for _ in 0..count {
        made.push(Vec::new(alloc))?;
    }
    Ok(made)
}

/// Makes the numbers of the columns of these pairs, where they are not there yet.
pub(crate) fn make_numbers(
    alloc: Global,
    coded: &CodedColumns,
    pairs: &[Pair],
    made: &mut Vec<Vec<i64>>,
) -> Result<(), NoMemory>
    requires coded { AreCodings coded.now }
    requires columns { All (λ pair. IsKnown (length coded.now.columns.items) pair.column)
        pairs.now }
    requires have { HaveNumbers (columns_in coded.now) (map (λ v. v.items) made.old.items) }
    ensures have { OnOk result (HaveNumbers (columns_in coded.now)
        (map (λ v. v.items) made.new.items)) }
    ensures there { OnOk result (All (λ pair. AreThere (columns_in coded.now)
        (map (λ v. v.items) made.new.items) pair.column) pairs.now) }
{
    'pairs: for pair in pairs {
        match pair.column {
            Some(column) => make_column(alloc, coded, column as usize, made)?,
            None => {}
        }
    }
    Ok(())
}

// Makes the numbers of a column, where they are not there yet.
fn make_column(
    alloc: Global,
    coded: &CodedColumns,
    at: usize,
    made: &mut Vec<Vec<i64>>,
) -> Result<(), NoMemory>
    requires coded { AreCodings coded.now }
    requires at { at < length coded.now.columns.items }
    requires have { HaveNumbers (columns_in coded.now) (map (λ v. v.items) made.old.items) }
    ensures { OnOk result (GainsNumbers (columns_in coded.now) at
        (map (λ v. v.items) made.old.items) (map (λ v. v.items) made.new.items)) }
{
    if made[at].is_empty() {
        made[at] = column_numbers(alloc, &coded.columns[at])?;
    }
    Ok(())
}

// The numbers of a column's rows; those of texts are zeros.
fn column_numbers(alloc: Global, column: &CodedColumn) -> Result<Vec<i64>, NoMemory>
    requires { IsCoding column.now }
    ensures { IfOk result (λ v. v.items ≡ numbers_in (decoded column.now)) }
{
    match column.values.dictionary().numbers() {
        Some(numbers) => {
            let mut ids = Vec::new(alloc);
            column.ids.put_all(&mut ids)?;
            gathered(alloc, ids.as_slice(), numbers)
        }
        None => zeros(alloc, column.ids.len()),
    }
}

// So many zeros.
fn zeros(alloc: Global, count: usize) -> Result<Vec<i64>, NoMemory>
    ensures { IfOk result (λ v. v.items ≡ replicate count (pos 0)) }
{
    let zeros = vec![in alloc; 0i64; count]?;
    Ok(zeros)
}

/// The numbers of these pairs for so many rows, where those of columns were made.
pub(crate) fn pair_numbers<'a>(
    alloc: Global,
    made: &'a [Vec<i64>],
    pairs: &[Pair],
    rows: u32,
) -> Result<NumberColumns<'a>, NoMemory>
    requires { All (λ pair. IsKnown (length made.now) pair.column) pairs.now }
    ensures { IfOk result (λ numbers. (t : ListedColumns) → t.count ≡ rows
        → All (λ pair. AreThere t (map (λ v. v.items) made.now) pair.column) pairs.now
        → numbers ≡ map (λ pair. numbers_for t pair.column) pairs.now) }
{
    let mut all = NumberColumns::new(alloc);
    'pairs: for pair in pairs {
        all.push(match pair.column {
            Some(column) => PairNumbers::Stored(made[column as usize].as_slice()),
            None => PairNumbers::Zeros(rows as usize),
        })?;
    }
    Ok(all)
}
