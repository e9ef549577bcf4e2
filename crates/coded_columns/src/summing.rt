//! The sums of the numbers of rows by their keys.

ghost use Rattle.std.specs.Prelude.{◌≡◌, ◌≢◌, ◌≤◌, ◌<◌, ◌-◌, ◌+ℤ◌, ℕ, get_or, length, pos};
ghost use Rattle.agg_laws.specs.Numbers.{AreWhole, SumFits, sum_of};
ghost use Rattle.value_ids.specs.Coding.{AreBelow};
ghost use Rattle.coded_columns.specs.Coded.{most_rows};
ghost use Rattle.coded_columns.specs.Keyed.{AreKeyed};
ghost use Rattle.coded_columns.specs.Slots.{in_slot};

/// Adds the number of each row to the sum of the row's key.
pub fn add_sums(keys: &[u32], numbers: &[i64], sums: &mut [i128])
    requires keyed { AreKeyed keys.now numbers.now }
    requires below { AreBelow (length sums.old) keys.now }
    requires fits { (key : ℕ) → key < length sums.old
        → SumFits (get_or sums.old key (pos 0)) (most_rows - length keys.now) }
    ensures { (key : ℕ) → get_or sums.new key (pos 0) ≡ get_or sums.old key (pos 0)
        +ℤ sum_of (in_slot key keys.now numbers.now) }
{
    if sums.len() == 1 {
        // No key is looked at.
        let total = total_of(numbers, sums[0]);
        set_sum(sums, total);
        return;
    }
    for k in 0..keys.len() {
        add_one(sums, keys[k] as usize, numbers[k]);
    }
}

// A sum and some numbers.
fn total_of(numbers: &[i64], sum: i128) -> i128
    requires at_most { length numbers.now ≤ most_rows }
    requires whole { AreWhole numbers.now }
    requires fits { SumFits sum (most_rows - length numbers.now) }
    ensures { result ≡ sum +ℤ sum_of numbers.now }
{
    let mut total = sum;
    for k in 0..numbers.len() {
        total = plus(total, numbers[k]);
    }
    total
}

// A sum and one number more.
#[inline(always)]
fn plus(sum: i128, number: i64) -> i128
    requires { SumFits sum most_rows }
    ensures { result ≡ sum +ℤ number }
{
    sum + number as i128
}

// Puts the first sum.
fn set_sum(sums: &mut [i128], sum: i128)
    requires { 0 < length sums.old }
    ensures own { get_or sums.new 0 (pos 0) ≡ sum }
    ensures others { (other : ℕ) → other ≢ 0
        → get_or sums.new other (pos 0) ≡ get_or sums.old other (pos 0) }
{
    sums[0] = sum;
}

// Adds a number to the sum of a key.
#[inline(always)]
fn add_one(sums: &mut [i128], key: usize, number: i64)
    requires key { key < length sums.old }
    requires fits { SumFits (get_or sums.old key (pos 0)) most_rows }
    ensures own { get_or sums.new key (pos 0) ≡ get_or sums.old key (pos 0) +ℤ number }
    ensures others { (other : ℕ) → other ≢ key
        → get_or sums.new other (pos 0) ≡ get_or sums.old other (pos 0) }
{
    sums[key] += number as i128;
}
