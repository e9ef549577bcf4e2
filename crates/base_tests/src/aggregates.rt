//! Aggregates worked by hand.

ghost use Rattle.std.specs.Prelude.{◌≡◌, ◌∷◌, [], IfOk, length};
ghost use Rattle.agg_laws.specs.declared.aggregate_kind.AggKind.TheVariants as kind;
ghost use Rattle.agg_laws.specs.Kind.{width_of};
ghost use Rattle.agg_laws.specs.States.{kind_of, IsStored};

use crate::expect::Expectations;
use agg_laws::{
    AggKind, AggState, Aggregator, Average, AverageState, BadState, Count, Greatest, Kinds, Least,
    Sum, compare_states,
};
use state_columns::StateRow;
use std::alloc::{AllocError, Global};
use std::cmp::Ordering;

// Whether a state is written as the bytes, and read from them.
fn is_spelled(state: AggState, bytes: &[u8]) -> bool
    requires stored { IsStored state }
    requires width { length bytes.now ≡ width_of (kind_of state) }
{
    let mut out = [0xaa; 24];
    let out = &mut out[..bytes.len()];
    state.put(out);
    *out == *bytes && AggState::take(state.kind(), bytes) == Ok(state)
}

// Counts, sums and extremes.
fn expect_spelled(all: &Expectations) {
    let count = is_spelled(AggState::Count(258), &[0, 0, 0, 0, 0, 0, 1, 2]);
    all.expect(count, "a count");
    let sum = [0, 0, 0, 0, 0, 0, 0, 0, 0, 0, 0, 0, 0, 0, 2, 88];
    all.expect(is_spelled(AggState::Sum(600), &sum), "a sum");
    let minus = [
        255, 255, 255, 255, 255, 255, 255, 255, 255, 255, 255, 255, 255, 255, 255, 254,
    ];
    all.expect(is_spelled(AggState::Sum(-2), &minus), "a sum below 0");
    let least = [255, 255, 255, 255, 255, 255, 255, 255];
    all.expect(
        is_spelled(AggState::Least(Some(-1)), &least),
        "a least number",
    );
    let greatest = [128, 0, 0, 0, 0, 0, 0, 0];
    let state = AggState::Greatest(Some(-9223372036854775808));
    all.expect(is_spelled(state, &greatest), "a greatest number");
}

// Bytes that are no state of a kind, and what they would be.
const REFUSED: &[(AggKind, &[u8], &str)] = &[
    (AggKind::Count, &[0; 8], "a count of no value"),
    (
        AggKind::Count,
        &[0, 0, 0, 0, 0, 16, 0, 1],
        "a count of 1,048,577 values",
    ),
    (
        AggKind::Sum,
        &[0, 0, 0, 0, 0, 8, 0, 0, 0, 0, 0, 0, 0, 0, 0, 0],
        "a sum of 2 to the 83rd",
    ),
    (AggKind::Average, &[0; 24], "an average of no value"),
    (
        AggKind::Average,
        &[
            0, 0, 0, 0, 0, 0, 0, 0, 128, 0, 0, 0, 0, 0, 0, 0, 0, 0, 0, 0, 0, 0, 0, 1,
        ],
        "an average of 2 to the 63rd",
    ),
];

// Whether bytes that are as many as a state has are refused.
fn is_refused(kind: AggKind, bytes: &[u8]) -> bool {
    bytes.len() == kind.width() && AggState::take(kind, bytes) == Err(BadState)
}

fn expect_refused(all: &Expectations) {
    for (kind, bytes, what) in REFUSED {
        all.expect(is_refused(*kind, bytes), what);
    }
}

fn expect_averages(all: &Expectations) {
    let bytes = [
        255, 255, 255, 255, 255, 255, 255, 255, 255, 255, 255, 255, 255, 255, 255, 254, 0, 0, 0, 0,
        0, 0, 0, 3,
    ];
    let average = AggState::Average(AverageState { sum: -2, count: 3 });
    all.expect(is_spelled(average, &bytes), "an average");
}

pub fn stored_states(all: &Expectations) {
    expect_spelled(all);
    expect_refused(all);
    expect_averages(all);
    all.end("stored states");
}

fn expect_order(all: &Expectations) {
    let order = compare_states(
        &AggState::Average(AverageState { sum: -2, count: 3 }),
        &AggState::Average(AverageState { sum: -1, count: 2 }),
    );
    all.equal(order, Ordering::Less, "a lesser average");
    let order = compare_states(
        &AggState::Average(AverageState { sum: 2, count: 4 }),
        &AggState::Average(AverageState { sum: 1, count: 2 }),
    );
    all.equal(order, Ordering::Equal, "equal averages");
    let order = compare_states(&AggState::Least(Some(3)), &AggState::Least(Some(-4)));
    all.equal(order, Ordering::Greater, "least numbers");
    let order = compare_states(&AggState::Count(3), &AggState::Count(4));
    all.equal(order, Ordering::Less, "counts");
}

fn expect_sums(all: &Expectations) {
    let mut count = Count::unit();
    Count::add(&mut count, 4);
    Count::merge(&mut count, &2);
    all.expect(count == 3, "a count");
    let mut sum = Sum::unit();
    Sum::add(&mut sum, 4);
    Sum::merge(&mut sum, &-2);
    all.expect(sum == 2, "a sum");
}

fn expect_extremes(all: &Expectations) {
    let mut least = Least::unit();
    Least::add(&mut least, 4);
    Least::merge(&mut least, &Some(-7));
    Least::merge(&mut least, &None);
    all.equal(least, Some(-7), "a least number");
    let mut greatest = Greatest::unit();
    Greatest::add(&mut greatest, 4);
    Greatest::merge(&mut greatest, &Some(5));
    all.equal(greatest, Some(5), "a greatest number");
}

fn expect_average(all: &Expectations) {
    let mut average = Average::unit();
    Average::add(&mut average, 4);
    Average::merge(&mut average, &AverageState { sum: -2, count: 2 });
    all.equal(average, AverageState { sum: 2, count: 3 }, "an average");
}

pub fn states_of_values(all: &Expectations) {
    expect_sums(all);
    expect_extremes(all);
    expect_average(all);
    expect_order(all);
    all.end("aggregates");
}

pub fn sums_and_counts(alloc: Global) -> Result<Kinds, AllocError>
    ensures { IfOk result (λ kinds. kinds ≡ kind.Sum ∷ kind.Count ∷ []) }
{
    let mut kinds = Kinds::new(alloc);
    kinds.push(AggKind::Sum)?;
    kinds.push(AggKind::Count)?;
    Ok(kinds)
}

// A row of a sum and a count, of two values.
fn row_of_two(alloc: Global) -> Result<StateRow, AllocError> {
    let kinds = sums_and_counts(alloc)?;
    let mut row = StateRow::units(alloc, &kinds)?;
    row.add(&[600, 0]);
    let other = row.copy(alloc)?;
    row.merge(&other);
    Ok(row)
}

fn expect_row(row: &StateRow, all: &Expectations) {
    let wanted = [AggState::Sum(1200), AggState::Count(2)];
    all.equal(row.as_slice(), wanted.as_slice(), "a row and its copy");
    let is_second = row.len() > 1 && *row.at(1) == AggState::Count(2);
    all.expect(is_second, "a state of a row");
}

pub fn rows_of_states(alloc: Global, all: &Expectations) {
    if let Ok(row) = row_of_two(alloc) {
        expect_row(&row, all);
        drop(row);
    }
    all.end("rows of states");
}
