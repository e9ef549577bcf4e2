//! Tests on a value: which of the values 1 to 9 satisfy one, and whether it may hold from 3 to 5.

use crate::expect::Expectations;
use data_types::Seq;
use std::alloc::{AllocError, Global};
use values::{CompareOp, Test, Value, holds_value, may_hold};

fn number(number: i64) -> Value {
    Value::Whole(number)
}

fn holds(test: &Test, digit: u8) -> bool {
    let value = number(i64::from(digit.wrapping_sub(b'0')));
    let holds = holds_value(test, &value);
    drop(value);
    holds
}

fn may(test: &Test) -> bool {
    let least = number(3);
    let greatest = number(5);
    let may = may_hold(test, &least, &greatest);
    drop(least);
    drop(greatest);
    may
}

fn expect_held(test: &Test, held: &[u8], all: &Expectations) {
    for digit in b"123456789" {
        let is_held = holds(test, *digit) == held.contains(digit);
        all.expect(is_held, "a value satisfies a test");
    }
}

fn expect_test(test: Test, held: &str, may_be: bool, all: &Expectations) {
    expect_held(&test, held.as_bytes(), all);
    all.expect(may(&test) == may_be, "a test may hold within bounds");
    drop(test);
}

// A comparison with a number: its operator, the number, the values that satisfy it, whether it may
// hold.
type Comparison = (CompareOp, i64, &'static str, bool);

const COMPARISONS: &[Comparison] = &[
    (CompareOp::Equal, 5, "5", true),
    (CompareOp::Equal, 6, "6", false),
    (CompareOp::Unequal, 3, "12456789", true),
    (CompareOp::Less, 3, "12", false),
    (CompareOp::AtMost, 3, "123", true),
    (CompareOp::More, 5, "6789", false),
    (CompareOp::AtLeast, 5, "56789", true),
];

// BETWEEN: its bounds, whether it is negated, the values that satisfy it, whether it may hold.
type Between = (i64, i64, bool, &'static str, bool);

const BETWEEN: &[Between] = &[
    (5, 7, false, "567", true),
    (6, 7, false, "67", false),
    (4, 2, false, "", false),
    (3, 5, true, "126789", false),
    (4, 5, true, "1236789", true),
];

fn expect_comparison(row: &Comparison, all: &Expectations) {
    let (op, bound, held, may) = *row;
    expect_test(Test::Compare(op, number(bound)), held, may, all);
}

fn expect_between(row: &Between, all: &Expectations) {
    let (low, high, negated, held, may) = *row;
    let test = Test::Between(number(low), number(high), negated);
    expect_test(test, held, may, all);
}

pub fn comparisons(all: &Expectations) {
    for row in COMPARISONS {
        expect_comparison(row, all);
    }
    for row in BETWEEN {
        expect_between(row, all);
    }
    all.end("comparisons");
}

fn push_members(values: &mut Seq<Value>) -> Result<(), AllocError> {
    values.push(number(2))?;
    values.push(number(6))
}

fn push_pair(tests: &mut Seq<Test>, over: i64, under: i64) -> Result<(), AllocError> {
    tests.push(Test::Compare(CompareOp::More, number(over)))?;
    tests.push(Test::Compare(CompareOp::Less, number(under)))
}

// IN: whether it is negated, the values that satisfy it, whether it may hold.
type OneOf = (bool, &'static str, bool);

const ONE_OF: &[OneOf] = &[(false, "26", false), (true, "1345789", true)];

// Both bounds of a pair of tests, the values that satisfy both, whether they may hold.
type Pair = (i64, i64, &'static str, bool);

const ALL: &[Pair] = &[(1, 3, "2", false), (2, 5, "34", true)];

// The same of either.
const ANY: &[Pair] = &[(7, 4, "12389", true), (7, 3, "1289", false)];

// More than the first number, and less than the second. Where there is no memory it is fewer tests.
fn pair(alloc: Global, row: &Pair) -> Seq<Test> {
    let mut tests = Seq::new(alloc);
    let _pushed = push_pair(&mut tests, row.0, row.1).is_ok();
    tests
}

fn expect_one_of(alloc: Global, row: &OneOf, all: &Expectations) {
    let mut values = Seq::new(alloc);
    let _pushed = push_members(&mut values).is_ok();
    expect_test(Test::OneOf(values, row.0), row.1, row.2, all);
}

fn expect_all(alloc: Global, row: &Pair, all: &Expectations) {
    expect_test(Test::All(pair(alloc, row)), row.2, row.3, all);
}

fn expect_any(alloc: Global, row: &Pair, all: &Expectations) {
    expect_test(Test::Any(pair(alloc, row)), row.2, row.3, all);
}

// No tests at all.
fn expect_empty(alloc: Global, all: &Expectations) {
    expect_test(Test::All(Seq::new(alloc)), "123456789", true, all);
    expect_test(Test::Any(Seq::new(alloc)), "", false, all);
}

fn expect_pairs(alloc: Global, all: &Expectations) {
    for row in ALL {
        expect_all(alloc, row, all);
    }
    for row in ANY {
        expect_any(alloc, row, all);
    }
}

pub fn lists_of_tests(alloc: Global, all: &Expectations) {
    for row in ONE_OF {
        expect_one_of(alloc, row, all);
    }
    expect_pairs(alloc, all);
    expect_empty(alloc, all);
    all.end("lists of tests");
}
