//! Tests of one value.

ghost use Rattle.std.specs.Prelude.{◌≡◌};
ghost use Rattle.std.specs.Bool.{OnFalse};
ghost use Rattle.values.specs.Tests.{op_holds, holds, is_member, is_between, may_hold, compare_may, some_between, one_of_may, between_may, is_at_most, NoneHolds};

use crate::{Value, compare};
use data_types::Seq;
use std::cmp::Ordering;

/// How two values are compared.
#[derive(Clone, Copy, Debug, PartialEq, Eq)]
pub enum CompareOp {
    Equal,
    Unequal,
    Less,
    AtMost,
    More,
    AtLeast,
}

/// A test of one value. The bool says negated.
#[derive(Debug, Drop)]
pub enum Test {
    Compare(CompareOp, Value),
    OneOf(Seq<Value>, bool),
    Between(Value, Value, bool),
    All(Seq<Test>),
    Any(Seq<Test>),
}

/// Whether the value satisfies the test.
pub fn holds_value(test: &Test, value: &Value) -> bool
    ensures { result ≡ holds value.now test.now }
{
    match test {
        Test::Compare(op, bound) => op_holds(*op, compare(value, bound)),
        Test::OneOf(members, negated) => is_member(members.as_slice(), value) != *negated,
        Test::Between(low, high, negated) => is_between(low, value, high) != *negated,
        Test::All(tests) => {
            for test in tests.as_slice() {
                if !holds_value(test, value) {
                    return false;
                }
            }
            true
        }
        Test::Any(tests) => {
            for test in tests.as_slice() {
                if holds_value(test, value) {
                    return true;
                }
            }
            false
        }
    }
}

/// Whether the test may hold of some value from `least` to `greatest`.
pub fn may_hold(test: &Test, least: &Value, greatest: &Value) -> bool
    ensures rule { result ≡ may_hold least.now greatest.now test.now }
    ensures excludes { OnFalse result (NoneHolds least.now greatest.now test.now) }
{
    may_hold_inside(test, least, greatest)
}

fn may_hold_inside(test: &Test, least: &Value, greatest: &Value) -> bool
    ensures { result ≡ may_hold least.now greatest.now test.now }
{
    match test {
        Test::Compare(op, bound) => compare_may(*op, least, bound, greatest),
        Test::OneOf(members, negated) => {
            one_of_may(*negated, members.as_slice(), least, greatest)
        }
        Test::Between(low, high, negated) => between_may(*negated, low, high, least, greatest),
        Test::All(tests) => {
            for test in tests.as_slice() {
                if !may_hold_inside(test, least, greatest) {
                    return false;
                }
            }
            true
        }
        Test::Any(tests) => {
            for test in tests.as_slice() {
                if may_hold_inside(test, least, greatest) {
                    return true;
                }
            }
            false
        }
    }
}

/// Whether a comparison holds of values that are in this order.
#[inline(always)]
pub fn op_holds(op: CompareOp, order: Ordering) -> bool
    ensures { result ≡ op_holds op order }
{
    match op {
        CompareOp::Equal => order.is_eq(),
        CompareOp::Unequal => order.is_ne(),
        CompareOp::Less => order.is_lt(),
        CompareOp::AtMost => order.is_le(),
        CompareOp::More => order.is_gt(),
        CompareOp::AtLeast => order.is_ge(),
    }
}

fn is_member(members: &[Value], value: &Value) -> bool
    ensures { result ≡ is_member members.now value.now }
{
    members.iter().any(|member| value == member)
}

fn is_between(low: &Value, value: &Value, high: &Value) -> bool
    ensures { result ≡ is_between low.now value.now high.now }
{
    compare(low, value).is_le() && compare(value, high).is_le()
}

fn is_at_most(a: &Value, b: &Value) -> bool
    ensures { result ≡ is_at_most a.now b.now }
{
    compare(a, b).is_le()
}

fn compare_may(op: CompareOp, least: &Value, bound: &Value, greatest: &Value) -> bool
    ensures { result ≡ compare_may op least.now bound.now greatest.now }
{
    match op {
        CompareOp::Equal => is_between(least, bound, greatest),
        CompareOp::Unequal => !(least == bound && greatest == bound),
        CompareOp::Less => compare(least, bound).is_lt(),
        CompareOp::AtMost => compare(least, bound).is_le(),
        CompareOp::More => compare(greatest, bound).is_gt(),
        CompareOp::AtLeast => compare(greatest, bound).is_ge(),
    }
}

fn some_between(members: &[Value], least: &Value, greatest: &Value) -> bool
    ensures { result ≡ some_between members.now least.now greatest.now }
{
    members
        .iter()
        .any(|member| is_between(least, member, greatest))
}

fn one_of_may(negated: bool, members: &[Value], least: &Value, greatest: &Value) -> bool
    ensures { result ≡ one_of_may negated members.now least.now greatest.now }
{
    if negated {
        !(least == greatest && is_member(members, least))
    } else {
        some_between(members, least, greatest)
    }
}

fn between_may(negated: bool, low: &Value, high: &Value, least: &Value, greatest: &Value) -> bool
    ensures { result ≡ between_may negated low.now high.now least.now greatest.now }
{
    if negated {
        !(is_at_most(low, least) && is_at_most(greatest, high))
    } else {
        is_at_most(low, high) && is_at_most(low, greatest) && is_at_most(least, high)
    }
}
