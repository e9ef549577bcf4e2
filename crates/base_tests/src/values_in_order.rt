//! Values, their order, and rows of them.

use crate::expect::Expectations;
use crate::fixtures::string;
use data_types::{Boxed, FieldKind, Name, Seq};
use std::alloc::{AllocError, Global};
use std::collections::{BTreeMap, HashMap};
use values::{Row, Value, ValueFault, compare, copy_row, push_text, read_value};

pub fn text(alloc: Global, text: &str) -> Value {
    Value::Text(Name::from_text(alloc, text).unwrap_or(Name::new(alloc)))
}

/// So many letters.
pub fn many(alloc: Global, count: usize) -> String {
    string(alloc, "x")
        .repeat(alloc, count)
        .unwrap_or(String::new(alloc))
}

fn is_text(found: &Result<Value, ValueFault>, text: &str) -> bool {
    match found {
        Ok(Value::Text(kept)) => kept.as_str() == text,
        _ => false,
    }
}

// A kind, a text, the number that it spells or why it spells none, and what that says.
type Number = (
    FieldKind,
    &'static str,
    Result<i64, ValueFault>,
    &'static str,
);

const NUMBERS: &[Number] = &[
    (
        FieldKind::Int,
        "2147483648",
        Err(ValueFault::OutOfRange),
        "a wide INT",
    ),
    (FieldKind::Long, "2147483648", Ok(2147483648), "a LONG"),
    (
        FieldKind::Long,
        "1e2",
        Err(ValueFault::NotANumber),
        "a power",
    ),
    (FieldKind::Int, "-009", Ok(-9), "zeros before a number"),
];

fn is_number(found: &Result<Value, ValueFault>, wanted: Result<i64, ValueFault>) -> bool {
    match found {
        Ok(Value::Whole(number)) => wanted == Ok(*number),
        Ok(Value::Text(_)) => false,
        Err(fault) => wanted == Err(*fault),
    }
}

fn expect_number(alloc: Global, row: &Number, all: &Expectations) {
    let (kind, text, wanted, what) = *row;
    let found = read_value(alloc, kind, text);
    all.expect(is_number(&found, wanted), what);
    drop(found);
}

pub fn numbers(alloc: Global, all: &Expectations) {
    for row in NUMBERS {
        expect_number(alloc, row, all);
    }
    all.end("whole numbers");
}

fn expect_long_text(alloc: Global, all: &Expectations) {
    let long = many(alloc, 513);
    let refused = read_value(alloc, FieldKind::Text, long.as_str()).err();
    all.equal(refused, Some(ValueFault::TooLong), "a long text");
    drop(long);
}

fn expect_longest_text(alloc: Global, all: &Expectations) {
    let longest = many(alloc, 512);
    let found = read_value(alloc, FieldKind::Text, longest.as_str());
    all.expect(is_text(&found, longest.as_str()), "a longest text");
    drop(found);
    drop(longest);
}

// Adds a value's text, and says whether there was memory for it.
fn is_added(alloc: Global, value: Value, out: &mut Vec<u8>) -> bool {
    let is_pushed = push_text(alloc, &value, out).is_ok();
    drop(value);
    is_pushed
}

fn expect_written(alloc: Global, all: &Expectations) {
    let mut out = Vec::from_slice(alloc, b"x=").unwrap_or(Vec::new(alloc));
    let is_added_whole = is_added(alloc, Value::Whole(-9), &mut out);
    all.expect(is_added_whole, "the text of a number");
    let is_added_text = is_added(alloc, text(alloc, ";é"), &mut out);
    all.expect(is_added_text, "a text of a text");
    all.equal(out.as_slice(), "x=-9;é".as_bytes(), "texts of values");
    drop(out);
}

// What is expected of `name` beside its copy of when it was `na`, and the same made of a string.
fn expect_name(name: &Name, copy: &Name, same: &Name, all: &Expectations) {
    all.equal(copy.as_str(), "na", "a copy is not changed");
    all.equal(name.as_slice(), b"name".as_slice(), "a name");
    all.expect(name.len() == 4, "its length");
    all.expect(copy.lt(name), "a proper prefix is less");
    all.expect(same.eq(copy), "names by their bytes");
    all.expect(name.len() > 2 && name.at(2) == b'm', "a byte of a name");
}

fn copy(alloc: Global, name: &Name) -> Name {
    name.copy().unwrap_or(Name::new(alloc))
}

fn na(alloc: Global) -> Name {
    Name::from_string(alloc, string(alloc, "na")).unwrap_or(Name::new(alloc))
}

fn expect_names(alloc: Global, all: &Expectations) {
    let mut name = Name::new(alloc);
    all.expect(name.is_empty(), "an empty name");
    all.expect(name.push_str("na").is_ok(), "a text is added");
    let copy = copy(alloc, &name);
    all.expect(name.push_str("me").is_ok(), "more is added");
    let same = na(alloc);
    expect_name(&name, &copy, &same, all);
    drop(name);
    drop(copy);
    drop(same);
}

fn expect_box(alloc: Global, all: &Expectations) {
    if let Ok(boxed) = Boxed::new(alloc, 7) {
        all.expect(*boxed.get() == 7, "a box");
        all.expect(boxed.into_inner() == 7, "what was in it");
    }
}

pub fn texts(alloc: Global, all: &Expectations) {
    expect_long_text(alloc, all);
    expect_longest_text(alloc, all);
    expect_written(alloc, all);
    expect_box(alloc, all);
    expect_names(alloc, all);
    all.end("texts of values");
}

// Adds, ascending: numbers, then texts by their bytes, a proper prefix first.
fn push_all(alloc: Global, values: &mut Vec<Value>) -> Result<(), AllocError> {
    for n in &[i64::MIN, -1, 10] {
        values.push(Value::Whole(*n))?;
    }
    for t in &["", "10", "9", "Z", "a", "ab", "é"] {
        values.push(text(alloc, t))?;
    }
    Ok(())
}

fn ascending(alloc: Global) -> Vec<Value> {
    let mut values = Vec::new(alloc);
    let _pushed = push_all(alloc, &mut values).is_ok();
    values
}

// What is expected of two of the values, by their places.
fn expect_pair((i, a): (usize, &Value), (j, b): (usize, &Value), all: &Expectations) {
    all.equal(compare(a, b), i.cmp(&j), "the order of two values");
    all.expect(a.eq(b) == (i == j), "whether they are equal");
    all.expect(a.lt(b) == (i < j), "whether one is less");
}

fn expect_pairs(first: (usize, &Value), values: &[Value], all: &Expectations) {
    for second in values.iter().enumerate() {
        expect_pair(first, second, all);
    }
}

fn expect_order(values: &[Value], all: &Expectations) {
    all.expect(values.len() == 10, "ten values");
    for first in values.iter().enumerate() {
        expect_pairs(first, values, all);
    }
}

pub fn order_of_values(alloc: Global, all: &Expectations) {
    let values = ascending(alloc);
    expect_order(values.as_slice(), all);
    drop(values);
    all.end("order of values");
}

// What is expected of a row beside a proper prefix of it and its copy.
fn expect_row(long: &Row, short: &Row, copy: &Row, all: &Expectations) {
    all.expect(copy.eq(long), "a copy is equal");
    all.expect(short.ne(long), "a proper prefix is another row");
    all.expect(short.lt(long), "a proper prefix is less");
}

fn expect_value(row: &Row, all: &Expectations) {
    let is_third = row.len() > 2 && *row.at(2) == Value::Whole(10);
    all.expect(is_third, "a value of a row");
}

fn long_row(alloc: Global) -> Row {
    Seq::from_vec(ascending(alloc))
}

fn short_row(alloc: Global) -> Row {
    let mut row = Seq::new(alloc);
    let _pushed = row.push(Value::Whole(i64::MIN)).is_ok();
    row
}

fn copy_of(alloc: Global, row: &Row) -> Row {
    copy_row(alloc, row).unwrap_or(Seq::new(alloc))
}

fn expect_rows(alloc: Global, long: &Row, all: &Expectations) {
    let short = short_row(alloc);
    let copy = copy_of(alloc, long);
    expect_row(long, &short, &copy, all);
    drop(short);
    drop(copy);
    expect_value(long, all);
    all.expect(is_found_by_order(alloc, long), "a key found by order");
    all.expect(is_found_by_hash(alloc, long), "a key found by hash");
}

pub fn order_of_rows(alloc: Global, all: &Expectations) {
    let long = long_row(alloc);
    expect_rows(alloc, &long, all);
    drop(long);
    all.end("order of rows");
}

fn is_found_by_order(alloc: Global, key: &Row) -> bool {
    let mut map: BTreeMap<Row, u8> = BTreeMap::new(alloc);
    let is_kept = map.insert(copy_of(alloc, key), 1).is_ok();
    let is_found = is_kept && map.get(key).copied() == Some(1);
    drop(map);
    is_found
}

fn is_found_by_hash(alloc: Global, key: &Row) -> bool {
    let mut map: HashMap<Row, u8> = HashMap::new(alloc);
    let is_kept = map.insert(copy_of(alloc, key), 1).is_ok();
    let is_found = is_kept && map.get(key).copied() == Some(1);
    drop(map);
    is_found
}
