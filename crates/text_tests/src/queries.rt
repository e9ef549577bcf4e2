//! What comes of the text of a query: `Reason@byte`, or the syntax tree.

use crate::text::{Text, number, parted};
use crate::trees::show_query;
use query_parser::parse;
use query_tokens::{Query, QueryFault};
use std::alloc::Global;

const MOST_BYTES: usize = 65536;

/// Adds why a text is no query.
pub fn show_query_fault(fault: QueryFault, out: &Text) {
    match fault {
        QueryFault::At(reason, place) => {
            out.add_debug(&reason);
            out.add_place(place);
        }
        QueryFault::NoMemory => out.add("NoMemory"),
    }
}

fn show_parsed(parsed: &Result<Query, QueryFault>, out: &Text) {
    match parsed {
        Ok(query) => show_query(query, out),
        Err(fault) => show_query_fault(*fault, out),
    }
}

pub fn outcome(alloc: Global, text: &str, out: &Text) {
    if text.len() > MOST_BYTES {
        out.add("too long");
        return;
    }
    let parsed = parse(alloc, text);
    show_parsed(&parsed, out);
    drop(parsed);
}

/// Where SELECT is, or the first fault: what comes before the first blank.
pub fn first_word(alloc: Global, text: &str, out: &Text) {
    outcome(alloc, text, out);
    let found = out.take();
    out.add(parted(found.as_str(), ' ').0);
    drop(found);
}

// A beginning, what is between so many times, and an end.
fn repeated(alloc: Global, start: &str, (count, part): (u32, &str), end: &str) -> String {
    let whole = Text::new(alloc);
    whole.add(start);
    for _ in 0..count {
        whole.add(part);
    }
    whole.add(end);
    whole.into_string()
}

/// The first word of what comes of a long text, spelled as a beginning, a number, a part that
/// stands so many times, and an end, with `#` between them.
pub fn long_outcome(alloc: Global, text: &str, out: &Text) {
    let (start, rest) = parted(text, '#');
    let (count, rest) = parted(rest, '#');
    let (part, end) = parted(rest, '#');
    let whole = repeated(alloc, start, (number(count), part), end);
    first_word(alloc, whole.as_str(), out);
    drop(whole);
}

// Whether a text of so many bytes is a query, or has a fault within it.
fn is_answer(parsed: &Result<Query, QueryFault>, length: usize) -> bool {
    match parsed {
        Ok(_) => true,
        Err(QueryFault::At(_, place)) => *place as usize <= length,
        Err(QueryFault::NoMemory) => false,
    }
}

// Adds a text that is not answered.
fn check_answered(alloc: Global, text: &str, out: &Text) {
    if text.len() > MOST_BYTES {
        out.add("too long");
        return;
    }
    let parsed = parse(alloc, text);
    if !is_answer(&parsed, text.len()) {
        out.add("not ");
        out.add(text);
    }
    drop(parsed);
}

/// Whether each beginning of a text is answered; those that are not come first.
pub fn outcome_of_beginnings(alloc: Global, text: &str, out: &Text) {
    let mut beginning = String::new(alloc);
    for c in text.chars() {
        check_answered(alloc, beginning.as_str(), out);
        let _pushed = beginning.push(c);
    }
    drop(beginning);
    check_answered(alloc, text, out);
    out.add("answered");
}
