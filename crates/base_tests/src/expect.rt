//! Expectations: how many a table had, and a line for each that did not hold.

use std::alloc::Global;
use std::cell::Cell;
use std::fmt::Write;

/// The lines of the tables so far, and what was expected in the one that runs. It is shared by what
/// runs them, so that it need not be lent anew at each expectation.
#[derive(Drop)]
pub struct Expectations {
    alloc: Global,
    lines: Cell<String>,
    count: Cell<u64>,
    broken: Cell<u64>,
}

impl Expectations {
    pub fn new(alloc: Global) -> Expectations {
        Expectations {
            alloc,
            lines: Cell::new(String::new(alloc)),
            count: Cell::new(0),
            broken: Cell::new(0),
        }
    }

    /// Counts an expectation, and tells of it where it does not hold.
    pub fn expect(&self, holds: bool, what: &str) {
        self.count.set(self.count.get().saturating_add(1));
        if !holds {
            self.broken.set(self.broken.get().saturating_add(1));
            self.tell("not so", what);
        }
    }

    /// Expects a value.
    pub fn equal<T: PartialEq + Drop>(&self, found: T, wanted: T, what: &str) {
        self.expect(found == wanted, what);
    }

    /// Ends a table: tells how it went, and begins the next one.
    pub fn end(&self, table: &str) {
        let outcome = match (self.count.get(), self.broken.get()) {
            (0, _) => "nothing was run",
            (_, 0) => "ran",
            _ => "failed",
        };
        self.tell(table, outcome);
        self.count.set(0);
        self.broken.set(0);
    }

    // Adds a line. Without memory it is left out, and the line is missed in the output.
    fn tell(&self, subject: &str, what: &str) {
        let mut lines = self.lines.replace(String::new(self.alloc));
        let _told = writeln!(lines, "{subject}: {what}");
        self.lines.set(lines);
    }

    pub fn into_lines(self) -> String {
        self.lines.into_inner()
    }
}
