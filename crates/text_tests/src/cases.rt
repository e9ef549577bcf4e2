//! Files of cases: what has to come of a text, a bar, and the text.

use crate::escapes::{on_one_line, unescaped};
use crate::subject::Subject;
use crate::text::Text;
use std::alloc::Global;
use std::cell::Cell;

/// How many cases a file has, the lines of those that are wrong, and what came so far of the case
/// that runs.
#[derive(Clone, Copy)]
pub struct Report<'a> {
    pub count: &'a Cell<u64>,
    pub wrong: &'a Text,
    pub found: &'a Text,
}

impl<'a> Report<'a> {
    fn compare(&self, found: &str, expected: &str, line: &str) {
        if found != expected {
            self.wrong.add("wrong: ");
            self.wrong.add(found);
            self.wrong.add(" for ");
            self.wrong.add(line);
            self.wrong.add("\n");
        }
    }

    /// Ends a case: notes its line where something else came of it.
    pub fn end_case(&self, alloc: Global, expected: &str, line: &str) {
        self.count.set(self.count.get().saturating_add(1));
        let found = self.found.take();
        let shown = on_one_line(alloc, found.as_str());
        drop(found);
        self.compare(shown.as_str(), expected, line);
        drop(shown);
    }
}

fn run_case(alloc: Global, subject: Subject, line: &str, report: &Report) {
    let Some((expected, text)) = line.split_once('|') else {
        report.found.add("no bar");
        return report.end_case(alloc, "", line);
    };
    let bytes = unescaped(alloc, text);
    subject.outcome(alloc, bytes.as_slice(), report.found);
    drop(bytes);
    report.end_case(alloc, expected, line);
}

/// Runs the cases of a file. Lines that begin with `#` are comments.
pub fn run_cases(alloc: Global, subject: Subject, file: &str, report: &Report) {
    for line in file.lines() {
        if !line.starts_with('#') {
            run_case(alloc, subject, line, report);
        }
    }
}
