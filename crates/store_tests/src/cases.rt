//! Cases of heads or of whole files: `cut FROM TO OUTCOME` is the file cut to each of these
//! lengths, and `alter FROM TO OUTCOME` the file with each of these bytes one more than it is.
//! `# ` begins a comment.
ghost use Rattle.table_schema.specs.ValidTable.{IsValidTable};

use crate::counting::CountingShelf;
use crate::heads::opened;
use crate::images::agreed;
use std::alloc::{AllocError, Global};
use table_schema::Table;

/// How many cases a file has, and those that are wrong.
#[derive(Drop)]
pub struct Report {
    pub count: u64,
    pub wrong: Vec<String>,
}

/// What is looked at of each file.
#[derive(Clone, Copy)]
pub enum Look {
    Head,
    File,
}

impl Look {
    // What comes of a file.
    fn outcome(
        self,
        alloc: Global,
        bytes: Vec<u8>,
        name: &str,
        table: &Table,
    ) -> Result<String, AllocError>
        requires { IsValidTable table.now }
    {
        let mut shelf = CountingShelf::new(bytes);
        match self {
            Look::Head => opened(alloc, &mut shelf, name, table),
            Look::File => agreed(alloc, &mut shelf, name, table),
        }
    }
}

// What is done to the file at each place from one to another, and what has to come of it.
#[derive(Clone, Copy)]
struct Case<'a> {
    cuts: bool,
    from: usize,
    to: usize,
    expected: &'a str,
}

fn number(text: &str) -> usize {
    text.parse::<usize>().unwrap_or(0)
}

// The case of a line, if it has one.
fn case_of<'a>(line: &'a str) -> Option<Case<'a>> {
    let (word, rest) = line.split_once(' ')?;
    let (from, rest) = rest.split_once(' ')?;
    let (to, expected) = rest.split_once(' ')?;
    if word != "cut" && word != "alter" {
        return None;
    }
    Some(Case {
        cuts: word == "cut",
        from: number(from),
        to: number(to),
        expected,
    })
}

// The file cut to a length, or with a byte that is one more.
fn changed(alloc: Global, file: &[u8], cuts: bool, at: usize) -> Result<Vec<u8>, AllocError> {
    if cuts {
        return file.get(..at).unwrap_or(b"").to_vec(alloc);
    }
    let mut bytes = file.to_vec(alloc)?;
    if at < bytes.len() {
        bytes[at] = bytes[at].wrapping_add(1);
    }
    Ok(bytes)
}

impl Report {
    // Tries a case at each of its places.
    fn add(
        &mut self,
        alloc: Global,
        look: Look,
        table: &Table,
        name: &str,
        file: &[u8],
        case: &Case,
    ) -> Result<(), AllocError>
        requires { IsValidTable table.now }
    {
        for at in case.from..case.to.saturating_add(1) {
            let bytes = changed(alloc, file, case.cuts, at)?;
            let found = look.outcome(alloc, bytes, name, table)?;
            self.count = self.count.saturating_add(1);
            if found.as_str() != case.expected {
                let kind = if case.cuts { "cut" } else { "alter" };
                let line = format!(in alloc; "{kind} {at}: {found} for {}", case.expected)?;
                self.wrong.push(line)?;
            }
        }
        Ok(())
    }
}

/// Runs the cases of a file over the file of a segment.
pub fn run_cases(
    alloc: Global,
    look: Look,
    table: &Table,
    name: &str,
    file: &[u8],
    cases: &str,
) -> Result<Report, AllocError>
    requires { IsValidTable table.now }
{
    let mut report = Report {
        count: 0,
        wrong: Vec::new(alloc),
    };
    for line in cases.lines() {
        if let Some(case) = case_of(line) {
            report.add(alloc, look, table, name, file, &case)?;
        }
    }
    Ok(report)
}
