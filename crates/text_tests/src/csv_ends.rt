//! CSV texts in which lines lie across the end of a part that is looked at together. Each is read
//! as it is, and record by record, as a text is whose header has quotes: the same has to come.

use crate::csv_texts::last_rows;
use crate::text::Text;
use csv_ingest::CSV_LIMIT;
use std::alloc::Global;
use text_scan::reply_to_text;

/// What is made of such a text.
#[derive(Clone, Copy)]
pub enum Reading {
    /// The rows over a text and two numbers, from the lines that are tried on.
    Rows,
    /// The reply to a query over three columns of numbers, all of which it names.
    AllColumns,
    /// The same of a query that names one of them.
    OneColumn,
}

// The header of three columns, and the same with quotes.
const PLAIN: &[u8] = b"c,d,n\n";

const QUOTED: &[u8] = b"\"c\",d,n\n";

// So many lines of 57 bytes come before the ones that are tried.
const LINES: usize = 861;

const LINE: &[u8] = b"000000000000000007,000000000000000001,000000000000000002\n";

// Before those come so many lines whose first cells have some bytes together. With the most that
// they may have the part ends before the lines that are tried, and with fewer in them.
const FIRST_LINES: usize = 4;

const MOST_BYTES: usize = 55;

const ALL_COLUMNS: &str = "SELECT COUNT(*), SUM(c), SUM(d), SUM(n) FROM t";

const ONE_COLUMN: &str = "SELECT COUNT(*), SUM(d) FROM t";

// Adds bytes. Without memory they are left out.
fn add(text: &mut Vec<u8>, bytes: &[u8]) {
    let _added = text.extend_from_slice(bytes);
}

// Adds so many zeros.
fn add_zeros(text: &mut Vec<u8>, count: usize) {
    for _ in 0..count {
        add(text, b"0");
    }
}

// A text of this header that ends with these lines, where the first cells before them have so many
// bytes together.
fn text_of(alloc: Global, header: &[u8], bytes: usize, lines: &[u8]) -> Vec<u8> {
    let mut text = Vec::new(alloc);
    add(&mut text, header);
    for at in 0..FIRST_LINES {
        add_zeros(
            &mut text,
            bytes.min(MOST_BYTES).saturating_add(at) / FIRST_LINES,
        );
        add(&mut text, b",0,0\n");
    }
    for _ in 0..LINES {
        add(&mut text, LINE);
    }
    add(&mut text, lines);
    text
}

// Adds the reply to a query over a text.
fn show_reply(alloc: Global, text: &[u8], sql: &str, out: &Text) {
    if text.len() as u64 > CSV_LIMIT {
        out.add("too long");
        return;
    }
    let reply = reply_to_text(alloc, text, sql);
    match &reply {
        Ok(reply) => match str::from_utf8(reply.as_slice()) {
            Ok(reply) => out.add(reply),
            Err(_) => out.add("not UTF-8"),
        },
        Err(fault) => out.add_debug(fault),
    }
    drop(reply);
}

impl Reading {
    // Adds what is made of a text.
    fn show(self, alloc: Global, text: &[u8], out: &Text) {
        match self {
            Reading::Rows => last_rows(alloc, text, LINES + FIRST_LINES, out),
            Reading::AllColumns => show_reply(alloc, text, ALL_COLUMNS, out),
            Reading::OneColumn => show_reply(alloc, text, ONE_COLUMN, out),
        }
    }

    // What is made of a text of this header.
    fn made(self, alloc: Global, header: &[u8], bytes: usize, lines: &[u8]) -> String {
        let text = text_of(alloc, header, bytes, lines);
        let shown = Text::new(alloc);
        self.show(alloc, text.as_slice(), &shown);
        drop(text);
        shown.into_string()
    }

    /// Adds what is made of lines, if it is the same wherever a part ends in them, and by records.
    pub fn outcome(self, alloc: Global, lines: &[u8], out: &Text) {
        let wanted = self.made(alloc, QUOTED, MOST_BYTES, lines);
        for fewer in 0..lines.len().min(MOST_BYTES) + 1 {
            let found = self.made(alloc, PLAIN, MOST_BYTES - fewer, lines);
            if found.as_str() != wanted.as_str() {
                out.add_count(fewer as u64);
                out.add(" bytes fewer: ");
                out.add(found.as_str());
                out.add("by records: ");
            }
            drop(found);
        }
        out.add(wanted.as_str());
        drop(wanted);
    }
}
