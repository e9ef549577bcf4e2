//! The first line of a text, where it has no quotes.
ghost use Rattle.std.specs.Prelude.{◌≡◌, ◌<◌, ◌+◌, ◌∷◌, ℕ, IfOk, IfSome, drop, length};
ghost use Rattle.csv.specs.Reading.{default_config, records_from};
ghost use Rattle.csv.specs.Records.{fields_of};
ghost use Rattle.csv.specs.declared.parser.State.TheVariants as st;
ghost use Rattle.csv_ingest.specs.Lines.{IsFeedAfter, IsHeaderEnd, is_bare};

use crate::records::{next_record, text_reader};
use csv::ByteRecord;
use std::alloc::{AllocError, Global};

/// The line feed at the end of the first line of a text, if that line has characters and no quotes.
pub fn header_end(text: &[u8]) -> Option<usize>
    ensures { IfSome result (IsHeaderEnd text.now) }
{
    'bytes: for i in 0..text.len() {
        if !is_bare(text[i]) {
            return if i == 0 { None } else { line_feed_at(text, i) };
        }
    }
    None
}

/// The cells of the first line of a text, which ends here.
pub fn header_line(alloc: Global, text: &[u8], end: usize) -> Result<ByteRecord, AllocError>
    requires { IsHeaderEnd text.now end }
    ensures { IfOk result (λ names. (n : ℕ) → records_from default_config
        (n + 1) st.StartRecord text.now
        ≡ fields_of names ∷ records_from default_config n st.StartRecord (drop end text.now)) }
{
    let mut reader = text_reader(alloc, &text[..end + 1]);
    let mut names = ByteRecord::new(alloc);
    if next_record(&mut reader, &mut names)? {
        Ok(names)
    } else {
        unreachable!()
    }
}

// Whether a byte of a header stands for itself, or ends a cell.
fn is_bare(byte: u8) -> bool
    ensures { result ≡ is_bare byte }
{
    byte < 128 && byte != b'"' && byte != b'\r' && byte != b'\n'
}

// Where the line feed is that is here, or after a carriage return that is here.
fn line_feed_at(text: &[u8], at: usize) -> Option<usize>
    requires { at < length text.now }
    ensures { IfSome result (IsFeedAfter text.now at) }
{
    if text[at] == b'\n' {
        return Some(at);
    }
    if text[at] == b'\r' && at + 1 < text.len() && text[at + 1] == b'\n' {
        return Some(at + 1);
    }
    None
}
