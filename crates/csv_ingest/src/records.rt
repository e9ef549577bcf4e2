//! The records of a CSV text, one at a time.
ghost use Rattle.std.specs.Prelude.{◌≡◌, ◌<◌, ◌≤◌, ◌∷◌, ◌+◌, ℕ, List, [], IfOk, MatchBool, drop, length};
ghost use Rattle.csv.specs.Records.{fields_of};
ghost use Rattle.csv.specs.Reading.{is_bom, strip_bom, records_from, default_config};
ghost use Rattle.csv.specs.declared.parser.State.TheVariants as st;
ghost use Rattle.csv_ingest.specs.Reading.{Reads, records_left};

use csv::{ByteRecord, Reader, ReaderBuilder};
use std::alloc::{AllocError, Global};

/// A reader of the records of a text, of any lengths and with no header row of its own.
pub fn text_reader(alloc: Global, text: &[u8]) -> Reader<&[u8]>
    ensures reads { Reads result (strip_bom text.now) }
    ensures left { (n : ℕ) → records_left n result (strip_bom text.now)
        ≡ records_from default_config n st.StartRecord (strip_bom text.now) }
{
    ReaderBuilder::new()
        .has_headers(false)
        .flexible(true)
        .from_reader(alloc, text)
}

/// Reads the next record into `row`, if there is one.
pub fn next_record(reader: &mut Reader<&[u8]>, row: &mut ByteRecord) -> Result<bool, AllocError>
    ensures { (rest : List ℕ) → Reads reader.old rest → IfOk result (λ found. MatchBool found
        ((after : List ℕ) × Reads reader.new after × ((n : ℕ) → records_left (n + 1) reader.old rest
        ≡ fields_of row.new ∷ records_left n reader.new after))
        ((n : ℕ) → records_left (n + 1) reader.old rest ≡ [])) }
{
    let Ok(found) = reader.read_byte_record(row) else {
        return Err(AllocError);
    };
    Ok(found)
}

fn is_mark(a: u8, b: u8, c: u8) -> bool
    ensures { result ≡ is_bom a b c }
{
    a == 0xEF && b == 0xBB && c == 0xBF
}

/// A text from a place on.
#[inline(always)]
pub fn from_place(text: &[u8], at: usize) -> &[u8]
    requires { at ≤ length text.now }
    ensures { result.now ≡ drop at text.now }
{
    &text[at..]
}

/// A text without a byte order mark at its start.
pub fn unmarked(text: &[u8]) -> &[u8]
    ensures value { result.now ≡ strip_bom text.now }
    ensures within { length result.now ≤ length text.now }
{
    if text.len() < 3 {
        return text;
    }
    if is_mark(text[0], text[1], text[2]) {
        return from_place(text, 3);
    }
    text
}

/// How many bytes a text has after a byte order mark at its start.
pub fn unmarked_len(text: &[u8]) -> usize
    ensures value { result ≡ length (strip_bom text.now) }
    ensures within { result ≤ length text.now }
{
    unmarked(text).len()
}
