//! The rows of a text of whole numbers, block by block.
ghost use Rattle.std.specs.Prelude.{◌≡◌, ◌≢◌, ◌≤◌, ◌<◌, ◌+◌, ◌^◌, ◌∷◌, ℕ, List, length, IfOk, IfErr, IfSome, MatchBool, MatchOption, None, Ok, Err, drop, []};
ghost use Rattle.csv.specs.Reading.{default_config, records, records_from};
ghost use Rattle.csv.specs.Records.{fields_of};
ghost use Rattle.csv.specs.declared.parser.State.TheVariants as st;
ghost use Rattle.values.specs.Columns.{rows_of as rows_of_columns};
ghost use Rattle.csv_ingest.specs.Blocks.{IsFullBlock, IsLastBlock, RowsOrFault, rows_from, text_limit};
ghost use Rattle.csv_row.specs.InOrder.{after};
ghost use Rattle.csv_row.specs.Columns.{OfSorts};
ghost use Rattle.csv_ingest.specs.Names.{number_name};
ghost use Rattle.csv_ingest.specs.Kept.{ReadsLines};
ghost use Rattle.csv_ingest.specs.Lines.{IsFeedAfter, IsHeaderEnd, is_bare};
ghost use Rattle.csv_ingest.specs.NumberBlocks.{AreNumbers, Begins, Gives, GivesBlock, GivesNext, GoesOn, IsByRecords, IsNumberBlocks, IsNumberHeader};
ghost use Rattle.csv_ingest.specs.Reading.{Reads, records_left};
ghost use Rattle.csv_row.specs.Row.{csv_limits};
ghost use Rattle.csv_ingest.specs.Rows.{header_of, number_rows_in, records_of, rows_of, with_schema};

use crate::first_line::{header_end, header_line};
use crate::header::{names_in, number_columns};
use crate::lines::{Lines, read_lines};
use crate::records::{from_place, next_record, text_reader, unmarked, unmarked_len};
use crate::rows::{Block, read_block};
use csv::{ByteRecord, Reader};
use csv_row::{CsvFault, CsvKind, Layout};
use data_types::Seq;
use std::alloc::{AllocError, Global};
use table_schema::{Field, Schema};
use values::Columns;

// How many rows a block has.
const BLOCK_ROWS: usize = 4_096;

// The most columns that a text of whole numbers may have.
const MOST_COLUMNS: usize = 64;

/// The header of a text of whole numbers.
#[derive(Drop)]
pub struct NumberHeader {
    pub names: ByteRecord,
    pub fields: Seq<Field>,
}

/// What is left of a text of whole numbers.
#[derive(Drop)]
pub enum Source<'a> {
    /// The text from the end of a line on, where each line before it was of whole numbers without
    /// quotes, or the header.
    Lines(&'a [u8]),
    /// The records that a reader has left.
    Records(Reader<&'a [u8]>),
}

/// A text of whole numbers, of which some rows were read.
#[derive(Drop)]
pub struct NumberBlocks<'a> {
    pub header: NumberHeader,
    pub source: Source<'a>,
    /// How many rows were read.
    pub before: usize,
    /// How many records are left at most.
    pub left: usize,
}

impl NumberHeader {
    /// The header that a record is.
    pub fn of_record(alloc: Global, names: ByteRecord) -> Result<NumberHeader, CsvFault>
        ensures header { IfOk result IsNumberHeader }
        ensures names { IfOk result (λ h. h.names ≡ names) }
        ensures err { IfErr result (λ fault. fault ≢ CsvFault.NoMemory
            → (records : List (List (List ℕ)))
            → number_rows_in csv_limits (fields_of names ∷ records) ≡ Err fault) }
    {
        if names.len() > MOST_COLUMNS {
            return Err(CsvFault::TooManyColumns);
        }
        match fields_in(alloc, &names) {
            Ok(fields) => Ok(NumberHeader { names, fields }),
            Err(fault) => Err(fault),
        }
    }

    /// The table's schema.
    pub fn into_schema(self) -> Schema
        ensures { result ≡ record { fields = self.fields } }
    {
        Schema {
            fields: self.fields,
        }
    }

    /// The same, where the names are needed still.
    pub fn schema(&self, alloc: Global) -> Result<Schema, CsvFault>
        requires { IsNumberHeader self.now }
        ensures ok { IfOk result (λ schema. schema ≡ record { fields = self.now.fields }) }
        ensures at_most { IfOk result (λ schema. length schema.fields ≤ 64) }
        ensures err { IfErr result (λ fault. fault ≡ CsvFault.NoMemory) }
    {
        match fields_in(alloc, &self.names) {
            Ok(fields) => Ok(Schema { fields }),
            Err(fault) => Err(fault),
        }
    }

    /// The next rows of a text, of which `before` were read.
    pub fn next_block(
        &self,
        alloc: Global,
        reader: &mut Reader<&[u8]>,
        before: usize,
        room: usize,
    ) -> Result<Block, CsvFault>
        requires header { IsNumberHeader self.now }
        requires at_most { before + room < 2 ^ 31 }
        ensures ok { IfOk result (λ b. (rest : List ℕ) → Reads reader.old rest → MatchBool b.last
            (IsLastBlock self.now.fields
            (fields_of self.now.names) before room reader.old rest b.columns)
            (IsFullBlock self.now.fields
            (fields_of self.now.names) before room reader.old reader.new
            rest b.columns)) }
        ensures sorts { IfOk result (λ b. OfSorts self.now.fields b.columns.columns) }
        ensures most { IfOk result (λ b. b.columns.count ≤ room) }
        ensures err { IfErr result (λ fault. fault ≢ CsvFault.NoMemory → (rest : List ℕ)
            → Reads reader.old rest → (n : ℕ) → room ≤ n
            → rows_from before self.now.fields (fields_of self.now.names)
            (records_left n reader.old rest) ≡ Err fault) }
    {
        let names = names_in(alloc, &self.names)?;
        let layout = Layout::new(alloc, self.fields.as_slice(), &names)?;
        read_block(alloc, reader, &layout, before, room)
    }

    // The rows of the plain lines at the start of a text, after `before` others.
    fn next_lines(
        &self,
        alloc: Global,
        text: &[u8],
        kept: &[bool],
        before: usize,
        room: usize,
    ) -> Result<Lines, AllocError>
        requires { IsNumberHeader self.now }
        ensures { IfOk result (λ l. ReadsLines self.now.fields
            (fields_of self.now.names) kept.now before room
            text.now l.columns l.taken) }
    {
        let names = names_in(alloc, &self.names)?;
        let layout = Layout::new(alloc, self.fields.as_slice(), &names)?;
        read_lines(alloc, text, &layout, kept, before, room)
    }
}

// The columns of whole numbers that the cells of a record name.
fn fields_in(alloc: Global, names: &ByteRecord) -> Result<Seq<Field>, CsvFault>
    requires { length (fields_of names.now) ≤ 64 }
    ensures ok { IfOk result (λ fields. header_of number_name (fields_of names.now) ≡ Ok fields) }
    ensures err { IfErr result (λ fault. fault ≢ CsvFault.NoMemory
        → header_of number_name (fields_of names.now) ≡ Err fault) }
{
    let names = names_in(alloc, names)?;
    number_columns(alloc, &names)
}

// The text of whole numbers that a text is, whose first line has no quotes and ends here.
fn line_blocks<'a>(alloc: Global, text: &'a [u8], end: usize) -> Result<NumberBlocks<'a>, CsvFault>
    requires at_most { length text.now ≤ text_limit }
    requires end { IsHeaderEnd text.now end }
    ensures { Begins (records default_config text.now) result }
{
    let names = header_line(alloc, text, end)?;
    match NumberHeader::of_record(alloc, names) {
        Ok(header) => Ok(NumberBlocks {
            header,
            source: Source::Lines(from_place(text, end)),
            before: 0,
            left: text.len(),
        }),
        Err(fault) => Err(fault),
    }
}

/// Reads the header of a text, its first record.
pub fn read_header(alloc: Global, reader: &mut Reader<&[u8]>) -> Result<NumberHeader, CsvFault>
    ensures header { IfOk result IsNumberHeader }
    ensures ok { IfOk result (λ header. (rest : List ℕ) → Reads reader.old rest → (left : List ℕ)
        × Reads reader.new left × ((n : ℕ) → number_rows_in csv_limits
        (records_left (n + 1) reader.old rest)
        ≡ with_schema header.fields (rows_of csv_limits header.fields (fields_of header.names)
        (records_left n reader.new left)))) }
    ensures err { IfErr result (λ fault. fault ≢ CsvFault.NoMemory → (rest : List ℕ)
        → Reads reader.old rest → (n : ℕ) → number_rows_in csv_limits
        (records_left (n + 1) reader.old rest)
        ≡ Err fault) }
{
    let mut names = ByteRecord::new(alloc);
    if !next_record(reader, &mut names)? {
        return Err(CsvFault::At(CsvKind::NoHeader, 0, 0));
    }
    NumberHeader::of_record(alloc, names)
}

// The text of whole numbers that some bytes are, by their records.
fn record_blocks<'a>(alloc: Global, bytes: &'a [u8]) -> Result<NumberBlocks<'a>, CsvFault>
    requires { length bytes.now ≤ text_limit }
    ensures { Begins (records_of bytes.now) result }
{
    let mut reader = text_reader(alloc, bytes);
    let left = unmarked_len(bytes);
    match read_header(alloc, &mut reader) {
        Ok(header) => Ok(NumberBlocks {
            header,
            source: Source::Records(reader),
            before: 0,
            left,
        }),
        Err(fault) => Err(fault),
    }
}

/// The text of whole numbers that some bytes are, with its header read. The fields and the rows, or
/// the first fault, are those of `read_number_rows`.
pub fn number_blocks<'a>(alloc: Global, bytes: &'a [u8]) -> Result<NumberBlocks<'a>, CsvFault>
    requires { length bytes.now ≤ text_limit }
    ensures { Begins (records_of bytes.now) result }
{
    let text = unmarked(bytes);
    match header_end(text) {
        Some(end) => line_blocks(alloc, text, end),
        None => record_blocks(alloc, bytes),
    }
}

impl<'a> NumberBlocks<'a> {
    // The rows of the next lines, where the text is read by lines and the next one is of whole
    // numbers without quotes. From the first other line on, records are read.
    fn next_lines(
        &mut self,
        alloc: Global,
        kept: &[bool],
        room: usize,
    ) -> Result<Option<Columns>, CsvFault>
        requires is { IsNumberBlocks self.old }
        requires room { room ≤ self.old.left }
        ensures goes_on { GoesOn self.old self.new }
        ensures ok { IfOk result (λ block. (whole : RowsOrFault) → Gives self.old whole
            → MatchOption block (Gives self.new whole) (GivesBlock kept.now self.new whole)) }
        ensures none { IfOk result (λ block. block ≡ None → IsByRecords self.new.source
            × (self.new.left ≡ self.old.left)) }
        ensures numbers { IfOk result (λ block. IfSome block (λ columns.
            AreNumbers self.old.header.fields columns.columns)) }
        ensures count { IfOk result (λ block. IfSome block (λ columns. (0 < columns.count)
            × (columns.count + self.new.left ≡ self.old.left))) }
        ensures err { IfErr result (λ fault. fault ≡ CsvFault.NoMemory) }
    {
        let Source::Lines(text) = &self.source else {
            return Ok(None);
        };
        let text = *text;
        let Lines { columns, taken } = self
            .header
            .next_lines(alloc, text, kept, self.before, room)?;
        let count = columns.len();
        if count == 0 {
            self.source = Source::Records(text_reader(alloc, text));
            return Ok(None);
        }
        self.source = Source::Lines(from_place(text, taken));
        self.before += count;
        self.left -= count;
        Ok(Some(columns))
    }

    // The rows of the next records, where the text is read by records.
    fn next_records(&mut self, alloc: Global, room: usize) -> Result<Columns, CsvFault>
        requires is { IsNumberBlocks self.old }
        requires source { IsByRecords self.old.source }
        requires room { (0 < room) × (room ≤ self.old.left) }
        ensures goes_on { GoesOn self.old self.new }
        ensures ok { IfOk result (λ columns. (whole : RowsOrFault) → Gives self.old whole
            → (more : RowsOrFault) × Gives self.new more × (whole
            ≡ after (rows_of_columns columns) more)) }
        ensures numbers { IfOk result
            (λ columns. AreNumbers self.old.header.fields columns.columns) }
        ensures count { IfOk result (λ columns. (self.new.left < self.old.left)
            × (columns.count + self.new.left ≤ self.old.left)) }
        ensures err { IfErr result (λ fault. fault ≢ CsvFault.NoMemory → (whole : RowsOrFault)
            → Gives self.old whole → whole ≡ Err fault) }
    {
        let Source::Records(reader) = &mut self.source else {
            unreachable!()
        };
        match self.header.next_block(alloc, reader, self.before, room) {
            Ok(Block { columns, last }) => {
                if last {
                    self.left = 0;
                    return Ok(columns);
                }
                self.left -= room;
                self.before += room;
                Ok(columns)
            }
            Err(fault) => Err(fault),
        }
    }

    /// The next rows, if any are left: a few thousand, or else the last.
    pub fn next(&mut self, alloc: Global) -> Result<Option<Columns>, CsvFault>
        requires { IsNumberBlocks self.old }
        ensures goes_on { GoesOn self.old self.new }
        ensures ok { IfOk result (λ block. (whole : RowsOrFault) → Gives self.old whole
            → MatchOption block (whole ≡ Ok []) (λ columns. (more : RowsOrFault)
            × Gives self.new more
            × (whole ≡ after (rows_of_columns columns) more))) }
        ensures numbers { IfOk result (λ block. IfSome block (λ columns.
            AreNumbers self.old.header.fields columns.columns)) }
        ensures fewer { IfOk result (λ block. IfSome block (λ _. self.new.left < self.old.left)) }
        ensures count { IfOk result (λ block. IfSome block (λ columns.
            columns.count + self.new.left ≤ self.old.left)) }
        ensures err { IfErr result (λ fault. fault ≢ CsvFault.NoMemory → (whole : RowsOrFault)
            → Gives self.old whole → whole ≡ Err fault) }
    {
        self.next_kept(alloc, &[])
    }

    /// The same, where only some columns are wanted: a column whose mark is false may have other
    /// numbers. One beyond the marks is kept.
    pub fn next_kept(&mut self, alloc: Global, kept: &[bool]) -> Result<Option<Columns>, CsvFault>
        requires { IsNumberBlocks self.old }
        ensures { GivesNext kept.now self.old self.new result }
    {
        let room = self.left.min(BLOCK_ROWS);
        if room == 0 {
            return Ok(None);
        }
        if let Some(columns) = self.next_lines(alloc, kept, room)? {
            return Ok(Some(columns));
        }
        match self.next_records(alloc, room) {
            Ok(columns) => Ok(Some(columns)),
            Err(fault) => Err(fault),
        }
    }
}
