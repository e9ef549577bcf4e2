//! The rows of a CSV text of whole numbers.
ghost use Rattle.std.specs.Prelude.{◌≡◌, ◌≢◌, ◌≤◌, ◌<◌, ◌+◌, ◌^◌, ℕ, List, length, IfOk, IfErr, Ok, Err};
ghost use Rattle.std.specs.List.{All};
ghost use Rattle.values.specs.Columns.{rows_of as rows_of_columns};
ghost use Rattle.csv_ingest.specs.Blocks.{text_limit};
ghost use Rattle.csv_ingest.specs.NumberBlocks.{AreNumbers};
ghost use Rattle.csv_ingest.specs.Reading.{Reads, records_left};
ghost use Rattle.csv_row.specs.Row.{csv_limits};
ghost use Rattle.csv_ingest.specs.Rows.{IsNumbers, number_rows_in, records_of};
ghost use Rattle.table_schema.specs.ValidTable.{AreRows};

use crate::blocks::read_header;
use crate::records::{text_reader, unmarked_len};
use crate::rows::Block;
use csv::Reader;
use csv_row::CsvFault;
use std::alloc::Global;
use table_schema::Schema;
use values::{Columns, Rows};

/// The columns of a CSV text as RFC 4180 has it, and its rows kept column by column, where each
/// cell is a signed 64-bit number.
///
/// The first record is the header; each of its 1 to 64 names is a column of its own, of 1 to 128
/// visible ASCII characters without `"`, `,` and `*`. A number is an optional `+` or `-` and one
/// digit or more, and an empty cell is 0. A line without any character is no record, and one byte
/// order mark at the start is skipped. There are at most 1,048,576 rows, and at most 16,777,216
/// numbers. The fault is the first by record.
pub fn read_number_columns(alloc: Global, bytes: &[u8]) -> Result<(Schema, Columns), CsvFault>
    requires { length bytes.now ≤ text_limit }
    ensures ok { IfOk result (λ table. number_rows_in csv_limits (records_of bytes.now)
        ≡ Ok (table.0, rows_of_columns table.1)) }
    ensures columns { IfOk result (λ table. AreNumbers table.0.fields table.1.columns) }
    ensures err { IfErr result (λ fault. fault ≢ CsvFault.NoMemory
        → number_rows_in csv_limits (records_of bytes.now) ≡ Err fault) }
    ensures at_most { IfOk result (λ table. length table.0.fields ≤ 64) }
    ensures numbers { IfOk result (λ table.
        All (IsNumbers (length table.0.fields)) (rows_of_columns table.1)) }
    ensures valid { IfOk result (λ table. AreRows table.0.fields (rows_of_columns table.1)) }
{
    let mut reader = text_reader(alloc, bytes);
    number_records(alloc, &mut reader, unmarked_len(bytes))
}

/// The same columns, and the rows as one list of values each.
pub fn read_number_rows(alloc: Global, bytes: &[u8]) -> Result<(Schema, Rows), CsvFault>
    requires { length bytes.now ≤ text_limit }
    ensures ok { IfOk result (λ table. number_rows_in csv_limits (records_of bytes.now)
        ≡ Ok table) }
    ensures err { IfErr result (λ fault. fault ≢ CsvFault.NoMemory
        → number_rows_in csv_limits (records_of bytes.now) ≡ Err fault) }
    ensures at_most { IfOk result (λ table. length table.0.fields ≤ 64) }
    ensures numbers { IfOk result (λ table. All (IsNumbers (length table.0.fields)) table.1) }
    ensures valid { IfOk result (λ table. AreRows table.0.fields table.1) }
{
    match read_number_columns(alloc, bytes) {
        Ok((schema, table)) => Ok((schema, table.rows(alloc)?)),
        Err(fault) => Err(fault),
    }
}

// The columns of a header, and the rows of at most `most` records that are left.
fn number_records(
    alloc: Global,
    reader: &mut Reader<&[u8]>,
    most: usize,
) -> Result<(Schema, Columns), CsvFault>
    requires { most < 2 ^ 31 }
    ensures ok { IfOk result (λ table. (rest : List ℕ) → Reads reader.old rest
        → number_rows_in csv_limits (records_left (most + 1) reader.old rest)
        ≡ Ok (table.0, rows_of_columns table.1)) }
    ensures columns { IfOk result (λ table. AreNumbers table.0.fields table.1.columns) }
    ensures err { IfErr result (λ fault. fault ≢ CsvFault.NoMemory → (rest : List ℕ)
        → Reads reader.old rest → number_rows_in csv_limits (records_left
        (most + 1) reader.old rest)
        ≡ Err fault) }
{
    let header = match read_header(alloc, reader) {
        Ok(header) => header,
        Err(fault) => return Err(fault),
    };
    match header.next_block(alloc, reader, 0, most) {
        Ok(Block { columns, last: _ }) => Ok((header.into_schema(), columns)),
        Err(fault) => Err(fault),
    }
}
