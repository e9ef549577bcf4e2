//! Reads a schema and a CSV file over it into columns, makes their dictionaries too where that is
//! asked for, or reads a CSV file of whole numbers block by block, and prints how many rows they
//! are: what the benchmark of reading runs.
ghost use Rattle.std.specs.Prelude.{IfOk, IfSome};
ghost use Rattle.segment_build.specs.Fitting.{AreColumns};

use csv_ingest::{CSV_LIMIT, number_blocks, read_columns};
use dictionary::Dictionary;
use host_devices::FolderShelf;
use outside::read_all;
use schema_json::read_schema;
use std::alloc::{AllocError, Global};
use std::io;
use std::process::ExitCode;
use table_schema::{Field, Schema};
use values::Columns;

const SCHEMA_LIMIT: u64 = 1_048_576;

// The schema of a file, and the columns of a CSV file over it, unless one of the files is refused.
fn read_files(rt: &HostRuntime, schema: &str, rows: &str) -> io::Result<Option<(Schema, Columns)>>
    ensures { IfOk result (λ read. IfSome read (λ p. AreColumns p.0.fields p.1)) }
{
    let alloc = rt.alloc();
    let mut files = FolderShelf::new(rt.clone()?, String::from_str(alloc, ".")?);
    let Ok(text) = read_all(alloc, &mut files, schema, SCHEMA_LIMIT) else {
        return Ok(None);
    };
    let Ok(schema) = read_schema(alloc, text.as_slice()) else {
        return Ok(None);
    };
    let Ok(text) = read_all(alloc, &mut files, rows, CSV_LIMIT) else {
        return Ok(None);
    };
    match read_columns(alloc, &schema, text.as_slice()) {
        Ok(columns) => {
            let _rows = columns.len();
            Ok(Some((schema, columns)))
        }
        Err(_) => Ok(None),
    }
}

// How many rows the CSV file has, unless one of the files is refused.
fn count_rows(rt: &HostRuntime, schema: &str, rows: &str) -> io::Result<Option<usize>> {
    match read_files(rt, schema, rows)? {
        Some((_, columns)) => Ok(Some(columns.len())),
        None => Ok(None),
    }
}

// The same, after the dictionary and the ids of each column were made.
fn count_coded(rt: &HostRuntime, schema: &str, rows: &str) -> io::Result<Option<usize>> {
    match read_files(rt, schema, rows)? {
        Some((schema, columns)) => {
            let _values = count_values(rt.alloc(), schema.fields.as_slice(), &columns)?;
            Ok(Some(columns.len()))
        }
        None => Ok(None),
    }
}

// How many distinct values the columns have together.
fn count_values(alloc: Global, fields: &[Field], columns: &Columns) -> Result<usize, AllocError>
    requires { AreColumns fields.now columns.now }
{
    let mut count: usize = 0;
    'columns: for at in 0..fields.len() {
        let (dictionary, _ids) = Dictionary::of_column(alloc, fields[at].kind, columns.column(at))?;
        count = count.saturating_add(dictionary.count() as usize);
    }
    Ok(count)
}

// How many rows a CSV file of whole numbers has, read block by block, unless it is refused.
fn count_blocks(rt: &HostRuntime, rows: &str) -> io::Result<Option<usize>> {
    let alloc = rt.alloc();
    let mut files = FolderShelf::new(rt.clone()?, String::from_str(alloc, ".")?);
    let Ok(text) = read_all(alloc, &mut files, rows, CSV_LIMIT) else {
        return Ok(None);
    };
    let Ok(mut blocks) = number_blocks(alloc, text.as_slice()) else {
        return Ok(None);
    };
    let mut count: usize = 0;
    'rows: while let Ok(next) = blocks.next(alloc) {
        let Some(block) = next else {
            return Ok(Some(count));
        };
        count = count.saturating_add(block.len());
    }
    Ok(None)
}

// The rows of a CSV file over a schema, with dictionaries where there is a third word, or in blocks
// of whole numbers where no schema is named.
fn counted(rt: &HostRuntime, words: &[String]) -> io::Result<Option<usize>> {
    match words {
        [schema, rows, _] => count_coded(rt, schema.as_str(), rows.as_str()),
        [schema, rows] => count_rows(rt, schema.as_str(), rows.as_str()),
        [rows] => count_blocks(rt, rows.as_str()),
        _ => Ok(None),
    }
}

/// Prints how many rows these files have, or ends with 1 where one of them is refused.
pub fn run_rows(rt: &HostRuntime, words: &[String]) -> io::Result<ExitCode> {
    match counted(rt, words)? {
        Some(count) => {
            println!(rt; "{count}")?;
            Ok(ExitCode::from(0))
        }
        None => Ok(ExitCode::from(1)),
    }
}
