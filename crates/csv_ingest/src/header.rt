//! The header of a CSV text.
ghost use Rattle.std.specs.Prelude.{◌≡◌, ◌≢◌, ◌≤◌, true, false, map, length, ◌<◌, ◌^◌, IfOk, IfErr, IsOk, Ok, Err};
ghost use Rattle.csv.specs.Records.{fields_of};
ghost use Rattle.csv_ingest.specs.Names.{is_among, schema_name, names_of, number_field, number_name};
ghost use Rattle.csv_ingest.specs.Rows.{header_of};

use csv::ByteRecord;
use csv_row::{CsvFault, CsvKind, cell};
use data_types::{FieldKind, Name, Seq, text_of};
use std::alloc::{AllocError, Global};
use table_schema::{Field, Role, is_column_name};
use values::Value;

/// The cells of a record.
pub fn names_in<'a>(alloc: Global, row: &'a ByteRecord) -> Result<Vec<&'a [u8]>, AllocError>
    ensures { IfOk result (λ v. map (λ f. f.now) v.items ≡ fields_of row.now) }
{
    let mut fields = Vec::with_capacity(alloc, row.len())?;
    for i in 0..row.len() {
        fields.push(cell(row, i))?;
    }
    Ok(fields)
}

// The name of a column after these names.
fn column_name<'a>(name: &'a [u8], earlier: &[&[u8]]) -> Result<&'a str, CsvKind>
    ensures ok { IfOk result (λ text. number_name (map (λ f. f.now) earlier.now) name.now
        ≡ Ok (number_field text.now)) }
    ensures err { IfErr result (λ kind. number_name (map (λ f. f.now) earlier.now) name.now
        ≡ Err kind) }
{
    let Some(text) = text_of(name) else {
        return Err(CsvKind::NotUtf8);
    };
    if !is_column_name(name) {
        return Err(CsvKind::BadHeader);
    }
    if is_among(name, earlier) {
        return Err(CsvKind::DuplicateHeader);
    }
    Ok(text)
}

fn column(alloc: Global, name: &str) -> Result<Field, AllocError>
    ensures { IfOk result (λ field. field ≡ number_field name.now) }
{
    Ok(Field {
        name: Name::from_text(alloc, name)?,
        kind: FieldKind::Long,
        role: Role::Metric,
        default: Value::Whole(0),
    })
}

/// The columns of whole numbers that these names make.
pub fn number_columns(alloc: Global, names: &[&[u8]]) -> Result<Seq<Field>, CsvFault>
    requires { length names.now ≤ 64 }
    ensures ok { IfOk result (λ fields. header_of number_name (map (λ f. f.now) names.now)
        ≡ Ok fields) }
    ensures err { IfErr result (λ fault. fault ≢ CsvFault.NoMemory
        → header_of number_name (map (λ f. f.now) names.now) ≡ Err fault) }
{
    let mut fields = Seq::with_capacity(alloc, names.len())?;
    'names: for i in 0..names.len() {
        match column_name(names[i], &names[..i]) {
            Ok(name) => fields.push(column(alloc, name)?)?,
            Err(kind) => return Err(CsvFault::At(kind, 0, i as u32 + 1)),
        }
    }
    Ok(fields)
}

fn is_field(name: &[u8], fields: &[Field]) -> bool
    ensures { result ≡ is_among name.now (names_of fields.now) }
{
    for field in fields {
        if name == field.name.as_slice() {
            return true;
        }
    }
    false
}

// What is wrong with a name after these, over a table of these fields.
fn check_name(fields: &[Field], name: &[u8], earlier: &[&[u8]]) -> Result<(), CsvKind>
    ensures ok { IfOk result (λ _. schema_name fields.now (map (λ f. f.now) earlier.now) name.now
        ≡ Ok name.now) }
    ensures err { IfErr result (λ kind. schema_name fields.now
        (map (λ f. f.now) earlier.now) name.now
        ≡ Err kind) }
{
    let Some(_) = text_of(name) else {
        return Err(CsvKind::NotUtf8);
    };
    if is_field(name, fields) && is_among(name, earlier) {
        return Err(CsvKind::DuplicateHeader);
    }
    Ok(())
}

/// The first thing that is wrong with the names in a header, over a table of these fields.
pub fn check_names(fields: &[Field], names: &[&[u8]]) -> Result<(), CsvFault>
    requires { length names.now < 2 ^ 31 }
    ensures ok { IfOk result (λ _. IsOk (header_of (schema_name fields.now)
        (map (λ f. f.now) names.now))) }
    ensures err { IfErr result (λ fault.
        header_of (schema_name fields.now) (map (λ f. f.now) names.now) ≡ Err fault) }
{
    'names: for i in 0..names.len() {
        if let Err(kind) = check_name(fields, names[i], &names[..i]) {
            return Err(CsvFault::At(kind, 0, i as u32 + 1));
        }
    }
    Ok(())
}

fn is_among(name: &[u8], names: &[&[u8]]) -> bool
    ensures { result ≡ is_among name.now (map (λ f. f.now) names.now) }
{
    for other in names {
        if name == *other {
            return true;
        }
    }
    false
}
