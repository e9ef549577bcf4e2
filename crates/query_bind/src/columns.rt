//! Columns that a query names.

ghost use Rattle.std.specs.Prelude.{◌≡◌, IfOk, IfErr, Some, None};
ghost use Rattle.query_bind.specs.Names as spec;
ghost use Rattle.query_bind.specs.Written.{field_number};
ghost use Rattle.query_bind.specs.Faults.{Resolves};

use crate::{BindFault, BindReason};
use data_types::FieldKind;
use query_tokens::NameAt;
use table_schema::{Field, Fields};

/// The number of the field that a column is.
pub(crate) fn column(fields: Fields, name: &NameAt) -> Result<u16, BindFault>
    ensures { Resolves (spec.column_finding fields.entry.all.now name.now)
        (field_number fields.entry.all.now name.now) result }
{
    match Field::number_of(fields.all, name.name.as_slice()) {
        Some(number) => Ok(number),
        None => Err(BindFault::At(BindReason::UnknownColumn, name.offset)),
    }
}

/// The type of the field that a column is.
pub(crate) fn kind_of(fields: Fields, name: &NameAt) -> Result<FieldKind, BindFault>
    ensures ok { IfOk result (λ kind. spec.column_finding fields.entry.all.now name.now ≡ None) }
    ensures kind { IfOk result (λ kind. spec.kind_of fields.entry.all.now name.now ≡ Some kind) }
    ensures err { IfErr result (λ fault. spec.column_finding fields.entry.all.now name.now
        ≡ Some fault) }
{
    match Field::number_of(fields.all, name.name.as_slice()) {
        Some(number) => Ok(fields.all[number as usize].kind),
        None => Err(BindFault::At(BindReason::UnknownColumn, name.offset)),
    }
}
