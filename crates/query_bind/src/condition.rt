//! Names and literals of conditions.

ghost use Rattle.std.specs.Prelude.{◌≡◌, Some};
ghost use Rattle.query_bind.specs.Names as spec;
ghost use Rattle.query_bind.specs.Faults.{Passes};
ghost use Rattle.table_schema.specs.Firsts.{first_in};
ghost use Rattle.values.specs.Kinds.{is_of};

use crate::columns::kind_of;
use crate::{BindFault, BindReason};
use data_types::FieldKind;
use query_tokens::{Cond, LiteralAt};
use table_schema::Fields;
use values::Value;

/// The column of a test comes before its literals, and members of AND and OR as they are written.
pub(crate) fn check_condition(fields: Fields, condition: &Cond) -> Result<(), BindFault>
    ensures { Passes (spec.condition_finding fields.entry.all.now condition.now) result }
{
    match condition {
        Cond::Compare(column, _, literal) => {
            let kind = kind_of(fields, column)?;
            check_literal(kind, literal)
        }
        Cond::OneOf(column, literals, _) => {
            let kind = kind_of(fields, column)?;
            check_literals(kind, literals.as_slice())
        }
        Cond::Between(column, low, high, _) => {
            let kind = kind_of(fields, column)?;
            check_literal(kind, low)?;
            check_literal(kind, high)
        }
        Cond::Not(inner) => check_condition(fields, inner.get()),
        Cond::All(members) | Cond::Any(members) => {
            for member in members.as_slice() {
                check_condition(fields, member)?;
            }
            Ok(())
        }
    }
}

fn check_literals(kind: FieldKind, literals: &[LiteralAt]) -> Result<(), BindFault>
    ensures { Passes (first_in (spec.literal_finding (Some kind)) literals.now) result }
{
    for literal in literals {
        check_literal(kind, literal)?;
    }
    Ok(())
}

pub(crate) fn check_literal(kind: FieldKind, literal: &LiteralAt) -> Result<(), BindFault>
    ensures { Passes (spec.literal_finding (Some kind) literal.now) result }
{
    if is_of(kind, &literal.value) {
        Ok(())
    } else {
        Err(BindFault::At(BindReason::TypeMismatch, literal.offset))
    }
}

/// A text for a field of texts, a number for any other.
fn is_of(kind: FieldKind, value: &Value) -> bool
    ensures { result ≡ is_of kind value.now }
{
    match value {
        Value::Whole(_) => kind != FieldKind::Text,
        Value::Text(_) => kind == FieldKind::Text,
    }
}
