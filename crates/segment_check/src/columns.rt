//! The values of the ids of a column.
ghost use Rattle.std.specs.Prelude.{◌≡◌, ◌<◌, [], IfOk, OnOk, get_or, length, pos};
ghost use Rattle.value_ids.specs.Coding.{AreBelow, values_at};
ghost use Rattle.value_ids.specs.Dictionary.{IsDictionary};
ghost use Rattle.values.specs.Columns.{is_text, pushed};
ghost use Rattle.values.specs.Kinds.{is_of};
ghost use Rattle.values.specs.declared.value.Value.TheVariants as value;

use data_types::FieldKind;
use dictionary::Dictionary;
use outside::NoMemory;
use std::alloc::Global;
use values::{Column, Value};

/// The values of these ids, as a column.
pub(crate) fn column_of(
    alloc: Global,
    kind: FieldKind,
    dictionary: &Dictionary,
    ids: &[u32],
) -> Result<Column, NoMemory>
    requires kind { dictionary.now.kind ≡ kind }
    requires stands { IsDictionary dictionary.now }
    requires below { AreBelow (length dictionary.now.values) ids.now }
    ensures { IfOk result (λ c. c.values ≡ values_at dictionary.now.values ids.now) }
{
    let mut column = empty_column(alloc, kind);
    column.reserve(ids.len())?;
    'ids: for row in 0..ids.len() {
        push_value(alloc, dictionary, ids[row], &mut column)?;
    }
    Ok(column)
}

// Adds the value of an id at the end. A text is not made anew.
fn push_value(
    alloc: Global,
    dictionary: &Dictionary,
    id: u32,
    column: &mut Column,
) -> Result<(), NoMemory>
    requires id { id < length dictionary.now.values }
    requires sort { column.old.are_texts
        ≡ is_text (get_or dictionary.now.values id (value.Whole (pos 0))) }
    ensures { OnOk result (column.new
        ≡ pushed column.old (get_or dictionary.now.values id (value.Whole (pos 0)))) }
{
    match dictionary.text_at(id) {
        Some(text) => column.push_text(text),
        None => column.push(&dictionary.value_at(alloc, id)?),
    }
}

// A column of the kind without any values yet.
fn empty_column(alloc: Global, kind: FieldKind) -> Column
    ensures { result ≡ record { are_texts = is_of kind (Value.Text []); values = [] } }
{
    match kind {
        FieldKind::Int | FieldKind::Long => Column::numbers(alloc),
        FieldKind::Text => Column::texts(alloc),
    }
}
