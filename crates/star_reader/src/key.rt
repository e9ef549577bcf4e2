//! The keys of documents that were selected.

ghost use Rattle.std.specs.Prelude.{◌≡◌, ◌<◌, ◌≤◌, ◌↔◌, IfOk, length, true};
ghost use Rattle.state_columns.specs.Docs.{doc_at};
ghost use Rattle.star_reader.specs.Asked.{value_of};
ghost use Rattle.star_reader.specs.Selected.{AreKeyIds, key_values};

use crate::asked::GroupColumn;
use data_types::Seq;
use star_table::StarTable;
use std::alloc::Global;
use values::{NoMemory, Row, Value};

/// The key of a document that was selected: the values that its ids in the group columns stand for,
/// in the room of another row.
pub fn key_at(
    alloc: Global,
    columns: &[GroupColumn<'_>],
    selected: &StarTable,
    at: u32,
    room: Row,
) -> Result<Row, NoMemory>
    requires at { at < length selected.now.docs }
    requires at_most { length columns.now ≤ 16 }
    requires dims { selected.now.dims ≡ length columns.now }
    requires ids { AreKeyIds columns.now (doc_at selected.now.docs at).0 }
    ensures { IfOk result (λ key. key ≡ key_values columns.now (doc_at selected.now.docs at).0) }
{
    let mut key = room.into_vec();
    key.clear();
    for i in 0..columns.len() {
        let id = selected.dim(at, i as u8);
        key.push(columns[i].values.value_at(alloc, id)?)?;
    }
    Ok(Seq::from_vec(key))
}

/// Whether a row is the key of a document that was selected. No text is copied.
pub fn is_key(columns: &[GroupColumn<'_>], selected: &StarTable, at: u32, key: &Row) -> bool
    requires at { at < length selected.now.docs }
    requires at_most { length columns.now ≤ 16 }
    requires dims { selected.now.dims ≡ length columns.now }
    requires ids { AreKeyIds columns.now (doc_at selected.now.docs at).0 }
    requires key { length key.now ≡ length columns.now }
    ensures { (result ≡ true) ↔ (key.now ≡ key_values columns.now (doc_at selected.now.docs at).0) }
{
    for i in 0..columns.len() {
        let id = selected.dim(at, i as u8);
        if !is_value(&columns[i], id, key.at(i)) {
            return false;
        }
    }
    true
}

// Whether a value is that of an id in a group column.
fn is_value(column: &GroupColumn<'_>, id: u32, value: &Value) -> bool
    requires { id < length column.now.values.now.values }
    ensures { (result ≡ true) ↔ (value.now ≡ value_of column.now id) }
{
    match value {
        Value::Whole(number) => match column.values.numbers() {
            Some(numbers) => numbers[id as usize] == *number,
            None => false,
        },
        Value::Text(text) => match column.values.bytes_at(id) {
            Some(own) => own == text.as_slice(),
            None => false,
        },
    }
}
