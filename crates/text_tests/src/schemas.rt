//! What comes of the text of a schema: its fields, or `Kind key` of the first fault.

use crate::text::Text;
use data_types::FieldKind;
use json_keys::TextFault;
use schema_json::read_schema;
use std::alloc::Global;
use table_schema::{Field, Role, Schema};

/// Adds the kind of a fault and its key.
pub fn show_fault(fault: &TextFault, out: &Text) {
    match fault {
        TextFault::At(kind, path) => {
            out.add_debug(kind);
            out.add(if path.is_empty() { "" } else { " " });
            out.add(path.as_str());
        }
        TextFault::NoMemory => out.add("NoMemory"),
    }
}

fn kind_word(kind: FieldKind) -> &'static str {
    match kind {
        FieldKind::Int => " INT",
        FieldKind::Long => " LONG",
        FieldKind::Text => " STRING",
    }
}

fn role_word(role: Role) -> &'static str {
    match role {
        Role::Dimension => " dimension ",
        Role::Metric => " metric ",
        Role::DateTime => " date ",
    }
}

fn show_field(field: &Field, out: &Text) {
    out.add(field.name.as_str());
    out.add(kind_word(field.kind));
    out.add(role_word(field.role));
    out.add_value(&field.default, ("'", ""));
}

fn show_fields(schema: &Schema, out: &Text) {
    let mut gap = "";
    for field in schema.fields.as_slice() {
        out.add(gap);
        show_field(field, out);
        gap = ", ";
    }
}

fn show_read(schema: &Result<Schema, TextFault>, out: &Text) {
    match schema {
        Ok(schema) => show_fields(schema, out),
        Err(fault) => show_fault(fault, out),
    }
}

pub fn schema_outcome(alloc: Global, text: &[u8], out: &Text) {
    let schema = read_schema(alloc, text);
    show_read(&schema, out);
    drop(schema);
}
