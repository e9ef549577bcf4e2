//! What comes of the text of table settings, over the schema of table V.

use crate::bindings::V;
use crate::schemas::show_fault;
use crate::text::Text;
use json_keys::TextFault;
use schema_json::read_schema;
use settings_json::read_settings;
use std::alloc::Global;
use table_schema::Settings;

// A letter for each field that is on a list, and a dot for each other.
fn show_fields(word: &str, fields: &[bool], out: &Text) {
    out.add(word);
    for is_on in fields {
        out.add(if *is_on { "x" } else { "." });
    }
}

fn show_sorted(sorted: Option<u16>, out: &Text) {
    out.add(" sorted ");
    match sorted {
        Some(field) => out.add_count(u64::from(field)),
        None => out.add("-"),
    }
}

fn show_settings(settings: &Settings, out: &Text) {
    out.add(settings.table.as_str());
    show_sorted(settings.sorted, out);
    show_fields(" inverted ", settings.inverted.as_slice(), out);
    show_fields(" ranged ", settings.ranged.as_slice(), out);
    show_fields(" raw ", settings.raw.as_slice(), out);
    out.add(" trees ");
    out.add_count(settings.trees.len() as u64);
}

fn show_read(settings: &Result<Settings, TextFault>, out: &Text) {
    match settings {
        Ok(settings) => show_settings(settings, out),
        Err(fault) => show_fault(fault, out),
    }
}

pub fn settings_outcome(alloc: Global, text: &[u8], out: &Text) {
    let schema = read_schema(alloc, V.as_bytes());
    match &schema {
        Ok(schema) => {
            let settings = read_settings(alloc, schema, text);
            show_read(&settings, out);
            drop(settings);
        }
        Err(fault) => show_fault(fault, out),
    }
    drop(schema);
}
