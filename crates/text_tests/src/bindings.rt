//! What comes of a query over a table: `Reason@byte`, or the bound query.

use crate::queries::show_query_fault;
use crate::schemas::show_fault;
use crate::text::Text;
use crate::trees::op_word;
use json_keys::TextFault;
use query_bind::{BindFault, bind};
use query_parser::parse;
use schema_json::read_schema;
use settings_json::read_settings;
use std::alloc::Global;
use table_schema::{Agg, BoundQuery, Conjunct, Having, Item, Table, Wide};
use values::{Test, Value};

/// The texts of a table.
pub struct TableTexts {
    schema: &'static str,
    settings: &'static str,
}

pub const TABLE_V: TableTexts = TableTexts {
    schema: V,
    settings: V_SETTINGS,
};

pub const TABLE_K: TableTexts = TableTexts {
    schema: K,
    settings: K_SETTINGS,
};

/// The schema of table V.
pub const V: &str =
    r#"{"schemaName":"V","dimensionFieldSpecs":[{"name":"Country","dataType":"STRING"},
{"name":"Browser","dataType":"STRING"},{"name":"Locale","dataType":"STRING"}],
"metricFieldSpecs":[{"name":"Impressions","dataType":"LONG"}]}"#;

const V_SETTINGS: &str = r#"{"tableName":"V","tableType":"OFFLINE"}"#;

const K: &str = r#"{"schemaName":"K","dimensionFieldSpecs":[{"name":"t","dataType":"STRING"},
{"name":"u","dataType":"STRING"},{"name":"a","dataType":"INT"},{"name":"b","dataType":"LONG"},
{"name":"c","dataType":"LONG"},{"name":"d","dataType":"LONG"},{"name":"e","dataType":"INT"}],
"metricFieldSpecs":[{"name":"m","dataType":"INT"},{"name":"n","dataType":"LONG"}]}"#;

const K_SETTINGS: &str = r#"{"tableName":"K_OFFLINE","tableType":"OFFLINE"}"#;

fn read(alloc: Global, texts: &TableTexts) -> Result<Table, TextFault> {
    let schema = read_schema(alloc, texts.schema.as_bytes())?;
    let settings = read_settings(alloc, &schema, texts.settings.as_bytes())?;
    Ok(Table { schema, settings })
}

// Adds the bound query, or of one that may name any table only the conjuncts.
fn show_bound(bound: &Result<BoundQuery, BindFault>, any_table: bool, out: &Text) {
    match bound {
        Ok(query) if any_table => show_conjuncts(query, out),
        Ok(query) => show_query(query, out),
        Err(BindFault::At(reason, place)) => {
            out.add_debug(reason);
            out.add_place(*place);
        }
        Err(BindFault::NoMemory) => out.add("NoMemory"),
    }
}

fn bind_text(alloc: Global, table: &Table, text: &str, any_table: bool, out: &Text) {
    if text.len() > 65536 || table.schema.fields.len() > 64 {
        out.add("too long");
        return;
    }
    match parse(alloc, text) {
        Ok(query) => {
            let bound = bind(alloc, &query, table, any_table);
            drop(query);
            show_bound(&bound, any_table, out);
            drop(bound);
        }
        Err(fault) => show_query_fault(fault, out),
    }
}

fn show_over(alloc: Global, texts: &TableTexts, text: &str, any_table: bool, out: &Text) {
    let table = read(alloc, texts);
    match &table {
        Ok(table) => bind_text(alloc, table, text, any_table, out),
        Err(fault) => show_fault(fault, out),
    }
    drop(table);
}

/// Adds what comes of a query whose FROM has to name the table.
pub fn bound_query(alloc: Global, texts: &TableTexts, text: &str, out: &Text) {
    show_over(alloc, texts, text, false, out);
}

/// Adds the conjuncts of a condition, in a query whose FROM names another table.
pub fn conjuncts_of(alloc: Global, texts: &TableTexts, text: &str, out: &Text) {
    let query = Text::new(alloc);
    query.add("SELECT COUNT(*) FROM any WHERE ");
    query.add(text);
    let query = query.into_string();
    show_over(alloc, texts, query.as_str(), true, out);
    drop(query);
}

fn show_value(value: &Value, out: &Text) {
    out.add_value(value, ("'", "'"));
}

fn show_one_of(values: &[Value], negated: bool, out: &Text) {
    out.add(if negated { "!in(" } else { "in(" });
    for value in values {
        show_value(value, out);
        out.add(" ");
    }
    out.add(")");
}

fn show_test(test: &Test, out: &Text) {
    match test {
        Test::Compare(op, value) => {
            out.add(op_word(*op));
            show_value(value, out);
        }
        Test::OneOf(values, negated) => show_one_of(values.as_slice(), *negated, out),
        Test::Between(low, high, negated) => {
            out.add(if *negated { "!" } else { "" });
            show_value(low, out);
            out.add("..");
            show_value(high, out);
        }
        Test::All(inner) | Test::Any(inner) => {
            let word = if let Test::All(_) = test {
                "all("
            } else {
                "any("
            };
            out.add(word);
            for test in inner.as_slice() {
                show_test(test, out);
                out.add(" ");
            }
            out.add(")");
        }
    }
}

// Adds a test on a field.
fn show_tested(field: u16, test: &Test, out: &Text) {
    out.add_count(u64::from(field));
    out.add(":");
    show_test(test, out);
}

fn show_wide(wide: &Wide, out: &Text) {
    match wide {
        Wide::Leaf(field, test) => show_tested(*field, test, out),
        Wide::All(inner) | Wide::Any(inner) => {
            let word = if let Wide::All(_) = wide {
                "all("
            } else {
                "any("
            };
            out.add(word);
            for wide in inner.as_slice() {
                show_wide(wide, out);
                out.add(" ");
            }
            out.add(")");
        }
    }
}

fn show_conjunct(conjunct: &Conjunct, out: &Text) {
    out.add(" ");
    match conjunct {
        Conjunct::One(field, test) => show_tested(*field, test, out),
        Conjunct::Many(wide) => {
            out.add("many ");
            show_wide(wide, out);
        }
    }
}

fn show_conjuncts(query: &BoundQuery, out: &Text) {
    out.add("where");
    for conjunct in query.conjuncts.as_slice() {
        show_conjunct(conjunct, out);
    }
}

fn show_item(item: Item, out: &Text) {
    let (word, place) = match item {
        Item::Group(place) => (" g", place),
        Item::Agg(place) => (" a", place),
    };
    out.add(word);
    out.add_count(u64::from(place));
}

fn show_labels(query: &BoundQuery, out: &Text) {
    for label in query.labels.as_slice() {
        out.add(label.as_str());
        out.add(" ");
    }
    out.add("are");
}

fn show_items(query: &BoundQuery, out: &Text) {
    for item in query.items.as_slice() {
        show_item(*item, out);
    }
}

fn show_agg(agg: Agg, out: &Text) {
    out.add(" ");
    out.add_debug(&agg.kind);
    if let Some(column) = agg.column {
        out.add_count(u64::from(column));
    }
}

fn show_groups(query: &BoundQuery, out: &Text) {
    out.add(" by");
    for group in query.groups.as_slice() {
        out.add(" ");
        out.add_count(u64::from(*group));
    }
}

fn show_aggs(query: &BoundQuery, out: &Text) {
    out.add(" of");
    for agg in query.aggs.as_slice() {
        show_agg(*agg, out);
    }
}

fn show_order(query: &BoundQuery, out: &Text) {
    out.add(" order");
    for key in query.order.as_slice() {
        show_item(key.item, out);
        out.add(if key.descending { "-" } else { "" });
    }
}

fn show_asked(having: &Having, out: &Text) {
    match having {
        Having::Group(place, op, value) => {
            show_item(Item::Group(*place), out);
            out.add(op_word(*op));
            show_value(value, out);
        }
        Having::Agg(place, op, number) => {
            show_item(Item::Agg(*place), out);
            out.add(op_word(*op));
            show_value(&Value::Whole(*number), out);
        }
        Having::Not(inner) => {
            out.add(" not");
            show_asked(inner.get(), out);
        }
        Having::All(inner) | Having::Any(inner) => {
            let word = if let Having::All(_) = having {
                " all("
            } else {
                " any("
            };
            out.add(word);
            for having in inner.as_slice() {
                show_asked(having, out);
            }
            out.add(")");
        }
    }
}

fn show_query(query: &BoundQuery, out: &Text) {
    show_labels(query, out);
    show_items(query, out);
    show_groups(query, out);
    show_aggs(query, out);
    if let Some(having) = &query.having {
        out.add(" having");
        show_asked(having, out);
    }
    show_order(query, out);
    out.add(" ");
    show_conjuncts(query, out);
    out.add(" skip ");
    out.add_count(query.offset);
    out.add(" take ");
    out.add_count(query.limit);
    out.add(if query.use_tree { "" } else { " no tree" });
}
