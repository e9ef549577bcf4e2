//! What the cases of a file are about.

use crate::bindings::{TABLE_K, TABLE_V, bound_query, conjuncts_of};
use crate::csv_ends::Reading;
use crate::csv_texts::{FIELDS, VISITS, rows_of_fields, rows_of_numbers};
use crate::queries::{first_word, long_outcome, outcome, outcome_of_beginnings};
use crate::schemas::schema_outcome;
use crate::settings::settings_outcome;
use crate::text::{Text, meaning};
use data_types::{FieldKind, WholeFault, read_whole};
use std::alloc::Global;

#[derive(Clone, Copy)]
pub enum Subject {
    WholeNumbers,
    Queries,
    LongQueries,
    Characters,
    CutQueries,
    Schemas,
    Settings,
    BoundV,
    BoundK,
    Conditions,
    CsvNumbers,
    CsvFields,
    CsvVisits,
    RowEnds,
    NumberEnds,
    ColumnEnds,
}

const NAMES: &[(&str, Subject)] = &[
    ("whole_numbers", Subject::WholeNumbers),
    ("queries", Subject::Queries),
    ("long_queries", Subject::LongQueries),
    ("characters", Subject::Characters),
    ("cut_queries", Subject::CutQueries),
    ("schemas", Subject::Schemas),
    ("settings", Subject::Settings),
    ("bound_v", Subject::BoundV),
    ("bound_k", Subject::BoundK),
    ("conditions", Subject::Conditions),
    ("csv_numbers", Subject::CsvNumbers),
    ("csv_fields", Subject::CsvFields),
    ("csv_visits", Subject::CsvVisits),
    ("row_ends", Subject::RowEnds),
    ("number_ends", Subject::NumberEnds),
    ("column_ends", Subject::ColumnEnds),
];

// Adds a whole number, or why it is none.
fn show_whole(kind: FieldKind, text: &[u8], out: &Text) {
    match read_whole(kind, text) {
        Ok(number) => out.add_number(number),
        Err(WholeFault::NotANumber) => out.add("NotANumber"),
        Err(WholeFault::OutOfRange) => out.add("OutOfRange"),
    }
}

fn whole_numbers(text: &[u8], out: &Text) {
    show_whole(FieldKind::Int, text, out);
    out.add(" ");
    show_whole(FieldKind::Long, text, out);
}

impl Subject {
    /// The subject whose cases are in the file of that name.
    pub fn of_name(name: &str) -> Option<Subject> {
        meaning(NAMES, name)
    }

    /// Adds what comes of a text.
    pub fn outcome(self, alloc: Global, text: &[u8], out: &Text) {
        match self {
            Subject::WholeNumbers => whole_numbers(text, out),
            Subject::Schemas => schema_outcome(alloc, text, out),
            Subject::Settings => settings_outcome(alloc, text, out),
            Subject::CsvNumbers => rows_of_numbers(alloc, text, out),
            Subject::CsvFields => rows_of_fields(alloc, FIELDS, text, out),
            Subject::CsvVisits => rows_of_fields(alloc, VISITS, text, out),
            Subject::RowEnds => Reading::Rows.outcome(alloc, text, out),
            Subject::NumberEnds => Reading::AllColumns.outcome(alloc, text, out),
            Subject::ColumnEnds => Reading::OneColumn.outcome(alloc, text, out),
            _ => match str::from_utf8(text) {
                Ok(text) => self.outcome_of_query(alloc, text, out),
                Err(_) => out.add("not UTF-8"),
            },
        }
    }

    // Adds what comes of the text of a query or of a condition.
    fn outcome_of_query(self, alloc: Global, text: &str, out: &Text) {
        match self {
            Subject::LongQueries => long_outcome(alloc, text, out),
            Subject::Characters => first_word(alloc, text, out),
            Subject::CutQueries => outcome_of_beginnings(alloc, text, out),
            Subject::BoundV => bound_query(alloc, &TABLE_V, text, out),
            Subject::BoundK => bound_query(alloc, &TABLE_K, text, out),
            Subject::Conditions => conjuncts_of(alloc, &TABLE_K, text, out),
            _ => outcome(alloc, text, out),
        }
    }
}
