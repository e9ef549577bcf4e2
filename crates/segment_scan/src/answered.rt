//! What is answered of a segment.

use segment_head::Head;
use table_schema::{BoundQuery, Table};

/// A segment of a table, and the query that is answered of it.
#[derive(Clone, Copy)]
pub struct Answered<'a> {
    pub head: &'a Head,
    pub table: &'a Table,
    pub query: &'a BoundQuery,
}
