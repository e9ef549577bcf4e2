//! The query that a text is, by its names and types.
ghost use Rattle.std.specs.Prelude.{◌≡◌, ◌≤◌, Bool, List, Err, IfOk, IfErr, length};
ghost use Rattle.values.specs.declared.value.Value.{Value};
ghost use Rattle.table_schema.specs.declared.table.Table.{Table};
ghost use Rattle.table_schema.specs.ValidQuery.{IsValidQuery};
ghost use Rattle.query_bind.specs.Bound.{Spelled, bound};
ghost use Rattle.sql_reply.specs.Asked.{Asks, asked, normal_asked};
ghost use Rattle.sql_reply.specs.Parts.{IsBound, IsRead};
ghost use Rattle.sql_reply.specs.Reply.{conjuncts_reply};
ghost use Rattle.sql_reply.specs.SqlReply as spec;

use crate::SqlFault;
use query_bind::{BindFault, bind};
use query_parser::parse;
use query_tokens::{Query, QueryFault};
use std::alloc::Global;
use table_schema::{BoundQuery, Table};

// The most bytes that a query may have.
const SQL_LIMIT: u32 = 65_536;

/// A query by its text, its names and its types, over the columns of a table, in its normal form.
/// Over any rows the reply to the text is that of this query; where there is none, the text has no
/// reply for that reason.
pub fn bound_query(
    alloc: Global,
    sql: &str,
    table: &Table,
    any_table: bool,
) -> Result<BoundQuery, SqlFault>
    requires { length table.now.schema.fields ≤ 64 }
    ensures asked { Asks (asked table.now any_table sql.now) result }
    ensures reply { (rows : List (List Value)) → IfOk result (λ found.
        spec.sql_reply table.now any_table sql.now rows
        ≡ spec.replied (conjuncts_reply found rows)) }
    ensures valid { IfOk result (IsValidQuery table.now) }
    ensures err { (rows : List (List Value)) → IfErr result (λ fault.
        spec.Replies (spec.sql_reply table.now any_table sql.now rows) (Err fault)) }
{
    let query = query_of(alloc, sql)?;
    bind_to(alloc, &query, table, any_table)
}

// The query that a text is.
fn query_of(alloc: Global, sql: &str) -> Result<Query, SqlFault>
    ensures query { IfOk result (IsRead sql.now) }
    ensures spelled { IfOk result (λ query. Spelled query) }
    ensures err { (table : Table) (any_table : Bool) →
        IfErr result (λ fault. Asks (asked table any_table sql.now) (Err fault)) }
{
    if sql.len() > SQL_LIMIT as usize {
        return Err(SqlFault::LongQuery(SQL_LIMIT));
    }
    match parse(alloc, sql) {
        Ok(query) => Ok(query),
        Err(QueryFault::At(reason, place)) => Err(SqlFault::BadQuery(reason, place)),
        Err(QueryFault::NoMemory) => Err(SqlFault::NoMemory),
    }
}

// A query by its names and types.
fn bind_to(
    alloc: Global,
    query: &Query,
    table: &Table,
    any_table: bool,
) -> Result<BoundQuery, SqlFault>
    requires at_most { length table.now.schema.fields ≤ 64 }
    requires spelled { Spelled query.now }
    ensures bound { IfOk result (IsBound table.now any_table query.now) }
    ensures valid { IfOk result (IsValidQuery table.now) }
    ensures err { IfErr result (λ fault.
        Asks (normal_asked (bound table.now any_table query.now)) (Err fault)) }
{
    match bind(alloc, query, table, any_table) {
        Ok(bound) => Ok(bound),
        Err(BindFault::At(reason, place)) => Err(SqlFault::Unbound(reason, place)),
        Err(BindFault::NoMemory) => Err(SqlFault::NoMemory),
    }
}
