//! Checks of a query that no number of a field is needed for.

ghost use Rattle.std.specs.Prelude.{◌≡◌, ◌++◌};
ghost use Rattle.std.specs.List.{list_any};
ghost use Rattle.std.specs.Str.{bytes_eq};
ghost use Rattle.query_bind.specs.Names as naming;
ghost use Rattle.query_bind.specs.Grouped as spec;
ghost use Rattle.query_bind.specs.Faults.{Passes};
ghost use Rattle.table_schema.specs.Firsts.{first_in};

use crate::condition::check_condition;
use crate::having::check_columns;
use crate::lookups::QueryNames;
use crate::{BindFault, BindReason};
use query_tokens::{Cond, Query, QueryItem, QueryKey, Term};
use table_schema::{Fields, Table};

/// What the name of a table may end with.
const SUFFIX: &str = "_OFFLINE";

/// Whether the query is of this table, or any will do.
pub(crate) fn check_table(table: &Table, any_table: bool, query: &Query) -> Result<(), BindFault>
    ensures { Passes (naming.table_finding table.now any_table query.now) result }
{
    if any_table || is_table(table.settings.table.as_slice(), query.table.name.as_slice()) {
        Ok(())
    } else {
        Err(BindFault::At(BindReason::UnknownTable, query.table.offset))
    }
}

pub(crate) fn check_where(fields: Fields, condition: &Option<Cond>) -> Result<(), BindFault>
    ensures { Passes (naming.where_finding fields.entry.all.now condition.now) result }
{
    match condition {
        Some(condition) => check_condition(fields, condition),
        None => Ok(()),
    }
}

/// Whether an item of the select list is an aggregate.
pub(crate) fn check_aggregate(query: &Query) -> Result<(), BindFault>
    ensures { Passes (spec.aggregate_finding query.now) result }
{
    if has_call(query.items.as_slice()) {
        Ok(())
    } else {
        Err(BindFault::At(BindReason::NoAggregate, query.select))
    }
}

fn has_call(items: &[QueryItem]) -> bool
    ensures { result ≡ list_any (λ i. spec.is_call i.term) items.now }
{
    items.iter().any(|item| matches!(item.term, Term::Call(_)))
}

/// Whether each column of the select list, of HAVING and of ORDER BY is a group column.
pub(crate) fn check_grouped(names: &QueryNames<'_>) -> Result<(), BindFault>
    ensures { Passes (spec.grouped_finding names.now.query.now) result }
{
    check_items(names, names.query.items.as_slice())?;
    check_columns(names, &names.query.having)?;
    check_keys(names, names.query.order.as_slice())
}

fn check_items(names: &QueryNames<'_>, items: &[QueryItem]) -> Result<(), BindFault>
    ensures { Passes
        (first_in (λ i. spec.term_grouped names.now.query.now.groups i.term) items.now) result }
{
    for item in items {
        check_term(names, &item.term)?;
    }
    Ok(())
}

fn check_keys<'q>(names: &QueryNames<'q>, keys: &'q [QueryKey]) -> Result<(), BindFault>
    ensures { Passes (first_in (λ k. spec.term_grouped names.now.query.now.groups
        (naming.term_of names.now.query.now.items k.term)) keys.now) result }
{
    for key in keys {
        check_term(names, names.term_of(&key.term))?;
    }
    Ok(())
}

/// A column has to be one of GROUP BY.
pub(crate) fn check_term(names: &QueryNames<'_>, term: &Term) -> Result<(), BindFault>
    ensures { Passes (spec.term_grouped names.now.query.now.groups term.now) result }
{
    match term {
        Term::Column(name) if !names.is_grouped(name) => {
            Err(BindFault::At(BindReason::NotGrouped, name.offset))
        }
        _ => Ok(()),
    }
}

/// A table's own name, or that with `_OFFLINE` at its end.
fn is_table(own: &[u8], name: &[u8]) -> bool
    ensures { result ≡ naming.is_table own.now name.now }
{
    name == own || is_joined(name, own, SUFFIX.as_bytes())
}

/// Whether the name is these two parts.
fn is_joined(name: &[u8], front: &[u8], back: &[u8]) -> bool
    ensures { result ≡ bytes_eq name.now (front.now ++ back.now) }
{
    let middle = front.len();
    if name.len() < middle {
        return false;
    }
    &name[..middle] == front && &name[middle..] == back
}
