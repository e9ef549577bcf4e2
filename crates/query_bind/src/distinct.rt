//! Group columns and aggregates without repeats, as many as are taken.

ghost use Rattle.std.specs.Prelude.{◌≡◌, ◌≢◌, ◌≤◌, ◌||◌, nat_le, nat_lt, length, map, [], Some, None, OnOk, IfOk, IfErr};
ghost use Rattle.std.specs.List.{list_any};
ghost use Rattle.query_bind.specs.Terms as spec;
ghost use Rattle.query_bind.specs.Limits as limits;
ghost use Rattle.query_bind.specs.Faults.{Gives, fault_if};
ghost use Rattle.table_schema.specs.Aggs.{same_agg};

use crate::terms::{ColumnAt, KeyAt, Meaning, TermAt, Terms};
use crate::{BindFault, BindReason};
use data_types::Seq;
use std::alloc::Global;
use table_schema::Agg;

/// The most group columns.
const MOST_GROUPS: usize = 8;

/// The most aggregates.
const MOST_AGGS: usize = 16;

/// The most keys of ORDER BY.
const MOST_KEYS: usize = 16;

/// Group columns and aggregates, each once.
#[derive(Drop)]
pub struct Lists {
    pub groups: Seq<u16>,
    pub aggs: Seq<Agg>,
}

/// The group columns and the aggregates of a query.
pub(crate) fn without_repeats(alloc: Global, terms: &Terms) -> Result<Lists, BindFault>
    ensures lists { Gives (limits.limits_finding terms.now) (spec.lists_of terms.now) result }
    ensures at_most { IfOk result (λ lists. (length lists.groups ≤ 8) × (length lists.aggs ≤ 16)) }
{
    let aggs = more_aggs(Seq::new(alloc), terms.items.as_slice())?;
    let groups = group_columns(alloc, terms.groups.as_slice())?;
    let aggs = more_aggs(aggs, terms.having.as_slice())?;
    let aggs = key_aggs(aggs, terms.keys.as_slice())?;
    Ok(Lists { groups, aggs })
}

/// The group columns.
fn group_columns(alloc: Global, names: &[ColumnAt]) -> Result<Seq<u16>, BindFault>
    ensures columns { Gives (limits.groups_finding [] names.now)
        (spec.columns_from [] names.now) result }
    ensures at_most { IfOk result (λ columns. length columns ≤ 8) }
{
    let mut columns = Seq::new(alloc);
    for name in names {
        push_column(&mut columns, *name)?;
    }
    Ok(columns)
}

fn push_column(columns: &mut Seq<u16>, name: ColumnAt) -> Result<(), BindFault>
    requires { length columns.old ≤ 8 }
    ensures ok { OnOk result (columns.new ≡ spec.with_column columns.old name.column) }
    ensures at_most { OnOk result (length columns.new ≤ 8) }
    ensures err { IfErr result (λ fault. fault ≢ BindFault.NoMemory → fault_if
        (nat_lt 8 (length (spec.with_column columns.old name.column)))
        BindReason.TooMany name.offset ≡ Some fault) }
{
    if columns.as_slice().contains(&name.column) {
        return Ok(());
    }
    if columns.len() == MOST_GROUPS {
        return Err(BindFault::At(BindReason::TooMany, name.offset));
    }
    columns.push(name.column)?;
    Ok(())
}

/// These aggregates, and after them those of some terms.
fn more_aggs(before: Seq<Agg>, terms: &[TermAt]) -> Result<Seq<Agg>, BindFault>
    requires { length before ≤ 16 }
    ensures aggs { Gives (limits.aggs_finding before terms.now)
        (spec.aggs_from before terms.now) result }
    ensures at_most { IfOk result (λ aggs. length aggs ≤ 16) }
{
    let mut aggs = before;
    for term in terms {
        push_agg(&mut aggs, *term)?;
    }
    Ok(aggs)
}

/// These aggregates, and after them those of the keys.
fn key_aggs(before: Seq<Agg>, keys: &[KeyAt]) -> Result<Seq<Agg>, BindFault>
    requires { length before ≤ 16 }
    ensures aggs { Gives (limits.keys_finding 0 before keys.now)
        (spec.aggs_from before (map (λ k. k.term) keys.now)) result }
    ensures at_most { IfOk result (λ aggs. length aggs ≤ 16) }
{
    let mut aggs = before;
    for (others, key) in keys.iter().enumerate() {
        if others >= MOST_KEYS {
            return Err(BindFault::At(BindReason::TooMany, key.term.offset));
        }
        push_agg(&mut aggs, key.term)?;
    }
    Ok(aggs)
}

fn push_agg(aggs: &mut Seq<Agg>, term: TermAt) -> Result<(), BindFault>
    requires { length aggs.old ≤ 16 }
    ensures ok { OnOk result (aggs.new ≡ spec.with_agg aggs.old term.meaning) }
    ensures at_most { OnOk result (length aggs.new ≤ 16) }
    ensures err { IfErr result (λ fault. fault ≢ BindFault.NoMemory → fault_if
        (nat_lt 16 (length (spec.with_agg aggs.old term.meaning)))
        BindReason.TooMany term.offset ≡ Some fault) }
{
    let Meaning::Agg(agg) = term.meaning else {
        return Ok(());
    };
    if is_among(aggs.as_slice(), agg) {
        return Ok(());
    }
    if aggs.len() == MOST_AGGS {
        return Err(BindFault::At(BindReason::TooMany, term.offset));
    }
    aggs.push(agg)?;
    Ok(())
}

fn is_among(aggs: &[Agg], agg: Agg) -> bool
    ensures { result ≡ list_any (same_agg agg) aggs.now }
{
    for other in aggs {
        if agg == *other {
            return true;
        }
    }
    false
}
