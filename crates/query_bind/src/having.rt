//! The tests of HAVING: their names, types and columns.

ghost use Rattle.std.specs.Prelude.{◌≡◌, ◌++◌, flat_map, map, None, IfOk, OnOk};
ghost use Rattle.query_bind.specs.GroupTests as tests;
ghost use Rattle.query_bind.specs.Names as naming;
ghost use Rattle.query_bind.specs.Grouped as grouping;
ghost use Rattle.query_bind.specs.Terms as spec;
ghost use Rattle.query_bind.specs.Faults.{Passes};
ghost use Rattle.table_schema.specs.Firsts.{first_of};

use crate::BindFault;
use crate::checks::check_term;
use crate::columns::kind_of;
use crate::condition::check_literal;
use crate::lookups::QueryNames;
use crate::terms::{Meaning, TermAt, place, resolve_term};
use data_types::{FieldKind, Seq};
use query_tokens::{HavingCond, LiteralAt, Term};
use std::alloc::Global;
use table_schema::Fields;
use values::NoMemory;

/// The names and literals of HAVING.
pub(crate) fn check_having(fields: Fields, having: &Option<HavingCond>) -> Result<(), BindFault>
    ensures { Passes (tests.having_finding
        (naming.group_test_finding fields.entry.all.now) having.now) result }
{
    match having {
        Some(having) => check_names(fields, having),
        None => Ok(()),
    }
}

/// Whether each column of HAVING is a group column.
pub(crate) fn check_columns(
    names: &QueryNames<'_>,
    having: &Option<HavingCond>,
) -> Result<(), BindFault>
    ensures { Passes (tests.having_finding
        (grouping.test_grouped names.now.query.now.groups) having.now) result }
{
    match having {
        Some(having) => check_grouped(names, having),
        None => Ok(()),
    }
}

/// What the tests of HAVING are of.
pub(crate) fn having_at(
    alloc: Global,
    fields: Fields,
    having: &Option<HavingCond>,
) -> Result<Seq<TermAt>, NoMemory>
    requires { tests.having_finding (naming.group_test_finding fields.all.now) having.now ≡ None }
    ensures { IfOk result (λ terms. terms
        ≡ map (spec.tested_at fields.entry.all.now) (tests.having_tests having.now)) }
{
    let mut terms = Seq::new(alloc);
    if let Some(having) = having {
        push_tested(fields, having, &mut terms)?;
    }
    Ok(terms)
}

/// Members of AND and OR come as they are written.
fn check_names(fields: Fields, having: &HavingCond) -> Result<(), BindFault>
    ensures { Passes (tests.first_test
        (naming.group_test_finding fields.entry.all.now) having.now) result }
{
    match having {
        HavingCond::Compare(term, _, literal) => check_test(fields, term, literal),
        HavingCond::Not(inner) => check_names(fields, inner.get()),
        HavingCond::All(members) | HavingCond::Any(members) => {
            for member in members.as_slice() {
                check_names(fields, member)?;
            }
            Ok(())
        }
    }
}

/// What is tested comes before the literal.
fn check_test(fields: Fields, term: &Term, literal: &LiteralAt) -> Result<(), BindFault>
    ensures { Passes (naming.group_test_finding fields.entry.all.now
        (record { tested = term.now; literal = literal.now })) result }
{
    resolve_term(fields, term)?;
    check_beside(fields, term, literal)
}

/// The literal beside a term that is in order.
fn check_beside(fields: Fields, term: &Term, literal: &LiteralAt) -> Result<(), BindFault>
    requires { naming.term_finding fields.all.now term.now ≡ None }
    ensures { Passes (naming.literal_finding
        (naming.tested_kind fields.entry.all.now term.now) literal.now) result }
{
    match term {
        Term::Column(name) => match kind_of(fields, name) {
            Ok(kind) => check_literal(kind, literal),
            Err(_) => unreachable!(),
        },
        Term::Call(_) => check_literal(FieldKind::Long, literal),
    }
}

fn check_grouped(names: &QueryNames<'_>, having: &HavingCond) -> Result<(), BindFault>
    ensures { Passes (tests.first_test
        (grouping.test_grouped names.now.query.now.groups) having.now) result }
{
    match having {
        HavingCond::Compare(term, _, _) => check_term(names, term),
        HavingCond::Not(inner) => check_grouped(names, inner.get()),
        HavingCond::All(members) | HavingCond::Any(members) => {
            for member in members.as_slice() {
                check_grouped(names, member)?;
            }
            Ok(())
        }
    }
}

/// The number or the aggregate of a term that is in order.
pub(crate) fn meaning(fields: Fields, term: &Term) -> Meaning
    requires { naming.term_finding fields.all.now term.now ≡ None }
    ensures { result ≡ spec.meaning_of fields.entry.all.now term.now }
{
    match resolve_term(fields, term) {
        Ok(meaning) => meaning,
        Err(_) => unreachable!(),
    }
}

/// Puts what the tests of a condition are of behind other terms.
#[cycle(push_tested)]
fn push_tested(fields: Fields, having: &HavingCond, terms: &mut Seq<TermAt>) -> Result<(), NoMemory>
    requires { tests.first_test (naming.group_test_finding fields.all.now) having.now ≡ None }
    ensures { OnOk result (terms.new ≡ terms.old
        ++ spec.tested_in fields.entry.all.now having.now) }
{
    match having {
        HavingCond::Compare(term, _, _) => terms.push(TermAt {
            meaning: meaning(fields, term),
            offset: place(term),
        }),
        HavingCond::Not(inner) => push_tested(fields, inner.get(), terms),
        HavingCond::All(members) => push_all_tested(fields, members.as_slice(), terms),
        HavingCond::Any(members) => push_all_tested(fields, members.as_slice(), terms),
    }
}

#[cycle(push_tested)]
fn push_all_tested(
    fields: Fields,
    conditions: &[HavingCond],
    terms: &mut Seq<TermAt>,
) -> Result<(), NoMemory>
    requires { first_of (map (tests.first_test (naming.group_test_finding fields.all.now))
        conditions.now) ≡ None }
    ensures { OnOk result (terms.new ≡ terms.old
        ++ flat_map (spec.tested_in fields.entry.all.now) conditions.now) }
{
    for condition in conditions {
        push_tested(fields, condition, terms)?;
    }
    Ok(())
}
