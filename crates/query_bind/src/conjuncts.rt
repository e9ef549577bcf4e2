//! The conjuncts of a condition.

ghost use Rattle.std.specs.Prelude.{◌≡◌, map, None, IfOk};
ghost use Rattle.query_bind.specs.Names.{where_finding};
ghost use Rattle.query_bind.specs.Written.{where_written};
ghost use Rattle.query_bind.specs.Conjuncts as spec;
ghost use Rattle.query_bind.specs.Conjuncts.{KeepRows};

use crate::named_fields::only_field;
use crate::normal::{Joint, Scope};
use data_types::Seq;
use query_tokens::Cond;
use std::alloc::Global;
use table_schema::{Conjunct, Fields, Wide};
use values::{NoMemory, Test};

/// The same condition on the value of one field.
#[cycle(test_of)]
fn test_of(alloc: Global, wide: Wide) -> Result<Test, NoMemory>
    ensures { IfOk result (λ t. t ≡ spec.test_of wide) }
{
    match wide {
        Wide::Leaf(_, test) => Ok(test),
        Wide::All(inner) => Ok(Test::All(tests_of(alloc, inner)?)),
        Wide::Any(inner) => Ok(Test::Any(tests_of(alloc, inner)?)),
    }
}

#[cycle(test_of)]
fn tests_of(alloc: Global, wides: Seq<Wide>) -> Result<Seq<Test>, NoMemory>
    ensures { IfOk result (λ ts. ts ≡ map spec.test_of wides) }
{
    let mut tests = Seq::with_capacity(alloc, wides.len())?;
    for wide in wides.into_vec() {
        tests.push(test_of(alloc, wide)?)?;
    }
    Ok(tests)
}

fn conjunct(alloc: Global, wide: Wide) -> Result<Conjunct, NoMemory>
    ensures { IfOk result (λ c. c ≡ spec.conjunct wide) }
{
    match only_field(&wide) {
        Some(field) => Ok(Conjunct::One(field, test_of(alloc, wide)?)),
        None => Ok(Conjunct::Many(wide)),
    }
}

fn conjuncts_of(alloc: Global, wides: Seq<Wide>) -> Result<Seq<Conjunct>, NoMemory>
    ensures { IfOk result (λ cs. cs ≡ map spec.conjunct wides) }
{
    let mut conjuncts = Seq::with_capacity(alloc, wides.len())?;
    for wide in wides.into_vec() {
        conjuncts.push(conjunct(alloc, wide)?)?;
    }
    Ok(conjuncts)
}

/// The normal form of what follows WHERE, over fields that it names.
pub(crate) fn conjuncts(
    alloc: Global,
    fields: Fields,
    condition: &Option<Cond>,
) -> Result<Seq<Conjunct>, NoMemory>
    requires { where_finding fields.all.now condition.now ≡ None }
    ensures form { IfOk result
        (λ cs. cs ≡ spec.where_conjuncts (where_written fields.entry.all.now condition.now)) }
    ensures rows { IfOk result (λ cs. KeepRows cs
        (where_written fields.entry.all.now condition.now)) }
{
    let Some(condition) = condition else {
        return Ok(Seq::new(alloc));
    };
    let mut members = Seq::new(alloc);
    let scope = Scope { alloc, fields };
    scope.gather(condition, false, Joint::All, &mut members)?;
    conjuncts_of(alloc, members)
}
