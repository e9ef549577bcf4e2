//! Conditions on a row.

ghost use Rattle.std.specs.Prelude.{◌≡◌};
ghost use Rattle.query_parser.specs.Cond as spec;
ghost use Rattle.query_parser.specs.Reading.{Reads};
ghost use Rattle.query_parser.specs.Shrinks.{test_shrinks};

use crate::condition::Condition;
use crate::lists::list;
use crate::terms::{literal, name};
use crate::{Tokens, operator};
use data_types::{Boxed, Seq};
use query_tokens::{Cond, Kind, LiteralAt, NameAt, QueryFault};
use std::alloc::{AllocError, Global};
use values::CompareOp;

#[tactic(auto, unfolding(crate::specs::Cond::one_of))]
fn one_of(
    alloc: Global,
    tokens: &mut Tokens<'_>,
    column: NameAt,
    negated: bool,
) -> Result<Cond, QueryFault>
    ensures { Reads (spec.one_of column negated tokens.old) result tokens.new }
{
    tokens.expect(Kind::LParen)?;
    let values = list::<LiteralAt>(alloc, tokens, Kind::Comma)?;
    tokens.expect(Kind::RParen)?;
    Ok(Cond::OneOf(column, values, negated))
}

#[tactic(auto, unfolding(crate::specs::Cond::between))]
fn between(
    alloc: Global,
    tokens: &mut Tokens<'_>,
    column: NameAt,
    negated: bool,
) -> Result<Cond, QueryFault>
    ensures { Reads (spec.between column negated tokens.old) result tokens.new }
{
    let low = literal(alloc, tokens)?;
    tokens.expect(Kind::And)?;
    let high = literal(alloc, tokens)?;
    Ok(Cond::Between(column, low, high, negated))
}

fn compared(
    alloc: Global,
    tokens: &mut Tokens<'_>,
    column: NameAt,
    op: Option<CompareOp>,
) -> Result<Cond, QueryFault>
    ensures { Reads (spec.compared column op tokens.old) result tokens.new }
{
    let Some(op) = op else {
        return Err(tokens.refuse());
    };
    tokens.take();
    Ok(Cond::Compare(column, op, literal(alloc, tokens)?))
}

fn negated(alloc: Global, tokens: &mut Tokens<'_>, column: NameAt) -> Result<Cond, QueryFault>
    ensures { Reads (spec.negated column tokens.old) result tokens.new }
{
    match tokens.peek() {
        Kind::In => {
            tokens.take();
            one_of(alloc, tokens, column, true)
        }
        Kind::Between => {
            tokens.take();
            between(alloc, tokens, column, true)
        }
        _ => Err(tokens.refuse()),
    }
}

#[tactic(auto, unfolding(crate::specs::Cond::predicate))]
fn predicate(alloc: Global, tokens: &mut Tokens<'_>) -> Result<Cond, QueryFault>
    ensures { Reads (spec.predicate tokens.old) result tokens.new }
{
    let column = name(alloc, tokens)?;
    match tokens.peek() {
        Kind::In => {
            tokens.take();
            one_of(alloc, tokens, column, false)
        }
        Kind::Between => {
            tokens.take();
            between(alloc, tokens, column, false)
        }
        Kind::Not => {
            tokens.take();
            negated(alloc, tokens, column)
        }
        kind => compared(alloc, tokens, column, operator(kind)),
    }
}

impl Condition for Cond {
    ghost leaf = { spec.predicate };

    ghost joints = { spec.row_joints };

    fn read_test(alloc: Global, tokens: &mut Tokens<'_>) -> Result<Cond, QueryFault> {
        predicate(alloc, tokens)
    }

    fn not(alloc: Global, inner: Cond) -> Result<Cond, AllocError> {
        Ok(Cond::Not(Boxed::new(alloc, inner)?))
    }

    fn all(members: Seq<Cond>) -> Cond
        ensures { result ≡ Cond.All members }
    {
        Cond::All(members)
    }

    fn any(members: Seq<Cond>) -> Cond
        ensures { result ≡ Cond.Any members }
    {
        Cond::Any(members)
    }

    ghost takes = { test_shrinks };
}
